//! Made by `tools/make_table.py`: change tools/grammars, not this file.

use ll_core::{Production, Span};

macro_rules! productions {
    ($($left:literal: $from:literal..$upto:literal,)*) => {
        [$(Production { left: $left, right: Span { from: $from, upto: $upto } }),*]
    };
}

/// The productions, ordered by their left symbols.
pub static PRODUCTIONS: [Production; 287] = productions! {
    // File = ManyMember
    0: 0..1,
    // Member = MaybeVis Content
    1: 1..3,
    // Vis = 'public'
    2: 3..4,
    // Vis = 'protected'
    2: 4..5,
    // Vis = 'private'
    2: 5..6,
    // Import = 'import' MaybeAll MaybeDollarColonColon NAME ImpRest ';'
    3: 6..12,
    // ImpRest = MaybeColonColonImpNext
    4: 12..13,
    // ImpNext = NAME ImpRest
    5: 13..15,
    // ImpNext = '*' MaybeColonColonStarStar
    5: 15..17,
    // ImpNext = '**'
    5: 17..18,
    // Alias = 'alias' Ident 'for' QName ';'
    6: 18..23,
    // Ident = MaybeLessNameGreater MaybeName
    7: 23..25,
    // Note = 'doc' Ident Locale COMMENT
    8: 25..29,
    // Note = 'comment' Ident MaybeAboutQNameComma Locale COMMENT
    8: 29..34,
    // Note = 'locale' STRING COMMENT
    8: 34..37,
    // Note = COMMENT
    8: 37..38,
    // Locale = MaybeLocaleString
    9: 38..39,
    // Pack = MaybeStandard 'library' 'package' Ident Body
    10: 39..44,
    // Pack = 'package' Ident Body
    10: 44..47,
    // Body = ';'
    11: 47..48,
    // Body = '{' ManyMember '}'
    11: 48..51,
    // QName = MaybeDollarColonColon NAME ManyColonColonName
    12: 51..54,
    // Chain = QName ManyDotName
    13: 54..56,
    // Dir = 'in'
    14: 56..57,
    // Dir = 'out'
    14: 57..58,
    // Dir = 'inout'
    14: 58..59,
    // Sub = MaybeColonGreaterQNameComma
    15: 59..60,
    // SpecPart = ManySpec MaybeMultSpec
    16: 60..62,
    // Spec = TypedBy QName ManyCommaQName
    17: 62..65,
    // Spec = OneColonGreaterSubsets Chain ManyCommaChain
    17: 65..68,
    // Spec = OneColonGreaterGreaterRedefines QName ManyCommaQName
    17: 68..71,
    // Spec = OneColonColonGreaterReferences Chain
    17: 71..73,
    // Mult = '[' Bounds ']' MaybeOrder
    18: 73..77,
    // Mult = Order
    18: 77..78,
    // Order = 'ordered' MaybeNonunique
    19: 78..80,
    // Order = 'nonunique' MaybeOrdered
    19: 80..82,
    // Bounds = '*'
    20: 82..83,
    // Bounds = Bound MaybeDotDotStar
    20: 83..85,
    // Bound = INT
    21: 85..86,
    // Bound = QName
    21: 86..87,
    // Value = MaybeEqualsExprDefault
    22: 87..88,
    // UseHead = Ident SpecPart
    23: 88..90,
    // UseTail = UseHead Value Body
    24: 90..93,
    // Plain = NAME RefTail
    25: 93..95,
    // Plain = NoName
    25: 95..96,
    // NoName = '<' NAME '>' MaybeName RefTail
    26: 96..101,
    // NoName = Spec RefTail
    26: 101..103,
    // RefTail = SpecPart Value Body
    27: 103..106,
    // Expr = 'if' Expr '?' Expr 'else' Expr
    28: 106..112,
    // Expr = Imp
    28: 112..113,
    // Imp = Or ManyImpliesOr
    29: 113..115,
    // Or = Xor ManyOrXor
    30: 115..117,
    // Xor = And ManyXorAnd
    31: 117..119,
    // And = Eq ManyAndEq
    32: 119..121,
    // Eq = Rel ManyEqualsEqualsRel
    33: 121..123,
    // Rel = Sum ManyLessSum
    34: 123..125,
    // Sum = Term ManyPlusTerm
    35: 125..127,
    // Term = Unary ManyStarUnary
    36: 127..129,
    // Unary = OneMinusPlusNot Unary
    37: 129..131,
    // Unary = Prim
    37: 131..132,
    // Prim = INT
    38: 132..133,
    // Prim = STRING
    38: 133..134,
    // Prim = 'true'
    38: 134..135,
    // Prim = 'false'
    38: 135..136,
    // Prim = 'null'
    38: 136..137,
    // Prim = Chain
    38: 137..138,
    // Prim = '(' Expr ')'
    38: 138..141,
    // TypedBy = ':'
    39: 141..142,
    // TypedBy = 'defined' 'by'
    39: 142..144,
    // Content = Import
    40: 144..145,
    // Content = Alias
    40: 145..146,
    // Content = Note
    40: 146..147,
    // Content = Pack
    40: 147..148,
    // Content = Thing
    40: 148..149,
    // Thing = 'end' P1
    41: 149..151,
    // Thing = Dir P2
    41: 151..153,
    // Thing = 'derived' P3
    41: 153..155,
    // Thing = 'abstract' Late
    41: 155..157,
    // Thing = Late
    41: 157..158,
    // Thing = Connect
    41: 158..159,
    // Thing = Bind
    41: 159..160,
    // P1 = MaybeDir P2
    42: 160..162,
    // P2 = MaybeDerived P3
    43: 162..164,
    // P3 = MaybeAbstract P4
    44: 164..166,
    // P4 = MaybeConstant P5
    45: 166..168,
    // P5 = MaybeRef Usage
    46: 168..170,
    // Late = 'constant' P5
    47: 170..172,
    // Late = 'ref' Usage
    47: 172..174,
    // Late = DefUse
    47: 174..175,
    // Late = Plain
    47: 175..176,
    // Simple = 'attribute'
    48: 176..177,
    // Simple = 'occurrence'
    48: 177..178,
    // Simple = 'item'
    48: 178..179,
    // Simple = 'part'
    48: 179..180,
    // Simple = 'port'
    48: 180..181,
    // Simple = 'action'
    48: 181..182,
    // Usage = Simple UseTail
    49: 182..184,
    // Usage = 'enum' UseTail
    49: 184..186,
    // Usage = OneConnectionInterface ConTail
    49: 186..188,
    // Usage = OneCalcConstraint CalcTail
    49: 188..190,
    // Usage = 'requirement' ReqTail
    49: 190..192,
    // Usage = Plain
    49: 192..193,
    // DefUse = Simple OneDefDefHeadBody
    50: 193..195,
    // DefUse = 'enum' OneDefDefHeadEnumBody
    50: 195..197,
    // DefUse = OneConnectionInterface OneDefDefHeadBody2
    50: 197..199,
    // DefUse = OneCalcConstraint OneDefDefHeadCalcBody
    50: 199..201,
    // DefUse = 'requirement' OneDefDefHeadReqBody
    50: 201..203,
    // DefHead = Ident Sub
    51: 203..205,
    // ConTail = UseHead Value MaybeConnectEnds Body
    52: 205..209,
    // CalcTail = UseHead Value CalcBody
    53: 209..212,
    // ReqTail = UseHead Value ReqBody
    54: 212..215,
    // EnumBody = ';'
    55: 215..216,
    // EnumBody = '{' ManyEnumItem '}'
    55: 216..219,
    // EnumItem = MaybeVis OneNoteEnumUseTail
    56: 219..221,
    // CalcBody = ';'
    57: 221..222,
    // CalcBody = '{' ManyCalcItem MaybeExpr '}'
    57: 222..226,
    // CalcItem = MaybeVis OneImportAliasNote
    58: 226..228,
    // ReqBody = ';'
    59: 228..229,
    // ReqBody = '{' ManyReqItem '}'
    59: 229..232,
    // ReqItem = MaybeVis OneContentSubjectUseTail
    60: 232..234,
    // ReqCon = 'constraint' CalcTail
    61: 234..236,
    // ReqCon = Chain SpecPart CalcBody
    61: 236..239,
    // Connect = 'connect' Ends Body
    62: 239..242,
    // Ends = End 'to' End
    63: 242..245,
    // Ends = '(' End ',' End ManyCommaEnd ')'
    63: 245..251,
    // Bind = 'bind' End '=' End Body
    64: 251..256,
    // Bind = 'binding' UseHead 'bind' End '=' End Body
    64: 256..263,
    // End = MaybeBracketBoundsBracket EndName
    65: 263..265,
    // EndName = NAME EndRest
    66: 265..267,
    // EndName = '$' '::' NAME ManyColonColonName ManyDotName
    66: 267..272,
    // EndRest = OneColonColonGreaterReferences Chain
    67: 272..274,
    // EndRest = ManyColonColonName ManyDotName
    67: 274..276,
    // ManyMember = Member ManyMember
    68: 276..278,
    // ManyMember = nothing
    68: 278..278,
    // MaybeVis = Vis
    69: 278..279,
    // MaybeVis = nothing
    69: 279..279,
    // MaybeAll = 'all'
    70: 279..280,
    // MaybeAll = nothing
    70: 280..280,
    // MaybeDollarColonColon = '$' '::'
    71: 280..282,
    // MaybeDollarColonColon = nothing
    71: 282..282,
    // MaybeColonColonImpNext = '::' ImpNext
    72: 282..284,
    // MaybeColonColonImpNext = nothing
    72: 284..284,
    // MaybeColonColonStarStar = '::' '**'
    73: 284..286,
    // MaybeColonColonStarStar = nothing
    73: 286..286,
    // MaybeLessNameGreater = '<' NAME '>'
    74: 286..289,
    // MaybeLessNameGreater = nothing
    74: 289..289,
    // MaybeName = NAME
    75: 289..290,
    // MaybeName = nothing
    75: 290..290,
    // MaybeAboutQNameComma = 'about' QName ManyCommaQName
    76: 290..293,
    // MaybeAboutQNameComma = nothing
    76: 293..293,
    // ManyCommaQName = ',' QName ManyCommaQName
    77: 293..296,
    // ManyCommaQName = nothing
    77: 296..296,
    // MaybeLocaleString = 'locale' STRING
    78: 296..298,
    // MaybeLocaleString = nothing
    78: 298..298,
    // MaybeStandard = 'standard'
    79: 298..299,
    // MaybeStandard = nothing
    79: 299..299,
    // ManyColonColonName = '::' NAME ManyColonColonName
    80: 299..302,
    // ManyColonColonName = nothing
    80: 302..302,
    // ManyDotName = '.' NAME ManyDotName
    81: 302..305,
    // ManyDotName = nothing
    81: 305..305,
    // MaybeColonGreaterQNameComma = OneColonGreaterSpecializes QName ManyCommaQName
    82: 305..308,
    // MaybeColonGreaterQNameComma = nothing
    82: 308..308,
    // OneColonGreaterSpecializes = ':>'
    83: 308..309,
    // OneColonGreaterSpecializes = 'specializes'
    83: 309..310,
    // ManySpec = Spec ManySpec
    84: 310..312,
    // ManySpec = nothing
    84: 312..312,
    // MaybeMultSpec = Mult ManySpec
    85: 312..314,
    // MaybeMultSpec = nothing
    85: 314..314,
    // OneColonGreaterSubsets = ':>'
    86: 314..315,
    // OneColonGreaterSubsets = 'subsets'
    86: 315..316,
    // ManyCommaChain = ',' Chain ManyCommaChain
    87: 316..319,
    // ManyCommaChain = nothing
    87: 319..319,
    // OneColonGreaterGreaterRedefines = ':>>'
    88: 319..320,
    // OneColonGreaterGreaterRedefines = 'redefines'
    88: 320..321,
    // OneColonColonGreaterReferences = '::>'
    89: 321..322,
    // OneColonColonGreaterReferences = 'references'
    89: 322..323,
    // MaybeOrder = Order
    90: 323..324,
    // MaybeOrder = nothing
    90: 324..324,
    // MaybeNonunique = 'nonunique'
    91: 324..325,
    // MaybeNonunique = nothing
    91: 325..325,
    // MaybeOrdered = 'ordered'
    92: 325..326,
    // MaybeOrdered = nothing
    92: 326..326,
    // MaybeDotDotStar = '..' OneStarBound
    93: 326..328,
    // MaybeDotDotStar = nothing
    93: 328..328,
    // OneStarBound = '*'
    94: 328..329,
    // OneStarBound = Bound
    94: 329..330,
    // MaybeEqualsExprDefault = OneEqualsExprDefault
    95: 330..331,
    // MaybeEqualsExprDefault = nothing
    95: 331..331,
    // OneEqualsExprDefault = '=' Expr
    96: 331..333,
    // OneEqualsExprDefault = 'default' MaybeEquals Expr
    96: 333..336,
    // MaybeEquals = '='
    97: 336..337,
    // MaybeEquals = nothing
    97: 337..337,
    // ManyImpliesOr = 'implies' Or ManyImpliesOr
    98: 337..340,
    // ManyImpliesOr = nothing
    98: 340..340,
    // ManyOrXor = OneOrBar Xor ManyOrXor
    99: 340..343,
    // ManyOrXor = nothing
    99: 343..343,
    // OneOrBar = 'or'
    100: 343..344,
    // OneOrBar = '|'
    100: 344..345,
    // ManyXorAnd = 'xor' And ManyXorAnd
    101: 345..348,
    // ManyXorAnd = nothing
    101: 348..348,
    // ManyAndEq = OneAndAnd Eq ManyAndEq
    102: 348..351,
    // ManyAndEq = nothing
    102: 351..351,
    // OneAndAnd = 'and'
    103: 351..352,
    // OneAndAnd = '&'
    103: 352..353,
    // ManyEqualsEqualsRel = OneEqualsEqualsNotEquals Rel ManyEqualsEqualsRel
    104: 353..356,
    // ManyEqualsEqualsRel = nothing
    104: 356..356,
    // OneEqualsEqualsNotEquals = '=='
    105: 356..357,
    // OneEqualsEqualsNotEquals = '!='
    105: 357..358,
    // ManyLessSum = OneLessGreaterLessEquals Sum ManyLessSum
    106: 358..361,
    // ManyLessSum = nothing
    106: 361..361,
    // OneLessGreaterLessEquals = '<'
    107: 361..362,
    // OneLessGreaterLessEquals = '>'
    107: 362..363,
    // OneLessGreaterLessEquals = '<='
    107: 363..364,
    // OneLessGreaterLessEquals = '>='
    107: 364..365,
    // ManyPlusTerm = OnePlusMinus Term ManyPlusTerm
    108: 365..368,
    // ManyPlusTerm = nothing
    108: 368..368,
    // OnePlusMinus = '+'
    109: 368..369,
    // OnePlusMinus = '-'
    109: 369..370,
    // ManyStarUnary = OneStarSlashPercent Unary ManyStarUnary
    110: 370..373,
    // ManyStarUnary = nothing
    110: 373..373,
    // OneStarSlashPercent = '*'
    111: 373..374,
    // OneStarSlashPercent = '/'
    111: 374..375,
    // OneStarSlashPercent = '%'
    111: 375..376,
    // OneMinusPlusNot = '-'
    112: 376..377,
    // OneMinusPlusNot = '+'
    112: 377..378,
    // OneMinusPlusNot = 'not'
    112: 378..379,
    // MaybeDir = Dir
    113: 379..380,
    // MaybeDir = nothing
    113: 380..380,
    // MaybeDerived = 'derived'
    114: 380..381,
    // MaybeDerived = nothing
    114: 381..381,
    // MaybeAbstract = 'abstract'
    115: 381..382,
    // MaybeAbstract = nothing
    115: 382..382,
    // MaybeConstant = 'constant'
    116: 382..383,
    // MaybeConstant = nothing
    116: 383..383,
    // MaybeRef = 'ref'
    117: 383..384,
    // MaybeRef = nothing
    117: 384..384,
    // OneConnectionInterface = 'connection'
    118: 384..385,
    // OneConnectionInterface = 'interface'
    118: 385..386,
    // OneCalcConstraint = 'calc'
    119: 386..387,
    // OneCalcConstraint = 'constraint'
    119: 387..388,
    // OneDefDefHeadBody = 'def' DefHead Body
    120: 388..391,
    // OneDefDefHeadBody = UseTail
    120: 391..392,
    // OneDefDefHeadEnumBody = 'def' DefHead EnumBody
    121: 392..395,
    // OneDefDefHeadEnumBody = UseTail
    121: 395..396,
    // OneDefDefHeadBody2 = 'def' DefHead Body
    122: 396..399,
    // OneDefDefHeadBody2 = ConTail
    122: 399..400,
    // OneDefDefHeadCalcBody = 'def' DefHead CalcBody
    123: 400..403,
    // OneDefDefHeadCalcBody = CalcTail
    123: 403..404,
    // OneDefDefHeadReqBody = 'def' DefHead ReqBody
    124: 404..407,
    // OneDefDefHeadReqBody = ReqTail
    124: 407..408,
    // MaybeConnectEnds = 'connect' Ends
    125: 408..410,
    // MaybeConnectEnds = nothing
    125: 410..410,
    // ManyEnumItem = EnumItem ManyEnumItem
    126: 410..412,
    // ManyEnumItem = nothing
    126: 412..412,
    // OneNoteEnumUseTail = Note
    127: 412..413,
    // OneNoteEnumUseTail = 'enum' UseTail
    127: 413..415,
    // OneNoteEnumUseTail = Plain
    127: 415..416,
    // ManyCalcItem = CalcItem ManyCalcItem
    128: 416..418,
    // ManyCalcItem = nothing
    128: 418..418,
    // MaybeExpr = Expr
    129: 418..419,
    // MaybeExpr = nothing
    129: 419..419,
    // OneImportAliasNote = Import
    130: 419..420,
    // OneImportAliasNote = Alias
    130: 420..421,
    // OneImportAliasNote = Note
    130: 421..422,
    // OneImportAliasNote = Pack
    130: 422..423,
    // OneImportAliasNote = 'end' P1
    130: 423..425,
    // OneImportAliasNote = Dir P2
    130: 425..427,
    // OneImportAliasNote = 'derived' P3
    130: 427..429,
    // OneImportAliasNote = 'abstract' Late
    130: 429..431,
    // OneImportAliasNote = 'constant' P5
    130: 431..433,
    // OneImportAliasNote = 'ref' Usage
    130: 433..435,
    // OneImportAliasNote = DefUse
    130: 435..436,
    // OneImportAliasNote = NoName
    130: 436..437,
    // OneImportAliasNote = Connect
    130: 437..438,
    // OneImportAliasNote = Bind
    130: 438..439,
    // OneImportAliasNote = 'return' P5
    130: 439..441,
    // ManyReqItem = ReqItem ManyReqItem
    131: 441..443,
    // ManyReqItem = nothing
    131: 443..443,
    // OneContentSubjectUseTail = Content
    132: 443..444,
    // OneContentSubjectUseTail = 'subject' UseTail
    132: 444..446,
    // OneContentSubjectUseTail = OneAssumeRequire ReqCon
    132: 446..448,
    // OneAssumeRequire = 'assume'
    133: 448..449,
    // OneAssumeRequire = 'require'
    133: 449..450,
    // ManyCommaEnd = ',' End ManyCommaEnd
    134: 450..453,
    // ManyCommaEnd = nothing
    134: 453..453,
    // MaybeBracketBoundsBracket = '[' Bounds ']'
    135: 453..456,
    // MaybeBracketBoundsBracket = nothing
    135: 456..456,
};
