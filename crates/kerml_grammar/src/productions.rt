//! Made by `tools/make_table.py`: change tools/grammars, not this file.

use ll_core::{Production, Span};

macro_rules! productions {
    ($($left:literal: $from:literal..$upto:literal,)*) => {
        [$(Production { left: $left, right: Span { from: $from, upto: $upto } }),*]
    };
}

/// The productions, ordered by their left symbols.
pub static PRODUCTIONS: [Production; 228] = productions! {
    // File = ManyMember
    0: 0..1,
    // Member = MaybeVis Content
    1: 1..3,
    // Vis = 'public'
    2: 3..4,
    // Vis = 'protected'
    2: 4..5,
    // Vis = 'private'
    2: 5..6,
    // Import = 'import' MaybeAll MaybeDollarColonColon NAME ImpRest ';'
    3: 6..12,
    // ImpRest = MaybeColonColonImpNext
    4: 12..13,
    // ImpNext = NAME ImpRest
    5: 13..15,
    // ImpNext = '*' MaybeColonColonStarStar
    5: 15..17,
    // ImpNext = '**'
    5: 17..18,
    // Alias = 'alias' Ident 'for' QName ';'
    6: 18..23,
    // Ident = MaybeLessNameGreater MaybeName
    7: 23..25,
    // Note = 'doc' Ident Locale COMMENT
    8: 25..29,
    // Note = 'comment' Ident MaybeAboutQNameComma Locale COMMENT
    8: 29..34,
    // Note = 'locale' STRING COMMENT
    8: 34..37,
    // Note = COMMENT
    8: 37..38,
    // Locale = MaybeLocaleString
    9: 38..39,
    // Pack = MaybeStandard 'library' 'package' Ident Body
    10: 39..44,
    // Pack = 'package' Ident Body
    10: 44..47,
    // Body = ';'
    11: 47..48,
    // Body = '{' ManyMember '}'
    11: 48..51,
    // QName = MaybeDollarColonColon NAME ManyColonColonName
    12: 51..54,
    // Chain = QName ManyDotName
    13: 54..56,
    // Dir = 'in'
    14: 56..57,
    // Dir = 'out'
    14: 57..58,
    // Dir = 'inout'
    14: 58..59,
    // Sub = MaybeColonGreaterQNameComma
    15: 59..60,
    // SpecPart = ManySpec MaybeMultSpec
    16: 60..62,
    // Spec = TypedBy QName ManyCommaQName
    17: 62..65,
    // Spec = OneColonGreaterSubsets Chain ManyCommaChain
    17: 65..68,
    // Spec = OneColonGreaterGreaterRedefines QName ManyCommaQName
    17: 68..71,
    // Spec = OneColonColonGreaterReferences Chain
    17: 71..73,
    // Mult = '[' Bounds ']' MaybeOrder
    18: 73..77,
    // Mult = Order
    18: 77..78,
    // Order = 'ordered' MaybeNonunique
    19: 78..80,
    // Order = 'nonunique' MaybeOrdered
    19: 80..82,
    // Bounds = '*'
    20: 82..83,
    // Bounds = Bound MaybeDotDotStar
    20: 83..85,
    // Bound = INT
    21: 85..86,
    // Bound = QName
    21: 86..87,
    // Value = MaybeEqualsExprDefault
    22: 87..88,
    // UseHead = Ident SpecPart
    23: 88..90,
    // UseTail = UseHead Value Body
    24: 90..93,
    // Plain = NAME RefTail
    25: 93..95,
    // Plain = NoName
    25: 95..96,
    // NoName = '<' NAME '>' MaybeName RefTail
    26: 96..101,
    // NoName = Spec RefTail
    26: 101..103,
    // RefTail = SpecPart Value Body
    27: 103..106,
    // Expr = 'if' Expr '?' Expr 'else' Expr
    28: 106..112,
    // Expr = Imp
    28: 112..113,
    // Imp = Or ManyImpliesOr
    29: 113..115,
    // Or = Xor ManyOrXor
    30: 115..117,
    // Xor = And ManyXorAnd
    31: 117..119,
    // And = Eq ManyAndEq
    32: 119..121,
    // Eq = Rel ManyEqualsEqualsRel
    33: 121..123,
    // Rel = Sum ManyLessSum
    34: 123..125,
    // Sum = Term ManyPlusTerm
    35: 125..127,
    // Term = Unary ManyStarUnary
    36: 127..129,
    // Unary = OneMinusPlusNot Unary
    37: 129..131,
    // Unary = Prim
    37: 131..132,
    // Prim = INT
    38: 132..133,
    // Prim = STRING
    38: 133..134,
    // Prim = 'true'
    38: 134..135,
    // Prim = 'false'
    38: 135..136,
    // Prim = 'null'
    38: 136..137,
    // Prim = Chain
    38: 137..138,
    // Prim = '(' Expr ')'
    38: 138..141,
    // TypedBy = ':'
    39: 141..142,
    // TypedBy = 'typed' 'by'
    39: 142..144,
    // Content = Import
    40: 144..145,
    // Content = Alias
    40: 145..146,
    // Content = Note
    40: 146..147,
    // Content = Pack
    40: 147..148,
    // Content = 'namespace' Ident Body
    40: 148..151,
    // Content = Thing
    40: 151..152,
    // Thing = Dir K1
    41: 152..154,
    // Thing = 'derived' K2
    41: 154..156,
    // Thing = 'abstract' KLate
    41: 156..158,
    // Thing = KLate
    41: 158..159,
    // K1 = MaybeDerived K2
    42: 159..161,
    // K2 = MaybeAbstract K3
    43: 161..163,
    // K3 = MaybeComposite K4
    44: 163..165,
    // K4 = MaybeConst K5
    45: 165..167,
    // K5 = MaybeEnd Feat
    46: 167..169,
    // KLate = 'composite' K4
    47: 169..171,
    // KLate = 'const' K5
    47: 171..173,
    // KLate = 'end' Feat
    47: 173..175,
    // KLate = TypeDecl
    47: 175..176,
    // KLate = Feat
    47: 176..177,
    // TypeDecl = TypeWord Ident Sub Body
    48: 177..181,
    // TypeDecl = 'function' Ident Sub FunBody
    48: 181..185,
    // TypeWord = 'type'
    49: 185..186,
    // TypeWord = 'classifier'
    49: 186..187,
    // TypeWord = 'class'
    49: 187..188,
    // TypeWord = 'struct'
    49: 188..189,
    // TypeWord = 'datatype'
    49: 189..190,
    // TypeWord = 'assoc'
    49: 190..191,
    // TypeWord = 'behavior'
    49: 191..192,
    // Feat = 'feature' UseTail
    50: 192..194,
    // Feat = 'step' UseTail
    50: 194..196,
    // Feat = Plain
    50: 196..197,
    // FunBody = ';'
    51: 197..198,
    // FunBody = '{' ManyFunItem MaybeExpr '}'
    51: 198..202,
    // FunItem = MaybeVis OneImportAliasNote
    52: 202..204,
    // ManyMember = Member ManyMember
    53: 204..206,
    // ManyMember = nothing
    53: 206..206,
    // MaybeVis = Vis
    54: 206..207,
    // MaybeVis = nothing
    54: 207..207,
    // MaybeAll = 'all'
    55: 207..208,
    // MaybeAll = nothing
    55: 208..208,
    // MaybeDollarColonColon = '$' '::'
    56: 208..210,
    // MaybeDollarColonColon = nothing
    56: 210..210,
    // MaybeColonColonImpNext = '::' ImpNext
    57: 210..212,
    // MaybeColonColonImpNext = nothing
    57: 212..212,
    // MaybeColonColonStarStar = '::' '**'
    58: 212..214,
    // MaybeColonColonStarStar = nothing
    58: 214..214,
    // MaybeLessNameGreater = '<' NAME '>'
    59: 214..217,
    // MaybeLessNameGreater = nothing
    59: 217..217,
    // MaybeName = NAME
    60: 217..218,
    // MaybeName = nothing
    60: 218..218,
    // MaybeAboutQNameComma = 'about' QName ManyCommaQName
    61: 218..221,
    // MaybeAboutQNameComma = nothing
    61: 221..221,
    // ManyCommaQName = ',' QName ManyCommaQName
    62: 221..224,
    // ManyCommaQName = nothing
    62: 224..224,
    // MaybeLocaleString = 'locale' STRING
    63: 224..226,
    // MaybeLocaleString = nothing
    63: 226..226,
    // MaybeStandard = 'standard'
    64: 226..227,
    // MaybeStandard = nothing
    64: 227..227,
    // ManyColonColonName = '::' NAME ManyColonColonName
    65: 227..230,
    // ManyColonColonName = nothing
    65: 230..230,
    // ManyDotName = '.' NAME ManyDotName
    66: 230..233,
    // ManyDotName = nothing
    66: 233..233,
    // MaybeColonGreaterQNameComma = OneColonGreaterSpecializes QName ManyCommaQName
    67: 233..236,
    // MaybeColonGreaterQNameComma = nothing
    67: 236..236,
    // OneColonGreaterSpecializes = ':>'
    68: 236..237,
    // OneColonGreaterSpecializes = 'specializes'
    68: 237..238,
    // ManySpec = Spec ManySpec
    69: 238..240,
    // ManySpec = nothing
    69: 240..240,
    // MaybeMultSpec = Mult ManySpec
    70: 240..242,
    // MaybeMultSpec = nothing
    70: 242..242,
    // OneColonGreaterSubsets = ':>'
    71: 242..243,
    // OneColonGreaterSubsets = 'subsets'
    71: 243..244,
    // ManyCommaChain = ',' Chain ManyCommaChain
    72: 244..247,
    // ManyCommaChain = nothing
    72: 247..247,
    // OneColonGreaterGreaterRedefines = ':>>'
    73: 247..248,
    // OneColonGreaterGreaterRedefines = 'redefines'
    73: 248..249,
    // OneColonColonGreaterReferences = '::>'
    74: 249..250,
    // OneColonColonGreaterReferences = 'references'
    74: 250..251,
    // MaybeOrder = Order
    75: 251..252,
    // MaybeOrder = nothing
    75: 252..252,
    // MaybeNonunique = 'nonunique'
    76: 252..253,
    // MaybeNonunique = nothing
    76: 253..253,
    // MaybeOrdered = 'ordered'
    77: 253..254,
    // MaybeOrdered = nothing
    77: 254..254,
    // MaybeDotDotStar = '..' OneStarBound
    78: 254..256,
    // MaybeDotDotStar = nothing
    78: 256..256,
    // OneStarBound = '*'
    79: 256..257,
    // OneStarBound = Bound
    79: 257..258,
    // MaybeEqualsExprDefault = OneEqualsExprDefault
    80: 258..259,
    // MaybeEqualsExprDefault = nothing
    80: 259..259,
    // OneEqualsExprDefault = '=' Expr
    81: 259..261,
    // OneEqualsExprDefault = 'default' MaybeEquals Expr
    81: 261..264,
    // MaybeEquals = '='
    82: 264..265,
    // MaybeEquals = nothing
    82: 265..265,
    // ManyImpliesOr = 'implies' Or ManyImpliesOr
    83: 265..268,
    // ManyImpliesOr = nothing
    83: 268..268,
    // ManyOrXor = OneOrBar Xor ManyOrXor
    84: 268..271,
    // ManyOrXor = nothing
    84: 271..271,
    // OneOrBar = 'or'
    85: 271..272,
    // OneOrBar = '|'
    85: 272..273,
    // ManyXorAnd = 'xor' And ManyXorAnd
    86: 273..276,
    // ManyXorAnd = nothing
    86: 276..276,
    // ManyAndEq = OneAndAnd Eq ManyAndEq
    87: 276..279,
    // ManyAndEq = nothing
    87: 279..279,
    // OneAndAnd = 'and'
    88: 279..280,
    // OneAndAnd = '&'
    88: 280..281,
    // ManyEqualsEqualsRel = OneEqualsEqualsNotEquals Rel ManyEqualsEqualsRel
    89: 281..284,
    // ManyEqualsEqualsRel = nothing
    89: 284..284,
    // OneEqualsEqualsNotEquals = '=='
    90: 284..285,
    // OneEqualsEqualsNotEquals = '!='
    90: 285..286,
    // ManyLessSum = OneLessGreaterLessEquals Sum ManyLessSum
    91: 286..289,
    // ManyLessSum = nothing
    91: 289..289,
    // OneLessGreaterLessEquals = '<'
    92: 289..290,
    // OneLessGreaterLessEquals = '>'
    92: 290..291,
    // OneLessGreaterLessEquals = '<='
    92: 291..292,
    // OneLessGreaterLessEquals = '>='
    92: 292..293,
    // ManyPlusTerm = OnePlusMinus Term ManyPlusTerm
    93: 293..296,
    // ManyPlusTerm = nothing
    93: 296..296,
    // OnePlusMinus = '+'
    94: 296..297,
    // OnePlusMinus = '-'
    94: 297..298,
    // ManyStarUnary = OneStarSlashPercent Unary ManyStarUnary
    95: 298..301,
    // ManyStarUnary = nothing
    95: 301..301,
    // OneStarSlashPercent = '*'
    96: 301..302,
    // OneStarSlashPercent = '/'
    96: 302..303,
    // OneStarSlashPercent = '%'
    96: 303..304,
    // OneMinusPlusNot = '-'
    97: 304..305,
    // OneMinusPlusNot = '+'
    97: 305..306,
    // OneMinusPlusNot = 'not'
    97: 306..307,
    // MaybeDerived = 'derived'
    98: 307..308,
    // MaybeDerived = nothing
    98: 308..308,
    // MaybeAbstract = 'abstract'
    99: 308..309,
    // MaybeAbstract = nothing
    99: 309..309,
    // MaybeComposite = 'composite'
    100: 309..310,
    // MaybeComposite = nothing
    100: 310..310,
    // MaybeConst = 'const'
    101: 310..311,
    // MaybeConst = nothing
    101: 311..311,
    // MaybeEnd = 'end'
    102: 311..312,
    // MaybeEnd = nothing
    102: 312..312,
    // ManyFunItem = FunItem ManyFunItem
    103: 312..314,
    // ManyFunItem = nothing
    103: 314..314,
    // MaybeExpr = Expr
    104: 314..315,
    // MaybeExpr = nothing
    104: 315..315,
    // OneImportAliasNote = Import
    105: 315..316,
    // OneImportAliasNote = Alias
    105: 316..317,
    // OneImportAliasNote = Note
    105: 317..318,
    // OneImportAliasNote = Pack
    105: 318..319,
    // OneImportAliasNote = 'namespace' Ident Body
    105: 319..322,
    // OneImportAliasNote = Dir K1
    105: 322..324,
    // OneImportAliasNote = 'derived' K2
    105: 324..326,
    // OneImportAliasNote = 'abstract' KLate
    105: 326..328,
    // OneImportAliasNote = 'composite' K4
    105: 328..330,
    // OneImportAliasNote = 'const' K5
    105: 330..332,
    // OneImportAliasNote = 'end' Feat
    105: 332..334,
    // OneImportAliasNote = TypeDecl
    105: 334..335,
    // OneImportAliasNote = 'feature' UseTail
    105: 335..337,
    // OneImportAliasNote = 'step' UseTail
    105: 337..339,
    // OneImportAliasNote = NoName
    105: 339..340,
    // OneImportAliasNote = 'return' Feat
    105: 340..342,
};
