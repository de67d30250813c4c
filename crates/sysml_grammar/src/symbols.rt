//! Made by `tools/make_table.py`: change tools/grammars, not this file.

use ll_core::Symbol;

macro_rules! symbols {
    ($($sort:ident $number:literal,)*) => { [$(Symbol::$sort($number)),*] };
}

/// The right sides of all productions, one after another.
pub static SYMBOLS: [Symbol; 456] = symbols! {
    // File = ManyMember
    Inner 68,
    // Member = MaybeVis Content
    Inner 69, Inner 40,
    // Vis = 'public'
    Terminal 351,
    // Vis = 'protected'
    Terminal 350,
    // Vis = 'private'
    Terminal 349,
    // Import = 'import' MaybeAll MaybeDollarColonColon NAME ImpRest ';'
    Terminal 317, Inner 70, Inner 71, Terminal 0, Inner 4, Terminal 12,
    // ImpRest = MaybeColonColonImpNext
    Inner 72,
    // ImpNext = NAME ImpRest
    Terminal 0, Inner 4,
    // ImpNext = '*' MaybeColonColonStarStar
    Terminal 30, Inner 73,
    // ImpNext = '**'
    Terminal 31,
    // Alias = 'alias' Ident 'for' QName ';'
    Terminal 266, Inner 7, Terminal 310, Inner 12, Terminal 12,
    // Ident = MaybeLessNameGreater MaybeName
    Inner 74, Inner 75,
    // Note = 'doc' Ident Locale COMMENT
    Terminal 297, Inner 7, Inner 9, Terminal 3,
    // Note = 'comment' Ident MaybeAboutQNameComma Locale COMMENT
    Terminal 283, Inner 7, Inner 76, Inner 9, Terminal 3,
    // Note = 'locale' STRING COMMENT
    Terminal 328, Terminal 2, Terminal 3,
    // Note = COMMENT
    Terminal 3,
    // Locale = MaybeLocaleString
    Inner 78,
    // Pack = MaybeStandard 'library' 'package' Ident Body
    Inner 79, Terminal 327, Terminal 344, Inner 7, Inner 11,
    // Pack = 'package' Ident Body
    Terminal 344, Inner 7, Inner 11,
    // Body = ';'
    Terminal 12,
    // Body = '{' ManyMember '}'
    Terminal 4, Inner 68, Terminal 5,
    // QName = MaybeDollarColonColon NAME ManyColonColonName
    Inner 71, Terminal 0, Inner 80,
    // Chain = QName ManyDotName
    Inner 12, Inner 81,
    // Dir = 'in'
    Terminal 318,
    // Dir = 'out'
    Terminal 343,
    // Dir = 'inout'
    Terminal 321,
    // Sub = MaybeColonGreaterQNameComma
    Inner 82,
    // SpecPart = ManySpec MaybeMultSpec
    Inner 84, Inner 85,
    // Spec = TypedBy QName ManyCommaQName
    Inner 39, Inner 12, Inner 77,
    // Spec = OneColonGreaterSubsets Chain ManyCommaChain
    Inner 86, Inner 13, Inner 87,
    // Spec = OneColonGreaterGreaterRedefines QName ManyCommaQName
    Inner 88, Inner 12, Inner 77,
    // Spec = OneColonColonGreaterReferences Chain
    Inner 89, Inner 13,
    // Mult = '[' Bounds ']' MaybeOrder
    Terminal 6, Inner 20, Terminal 7, Inner 90,
    // Mult = Order
    Inner 19,
    // Order = 'ordered' MaybeNonunique
    Terminal 342, Inner 91,
    // Order = 'nonunique' MaybeOrdered
    Terminal 335, Inner 92,
    // Bounds = '*'
    Terminal 30,
    // Bounds = Bound MaybeDotDotStar
    Inner 21, Inner 93,
    // Bound = INT
    Terminal 1,
    // Bound = QName
    Inner 12,
    // Value = MaybeEqualsExprDefault
    Inner 95,
    // UseHead = Ident SpecPart
    Inner 7, Inner 16,
    // UseTail = UseHead Value Body
    Inner 23, Inner 22, Inner 11,
    // Plain = NAME RefTail
    Terminal 0, Inner 27,
    // Plain = NoName
    Inner 26,
    // NoName = '<' NAME '>' MaybeName RefTail
    Terminal 10, Terminal 0, Terminal 11, Inner 75, Inner 27,
    // NoName = Spec RefTail
    Inner 17, Inner 27,
    // RefTail = SpecPart Value Body
    Inner 16, Inner 22, Inner 11,
    // Expr = 'if' Expr '?' Expr 'else' Expr
    Terminal 315, Inner 28, Terminal 42, Inner 28, Terminal 298, Inner 28,
    // Expr = Imp
    Inner 29,
    // Imp = Or ManyImpliesOr
    Inner 30, Inner 98,
    // Or = Xor ManyOrXor
    Inner 31, Inner 99,
    // Xor = And ManyXorAnd
    Inner 32, Inner 101,
    // And = Eq ManyAndEq
    Inner 33, Inner 102,
    // Eq = Rel ManyEqualsEqualsRel
    Inner 34, Inner 104,
    // Rel = Sum ManyLessSum
    Inner 35, Inner 106,
    // Sum = Term ManyPlusTerm
    Inner 36, Inner 108,
    // Term = Unary ManyStarUnary
    Inner 37, Inner 110,
    // Unary = OneMinusPlusNot Unary
    Inner 112, Inner 37,
    // Unary = Prim
    Inner 38,
    // Prim = INT
    Terminal 1,
    // Prim = STRING
    Terminal 2,
    // Prim = 'true'
    Terminal 376,
    // Prim = 'false'
    Terminal 306,
    // Prim = 'null'
    Terminal 337,
    // Prim = Chain
    Inner 13,
    // Prim = '(' Expr ')'
    Terminal 8, Inner 28, Terminal 9,
    // TypedBy = ':'
    Terminal 16,
    // TypedBy = 'defined' 'by'
    Terminal 293, Terminal 280,
    // Content = Import
    Inner 3,
    // Content = Alias
    Inner 6,
    // Content = Note
    Inner 8,
    // Content = Pack
    Inner 10,
    // Content = Thing
    Inner 41,
    // Thing = 'end' P1
    Terminal 299, Inner 42,
    // Thing = Dir P2
    Inner 14, Inner 43,
    // Thing = 'derived' P3
    Terminal 295, Inner 44,
    // Thing = 'abstract' Late
    Terminal 261, Inner 47,
    // Thing = Late
    Inner 47,
    // Thing = Connect
    Inner 62,
    // Thing = Bind
    Inner 64,
    // P1 = MaybeDir P2
    Inner 113, Inner 43,
    // P2 = MaybeDerived P3
    Inner 114, Inner 44,
    // P3 = MaybeAbstract P4
    Inner 115, Inner 45,
    // P4 = MaybeConstant P5
    Inner 116, Inner 46,
    // P5 = MaybeRef Usage
    Inner 117, Inner 49,
    // Late = 'constant' P5
    Terminal 287, Inner 46,
    // Late = 'ref' Usage
    Terminal 353, Inner 49,
    // Late = DefUse
    Inner 50,
    // Late = Plain
    Inner 25,
    // Simple = 'attribute'
    Terminal 277,
    // Simple = 'occurrence'
    Terminal 339,
    // Simple = 'item'
    Terminal 324,
    // Simple = 'part'
    Terminal 346,
    // Simple = 'port'
    Terminal 348,
    // Simple = 'action'
    Terminal 263,
    // Usage = Simple UseTail
    Inner 48, Inner 24,
    // Usage = 'enum' UseTail
    Terminal 301, Inner 24,
    // Usage = OneConnectionInterface ConTail
    Inner 118, Inner 52,
    // Usage = OneCalcConstraint CalcTail
    Inner 119, Inner 53,
    // Usage = 'requirement' ReqTail
    Terminal 359, Inner 54,
    // Usage = Plain
    Inner 25,
    // DefUse = Simple OneDefDefHeadBody
    Inner 48, Inner 120,
    // DefUse = 'enum' OneDefDefHeadEnumBody
    Terminal 301, Inner 121,
    // DefUse = OneConnectionInterface OneDefDefHeadBody2
    Inner 118, Inner 122,
    // DefUse = OneCalcConstraint OneDefDefHeadCalcBody
    Inner 119, Inner 123,
    // DefUse = 'requirement' OneDefDefHeadReqBody
    Terminal 359, Inner 124,
    // DefHead = Ident Sub
    Inner 7, Inner 15,
    // ConTail = UseHead Value MaybeConnectEnds Body
    Inner 23, Inner 22, Inner 125, Inner 11,
    // CalcTail = UseHead Value CalcBody
    Inner 23, Inner 22, Inner 57,
    // ReqTail = UseHead Value ReqBody
    Inner 23, Inner 22, Inner 59,
    // EnumBody = ';'
    Terminal 12,
    // EnumBody = '{' ManyEnumItem '}'
    Terminal 4, Inner 126, Terminal 5,
    // EnumItem = MaybeVis OneNoteEnumUseTail
    Inner 69, Inner 127,
    // CalcBody = ';'
    Terminal 12,
    // CalcBody = '{' ManyCalcItem MaybeExpr '}'
    Terminal 4, Inner 128, Inner 129, Terminal 5,
    // CalcItem = MaybeVis OneImportAliasNote
    Inner 69, Inner 130,
    // ReqBody = ';'
    Terminal 12,
    // ReqBody = '{' ManyReqItem '}'
    Terminal 4, Inner 131, Terminal 5,
    // ReqItem = MaybeVis OneContentSubjectUseTail
    Inner 69, Inner 132,
    // ReqCon = 'constraint' CalcTail
    Terminal 288, Inner 53,
    // ReqCon = Chain SpecPart CalcBody
    Inner 13, Inner 16, Inner 57,
    // Connect = 'connect' Ends Body
    Terminal 285, Inner 63, Inner 11,
    // Ends = End 'to' End
    Inner 65, Terminal 374, Inner 65,
    // Ends = '(' End ',' End ManyCommaEnd ')'
    Terminal 8, Inner 65, Terminal 13, Inner 65, Inner 134, Terminal 9,
    // Bind = 'bind' End '=' End Body
    Terminal 278, Inner 65, Terminal 21, Inner 65, Inner 11,
    // Bind = 'binding' UseHead 'bind' End '=' End Body
    Terminal 279, Inner 23, Terminal 278, Inner 65, Terminal 21, Inner 65, Inner 11,
    // End = MaybeBracketBoundsBracket EndName
    Inner 135, Inner 66,
    // EndName = NAME EndRest
    Terminal 0, Inner 67,
    // EndName = '$' '::' NAME ManyColonColonName ManyDotName
    Terminal 41, Terminal 17, Terminal 0, Inner 80, Inner 81,
    // EndRest = OneColonColonGreaterReferences Chain
    Inner 89, Inner 13,
    // EndRest = ManyColonColonName ManyDotName
    Inner 80, Inner 81,
    // ManyMember = Member ManyMember
    Inner 1, Inner 68,
    // MaybeVis = Vis
    Inner 2,
    // MaybeAll = 'all'
    Terminal 267,
    // MaybeDollarColonColon = '$' '::'
    Terminal 41, Terminal 17,
    // MaybeColonColonImpNext = '::' ImpNext
    Terminal 17, Inner 5,
    // MaybeColonColonStarStar = '::' '**'
    Terminal 17, Terminal 31,
    // MaybeLessNameGreater = '<' NAME '>'
    Terminal 10, Terminal 0, Terminal 11,
    // MaybeName = NAME
    Terminal 0,
    // MaybeAboutQNameComma = 'about' QName ManyCommaQName
    Terminal 260, Inner 12, Inner 77,
    // ManyCommaQName = ',' QName ManyCommaQName
    Terminal 13, Inner 12, Inner 77,
    // MaybeLocaleString = 'locale' STRING
    Terminal 328, Terminal 2,
    // MaybeStandard = 'standard'
    Terminal 366,
    // ManyColonColonName = '::' NAME ManyColonColonName
    Terminal 17, Terminal 0, Inner 80,
    // ManyDotName = '.' NAME ManyDotName
    Terminal 14, Terminal 0, Inner 81,
    // MaybeColonGreaterQNameComma = OneColonGreaterSpecializes QName ManyCommaQName
    Inner 83, Inner 12, Inner 77,
    // OneColonGreaterSpecializes = ':>'
    Terminal 18,
    // OneColonGreaterSpecializes = 'specializes'
    Terminal 364,
    // ManySpec = Spec ManySpec
    Inner 17, Inner 84,
    // MaybeMultSpec = Mult ManySpec
    Inner 18, Inner 84,
    // OneColonGreaterSubsets = ':>'
    Terminal 18,
    // OneColonGreaterSubsets = 'subsets'
    Terminal 369,
    // ManyCommaChain = ',' Chain ManyCommaChain
    Terminal 13, Inner 13, Inner 87,
    // OneColonGreaterGreaterRedefines = ':>>'
    Terminal 19,
    // OneColonGreaterGreaterRedefines = 'redefines'
    Terminal 352,
    // OneColonColonGreaterReferences = '::>'
    Terminal 20,
    // OneColonColonGreaterReferences = 'references'
    Terminal 354,
    // MaybeOrder = Order
    Inner 19,
    // MaybeNonunique = 'nonunique'
    Terminal 335,
    // MaybeOrdered = 'ordered'
    Terminal 342,
    // MaybeDotDotStar = '..' OneStarBound
    Terminal 15, Inner 94,
    // OneStarBound = '*'
    Terminal 30,
    // OneStarBound = Bound
    Inner 21,
    // MaybeEqualsExprDefault = OneEqualsExprDefault
    Inner 96,
    // OneEqualsExprDefault = '=' Expr
    Terminal 21, Inner 28,
    // OneEqualsExprDefault = 'default' MaybeEquals Expr
    Terminal 292, Inner 97, Inner 28,
    // MaybeEquals = '='
    Terminal 21,
    // ManyImpliesOr = 'implies' Or ManyImpliesOr
    Terminal 316, Inner 30, Inner 98,
    // ManyOrXor = OneOrBar Xor ManyOrXor
    Inner 100, Inner 31, Inner 99,
    // OneOrBar = 'or'
    Terminal 341,
    // OneOrBar = '|'
    Terminal 35,
    // ManyXorAnd = 'xor' And ManyXorAnd
    Terminal 388, Inner 32, Inner 101,
    // ManyAndEq = OneAndAnd Eq ManyAndEq
    Inner 103, Inner 33, Inner 102,
    // OneAndAnd = 'and'
    Terminal 271,
    // OneAndAnd = '&'
    Terminal 34,
    // ManyEqualsEqualsRel = OneEqualsEqualsNotEquals Rel ManyEqualsEqualsRel
    Inner 105, Inner 34, Inner 104,
    // OneEqualsEqualsNotEquals = '=='
    Terminal 22,
    // OneEqualsEqualsNotEquals = '!='
    Terminal 23,
    // ManyLessSum = OneLessGreaterLessEquals Sum ManyLessSum
    Inner 107, Inner 35, Inner 106,
    // OneLessGreaterLessEquals = '<'
    Terminal 10,
    // OneLessGreaterLessEquals = '>'
    Terminal 11,
    // OneLessGreaterLessEquals = '<='
    Terminal 26,
    // OneLessGreaterLessEquals = '>='
    Terminal 27,
    // ManyPlusTerm = OnePlusMinus Term ManyPlusTerm
    Inner 109, Inner 36, Inner 108,
    // OnePlusMinus = '+'
    Terminal 28,
    // OnePlusMinus = '-'
    Terminal 29,
    // ManyStarUnary = OneStarSlashPercent Unary ManyStarUnary
    Inner 111, Inner 37, Inner 110,
    // OneStarSlashPercent = '*'
    Terminal 30,
    // OneStarSlashPercent = '/'
    Terminal 32,
    // OneStarSlashPercent = '%'
    Terminal 33,
    // OneMinusPlusNot = '-'
    Terminal 29,
    // OneMinusPlusNot = '+'
    Terminal 28,
    // OneMinusPlusNot = 'not'
    Terminal 336,
    // MaybeDir = Dir
    Inner 14,
    // MaybeDerived = 'derived'
    Terminal 295,
    // MaybeAbstract = 'abstract'
    Terminal 261,
    // MaybeConstant = 'constant'
    Terminal 287,
    // MaybeRef = 'ref'
    Terminal 353,
    // OneConnectionInterface = 'connection'
    Terminal 286,
    // OneConnectionInterface = 'interface'
    Terminal 322,
    // OneCalcConstraint = 'calc'
    Terminal 281,
    // OneCalcConstraint = 'constraint'
    Terminal 288,
    // OneDefDefHeadBody = 'def' DefHead Body
    Terminal 291, Inner 51, Inner 11,
    // OneDefDefHeadBody = UseTail
    Inner 24,
    // OneDefDefHeadEnumBody = 'def' DefHead EnumBody
    Terminal 291, Inner 51, Inner 55,
    // OneDefDefHeadEnumBody = UseTail
    Inner 24,
    // OneDefDefHeadBody2 = 'def' DefHead Body
    Terminal 291, Inner 51, Inner 11,
    // OneDefDefHeadBody2 = ConTail
    Inner 52,
    // OneDefDefHeadCalcBody = 'def' DefHead CalcBody
    Terminal 291, Inner 51, Inner 57,
    // OneDefDefHeadCalcBody = CalcTail
    Inner 53,
    // OneDefDefHeadReqBody = 'def' DefHead ReqBody
    Terminal 291, Inner 51, Inner 59,
    // OneDefDefHeadReqBody = ReqTail
    Inner 54,
    // MaybeConnectEnds = 'connect' Ends
    Terminal 285, Inner 63,
    // ManyEnumItem = EnumItem ManyEnumItem
    Inner 56, Inner 126,
    // OneNoteEnumUseTail = Note
    Inner 8,
    // OneNoteEnumUseTail = 'enum' UseTail
    Terminal 301, Inner 24,
    // OneNoteEnumUseTail = Plain
    Inner 25,
    // ManyCalcItem = CalcItem ManyCalcItem
    Inner 58, Inner 128,
    // MaybeExpr = Expr
    Inner 28,
    // OneImportAliasNote = Import
    Inner 3,
    // OneImportAliasNote = Alias
    Inner 6,
    // OneImportAliasNote = Note
    Inner 8,
    // OneImportAliasNote = Pack
    Inner 10,
    // OneImportAliasNote = 'end' P1
    Terminal 299, Inner 42,
    // OneImportAliasNote = Dir P2
    Inner 14, Inner 43,
    // OneImportAliasNote = 'derived' P3
    Terminal 295, Inner 44,
    // OneImportAliasNote = 'abstract' Late
    Terminal 261, Inner 47,
    // OneImportAliasNote = 'constant' P5
    Terminal 287, Inner 46,
    // OneImportAliasNote = 'ref' Usage
    Terminal 353, Inner 49,
    // OneImportAliasNote = DefUse
    Inner 50,
    // OneImportAliasNote = NoName
    Inner 26,
    // OneImportAliasNote = Connect
    Inner 62,
    // OneImportAliasNote = Bind
    Inner 64,
    // OneImportAliasNote = 'return' P5
    Terminal 360, Inner 46,
    // ManyReqItem = ReqItem ManyReqItem
    Inner 60, Inner 131,
    // OneContentSubjectUseTail = Content
    Inner 40,
    // OneContentSubjectUseTail = 'subject' UseTail
    Terminal 368, Inner 24,
    // OneContentSubjectUseTail = OneAssumeRequire ReqCon
    Inner 133, Inner 61,
    // OneAssumeRequire = 'assume'
    Terminal 275,
    // OneAssumeRequire = 'require'
    Terminal 358,
    // ManyCommaEnd = ',' End ManyCommaEnd
    Terminal 13, Inner 65, Inner 134,
    // MaybeBracketBoundsBracket = '[' Bounds ']'
    Terminal 6, Inner 20, Terminal 7,
};
