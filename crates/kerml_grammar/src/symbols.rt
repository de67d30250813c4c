//! Made by `tools/make_table.py`: change tools/grammars, not this file.

use ll_core::Symbol;

macro_rules! symbols {
    ($($sort:ident $number:literal,)*) => { [$(Symbol::$sort($number)),*] };
}

/// The right sides of all productions, one after another.
pub static SYMBOLS: [Symbol; 342] = symbols! {
    // File = ManyMember
    Inner 53,
    // Member = MaybeVis Content
    Inner 54, Inner 40,
    // Vis = 'public'
    Terminal 337,
    // Vis = 'protected'
    Terminal 336,
    // Vis = 'private'
    Terminal 335,
    // Import = 'import' MaybeAll MaybeDollarColonColon NAME ImpRest ';'
    Terminal 306, Inner 55, Inner 56, Terminal 0, Inner 4, Terminal 12,
    // ImpRest = MaybeColonColonImpNext
    Inner 57,
    // ImpNext = NAME ImpRest
    Terminal 0, Inner 4,
    // ImpNext = '*' MaybeColonColonStarStar
    Terminal 30, Inner 58,
    // ImpNext = '**'
    Terminal 31,
    // Alias = 'alias' Ident 'for' QName ';'
    Terminal 262, Inner 7, Terminal 300, Inner 12, Terminal 12,
    // Ident = MaybeLessNameGreater MaybeName
    Inner 59, Inner 60,
    // Note = 'doc' Ident Locale COMMENT
    Terminal 289, Inner 7, Inner 9, Terminal 3,
    // Note = 'comment' Ident MaybeAboutQNameComma Locale COMMENT
    Terminal 274, Inner 7, Inner 61, Inner 9, Terminal 3,
    // Note = 'locale' STRING COMMENT
    Terminal 317, Terminal 2, Terminal 3,
    // Note = COMMENT
    Terminal 3,
    // Locale = MaybeLocaleString
    Inner 63,
    // Pack = MaybeStandard 'library' 'package' Ident Body
    Inner 64, Terminal 316, Terminal 332, Inner 7, Inner 11,
    // Pack = 'package' Ident Body
    Terminal 332, Inner 7, Inner 11,
    // Body = ';'
    Terminal 12,
    // Body = '{' ManyMember '}'
    Terminal 4, Inner 53, Terminal 5,
    // QName = MaybeDollarColonColon NAME ManyColonColonName
    Inner 56, Terminal 0, Inner 65,
    // Chain = QName ManyDotName
    Inner 12, Inner 66,
    // Dir = 'in'
    Terminal 307,
    // Dir = 'out'
    Terminal 331,
    // Dir = 'inout'
    Terminal 308,
    // Sub = MaybeColonGreaterQNameComma
    Inner 67,
    // SpecPart = ManySpec MaybeMultSpec
    Inner 69, Inner 70,
    // Spec = TypedBy QName ManyCommaQName
    Inner 39, Inner 12, Inner 62,
    // Spec = OneColonGreaterSubsets Chain ManyCommaChain
    Inner 71, Inner 13, Inner 72,
    // Spec = OneColonGreaterGreaterRedefines QName ManyCommaQName
    Inner 73, Inner 12, Inner 62,
    // Spec = OneColonColonGreaterReferences Chain
    Inner 74, Inner 13,
    // Mult = '[' Bounds ']' MaybeOrder
    Terminal 6, Inner 20, Terminal 7, Inner 75,
    // Mult = Order
    Inner 19,
    // Order = 'ordered' MaybeNonunique
    Terminal 330, Inner 76,
    // Order = 'nonunique' MaybeOrdered
    Terminal 325, Inner 77,
    // Bounds = '*'
    Terminal 30,
    // Bounds = Bound MaybeDotDotStar
    Inner 21, Inner 78,
    // Bound = INT
    Terminal 1,
    // Bound = QName
    Inner 12,
    // Value = MaybeEqualsExprDefault
    Inner 80,
    // UseHead = Ident SpecPart
    Inner 7, Inner 16,
    // UseTail = UseHead Value Body
    Inner 23, Inner 22, Inner 11,
    // Plain = NAME RefTail
    Terminal 0, Inner 27,
    // Plain = NoName
    Inner 26,
    // NoName = '<' NAME '>' MaybeName RefTail
    Terminal 10, Terminal 0, Terminal 11, Inner 60, Inner 27,
    // NoName = Spec RefTail
    Inner 17, Inner 27,
    // RefTail = SpecPart Value Body
    Inner 16, Inner 22, Inner 11,
    // Expr = 'if' Expr '?' Expr 'else' Expr
    Terminal 304, Inner 28, Terminal 42, Inner 28, Terminal 290, Inner 28,
    // Expr = Imp
    Inner 29,
    // Imp = Or ManyImpliesOr
    Inner 30, Inner 83,
    // Or = Xor ManyOrXor
    Inner 31, Inner 84,
    // Xor = And ManyXorAnd
    Inner 32, Inner 86,
    // And = Eq ManyAndEq
    Inner 33, Inner 87,
    // Eq = Rel ManyEqualsEqualsRel
    Inner 34, Inner 89,
    // Rel = Sum ManyLessSum
    Inner 35, Inner 91,
    // Sum = Term ManyPlusTerm
    Inner 36, Inner 93,
    // Term = Unary ManyStarUnary
    Inner 37, Inner 95,
    // Unary = OneMinusPlusNot Unary
    Inner 97, Inner 37,
    // Unary = Prim
    Inner 38,
    // Prim = INT
    Terminal 1,
    // Prim = STRING
    Terminal 2,
    // Prim = 'true'
    Terminal 355,
    // Prim = 'false'
    Terminal 293,
    // Prim = 'null'
    Terminal 327,
    // Prim = Chain
    Inner 13,
    // Prim = '(' Expr ')'
    Terminal 8, Inner 28, Terminal 9,
    // TypedBy = ':'
    Terminal 16,
    // TypedBy = 'typed' 'by'
    Terminal 357, Terminal 270,
    // Content = Import
    Inner 3,
    // Content = Alias
    Inner 6,
    // Content = Note
    Inner 8,
    // Content = Pack
    Inner 10,
    // Content = 'namespace' Ident Body
    Terminal 323, Inner 7, Inner 11,
    // Content = Thing
    Inner 41,
    // Thing = Dir K1
    Inner 14, Inner 42,
    // Thing = 'derived' K2
    Terminal 285, Inner 43,
    // Thing = 'abstract' KLate
    Terminal 261, Inner 47,
    // Thing = KLate
    Inner 47,
    // K1 = MaybeDerived K2
    Inner 98, Inner 43,
    // K2 = MaybeAbstract K3
    Inner 99, Inner 44,
    // K3 = MaybeComposite K4
    Inner 100, Inner 45,
    // K4 = MaybeConst K5
    Inner 101, Inner 46,
    // K5 = MaybeEnd Feat
    Inner 102, Inner 50,
    // KLate = 'composite' K4
    Terminal 275, Inner 45,
    // KLate = 'const' K5
    Terminal 280, Inner 46,
    // KLate = 'end' Feat
    Terminal 291, Inner 50,
    // KLate = TypeDecl
    Inner 48,
    // KLate = Feat
    Inner 50,
    // TypeDecl = TypeWord Ident Sub Body
    Inner 49, Inner 7, Inner 15, Inner 11,
    // TypeDecl = 'function' Ident Sub FunBody
    Terminal 302, Inner 7, Inner 15, Inner 51,
    // TypeWord = 'type'
    Terminal 356,
    // TypeWord = 'classifier'
    Terminal 273,
    // TypeWord = 'class'
    Terminal 272,
    // TypeWord = 'struct'
    Terminal 347,
    // TypeWord = 'datatype'
    Terminal 282,
    // TypeWord = 'assoc'
    Terminal 266,
    // TypeWord = 'behavior'
    Terminal 267,
    // Feat = 'feature' UseTail
    Terminal 294, Inner 24,
    // Feat = 'step' UseTail
    Terminal 346, Inner 24,
    // Feat = Plain
    Inner 25,
    // FunBody = ';'
    Terminal 12,
    // FunBody = '{' ManyFunItem MaybeExpr '}'
    Terminal 4, Inner 103, Inner 104, Terminal 5,
    // FunItem = MaybeVis OneImportAliasNote
    Inner 54, Inner 105,
    // ManyMember = Member ManyMember
    Inner 1, Inner 53,
    // MaybeVis = Vis
    Inner 2,
    // MaybeAll = 'all'
    Terminal 263,
    // MaybeDollarColonColon = '$' '::'
    Terminal 41, Terminal 17,
    // MaybeColonColonImpNext = '::' ImpNext
    Terminal 17, Inner 5,
    // MaybeColonColonStarStar = '::' '**'
    Terminal 17, Terminal 31,
    // MaybeLessNameGreater = '<' NAME '>'
    Terminal 10, Terminal 0, Terminal 11,
    // MaybeName = NAME
    Terminal 0,
    // MaybeAboutQNameComma = 'about' QName ManyCommaQName
    Terminal 260, Inner 12, Inner 62,
    // ManyCommaQName = ',' QName ManyCommaQName
    Terminal 13, Inner 12, Inner 62,
    // MaybeLocaleString = 'locale' STRING
    Terminal 317, Terminal 2,
    // MaybeStandard = 'standard'
    Terminal 345,
    // ManyColonColonName = '::' NAME ManyColonColonName
    Terminal 17, Terminal 0, Inner 65,
    // ManyDotName = '.' NAME ManyDotName
    Terminal 14, Terminal 0, Inner 66,
    // MaybeColonGreaterQNameComma = OneColonGreaterSpecializes QName ManyCommaQName
    Inner 68, Inner 12, Inner 62,
    // OneColonGreaterSpecializes = ':>'
    Terminal 18,
    // OneColonGreaterSpecializes = 'specializes'
    Terminal 344,
    // ManySpec = Spec ManySpec
    Inner 17, Inner 69,
    // MaybeMultSpec = Mult ManySpec
    Inner 18, Inner 69,
    // OneColonGreaterSubsets = ':>'
    Terminal 18,
    // OneColonGreaterSubsets = 'subsets'
    Terminal 350,
    // ManyCommaChain = ',' Chain ManyCommaChain
    Terminal 13, Inner 13, Inner 72,
    // OneColonGreaterGreaterRedefines = ':>>'
    Terminal 19,
    // OneColonGreaterGreaterRedefines = 'redefines'
    Terminal 338,
    // OneColonColonGreaterReferences = '::>'
    Terminal 20,
    // OneColonColonGreaterReferences = 'references'
    Terminal 340,
    // MaybeOrder = Order
    Inner 19,
    // MaybeNonunique = 'nonunique'
    Terminal 325,
    // MaybeOrdered = 'ordered'
    Terminal 330,
    // MaybeDotDotStar = '..' OneStarBound
    Terminal 15, Inner 79,
    // OneStarBound = '*'
    Terminal 30,
    // OneStarBound = Bound
    Inner 21,
    // MaybeEqualsExprDefault = OneEqualsExprDefault
    Inner 81,
    // OneEqualsExprDefault = '=' Expr
    Terminal 21, Inner 28,
    // OneEqualsExprDefault = 'default' MaybeEquals Expr
    Terminal 283, Inner 82, Inner 28,
    // MaybeEquals = '='
    Terminal 21,
    // ManyImpliesOr = 'implies' Or ManyImpliesOr
    Terminal 305, Inner 30, Inner 83,
    // ManyOrXor = OneOrBar Xor ManyOrXor
    Inner 85, Inner 31, Inner 84,
    // OneOrBar = 'or'
    Terminal 329,
    // OneOrBar = '|'
    Terminal 35,
    // ManyXorAnd = 'xor' And ManyXorAnd
    Terminal 361, Inner 32, Inner 86,
    // ManyAndEq = OneAndAnd Eq ManyAndEq
    Inner 88, Inner 33, Inner 87,
    // OneAndAnd = 'and'
    Terminal 264,
    // OneAndAnd = '&'
    Terminal 34,
    // ManyEqualsEqualsRel = OneEqualsEqualsNotEquals Rel ManyEqualsEqualsRel
    Inner 90, Inner 34, Inner 89,
    // OneEqualsEqualsNotEquals = '=='
    Terminal 22,
    // OneEqualsEqualsNotEquals = '!='
    Terminal 23,
    // ManyLessSum = OneLessGreaterLessEquals Sum ManyLessSum
    Inner 92, Inner 35, Inner 91,
    // OneLessGreaterLessEquals = '<'
    Terminal 10,
    // OneLessGreaterLessEquals = '>'
    Terminal 11,
    // OneLessGreaterLessEquals = '<='
    Terminal 26,
    // OneLessGreaterLessEquals = '>='
    Terminal 27,
    // ManyPlusTerm = OnePlusMinus Term ManyPlusTerm
    Inner 94, Inner 36, Inner 93,
    // OnePlusMinus = '+'
    Terminal 28,
    // OnePlusMinus = '-'
    Terminal 29,
    // ManyStarUnary = OneStarSlashPercent Unary ManyStarUnary
    Inner 96, Inner 37, Inner 95,
    // OneStarSlashPercent = '*'
    Terminal 30,
    // OneStarSlashPercent = '/'
    Terminal 32,
    // OneStarSlashPercent = '%'
    Terminal 33,
    // OneMinusPlusNot = '-'
    Terminal 29,
    // OneMinusPlusNot = '+'
    Terminal 28,
    // OneMinusPlusNot = 'not'
    Terminal 326,
    // MaybeDerived = 'derived'
    Terminal 285,
    // MaybeAbstract = 'abstract'
    Terminal 261,
    // MaybeComposite = 'composite'
    Terminal 275,
    // MaybeConst = 'const'
    Terminal 280,
    // MaybeEnd = 'end'
    Terminal 291,
    // ManyFunItem = FunItem ManyFunItem
    Inner 52, Inner 103,
    // MaybeExpr = Expr
    Inner 28,
    // OneImportAliasNote = Import
    Inner 3,
    // OneImportAliasNote = Alias
    Inner 6,
    // OneImportAliasNote = Note
    Inner 8,
    // OneImportAliasNote = Pack
    Inner 10,
    // OneImportAliasNote = 'namespace' Ident Body
    Terminal 323, Inner 7, Inner 11,
    // OneImportAliasNote = Dir K1
    Inner 14, Inner 42,
    // OneImportAliasNote = 'derived' K2
    Terminal 285, Inner 43,
    // OneImportAliasNote = 'abstract' KLate
    Terminal 261, Inner 47,
    // OneImportAliasNote = 'composite' K4
    Terminal 275, Inner 45,
    // OneImportAliasNote = 'const' K5
    Terminal 280, Inner 46,
    // OneImportAliasNote = 'end' Feat
    Terminal 291, Inner 50,
    // OneImportAliasNote = TypeDecl
    Inner 48,
    // OneImportAliasNote = 'feature' UseTail
    Terminal 294, Inner 24,
    // OneImportAliasNote = 'step' UseTail
    Terminal 346, Inner 24,
    // OneImportAliasNote = NoName
    Inner 26,
    // OneImportAliasNote = 'return' Feat
    Terminal 342, Inner 50,
};
