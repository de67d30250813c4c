//! Made by `tools/make_table.py`: change tools/grammars, not this file.
//! These are the numbers of the productions that mean something by themselves.

/// Import = 'import' MaybeAll MaybeDollarColonColon NAME ImpRest ';'
pub const IMPORT: u16 = 5;

/// ImpNext = NAME ImpRest
pub const IMP_NEXT_0: u16 = 7;

/// ImpNext = '*' MaybeColonColonStarStar
pub const IMP_NEXT_1: u16 = 8;

/// Alias = 'alias' Ident 'for' QName ';'
pub const ALIAS: u16 = 10;

/// Note = 'doc' Ident Locale COMMENT
pub const NOTE_0: u16 = 12;

/// Note = 'comment' Ident MaybeAboutQNameComma Locale COMMENT
pub const NOTE_1: u16 = 13;

/// Note = 'locale' STRING COMMENT
pub const NOTE_2: u16 = 14;

/// Note = COMMENT
pub const NOTE_3: u16 = 15;

/// Pack = MaybeStandard 'library' 'package' Ident Body
pub const PACK_0: u16 = 17;

/// Pack = 'package' Ident Body
pub const PACK_1: u16 = 18;

/// Spec = TypedBy QName ManyCommaQName
pub const SPEC_0: u16 = 28;

/// Spec = OneColonGreaterSubsets Chain ManyCommaChain
pub const SPEC_1: u16 = 29;

/// Spec = OneColonGreaterGreaterRedefines QName ManyCommaQName
pub const SPEC_2: u16 = 30;

/// Spec = OneColonColonGreaterReferences Chain
pub const SPEC_3: u16 = 31;

/// Mult = '[' Bounds ']' MaybeOrder
pub const MULT_0: u16 = 32;

/// Bounds = '*'
pub const BOUNDS_0: u16 = 36;

/// Plain = NAME RefTail
pub const PLAIN_0: u16 = 43;

/// NoName = '<' NAME '>' MaybeName RefTail
pub const NO_NAME_0: u16 = 45;

/// Expr = 'if' Expr '?' Expr 'else' Expr
pub const EXPR_0: u16 = 48;

/// Imp = Or ManyImpliesOr
pub const IMP: u16 = 50;

/// Or = Xor ManyOrXor
pub const OR: u16 = 51;

/// Xor = And ManyXorAnd
pub const XOR: u16 = 52;

/// And = Eq ManyAndEq
pub const AND: u16 = 53;

/// Eq = Rel ManyEqualsEqualsRel
pub const EQ: u16 = 54;

/// Rel = Sum ManyLessSum
pub const REL: u16 = 55;

/// Sum = Term ManyPlusTerm
pub const SUM: u16 = 56;

/// Term = Unary ManyStarUnary
pub const TERM: u16 = 57;

/// Unary = OneMinusPlusNot Unary
pub const UNARY_0: u16 = 58;

/// Content = 'namespace' Ident Body
pub const CONTENT_4: u16 = 73;

/// Thing = Dir K1
pub const THING_0: u16 = 75;

/// Thing = 'derived' K2
pub const THING_1: u16 = 76;

/// Thing = 'abstract' KLate
pub const THING_2: u16 = 77;

/// Thing = KLate
pub const THING_3: u16 = 78;

/// MaybeLessNameGreater = '<' NAME '>'
pub const MAYBE_LESS_NAME_GREATER_0: u16 = 116;

/// MaybeName = NAME
pub const MAYBE_NAME_0: u16 = 118;

/// ManyColonColonName = '::' NAME ManyColonColonName
pub const MANY_COLON_COLON_NAME_0: u16 = 128;

/// ManyDotName = '.' NAME ManyDotName
pub const MANY_DOT_NAME_0: u16 = 130;

/// MaybeColonGreaterQNameComma = OneColonGreaterSpecializes QName ManyCommaQName
pub const MAYBE_COLON_GREATER_QNAME_COMMA_0: u16 = 132;

/// OneStarBound = '*'
pub const ONE_STAR_BOUND_0: u16 = 156;

/// OneEqualsExprDefault = '=' Expr
pub const ONE_EQUALS_EXPR_DEFAULT_0: u16 = 160;

/// OneEqualsExprDefault = 'default' MaybeEquals Expr
pub const ONE_EQUALS_EXPR_DEFAULT_1: u16 = 161;

/// ManyImpliesOr = 'implies' Or ManyImpliesOr
pub const MANY_IMPLIES_OR_0: u16 = 164;

/// ManyImpliesOr = nothing
pub const MANY_IMPLIES_OR_1: u16 = 165;

/// ManyOrXor = OneOrBar Xor ManyOrXor
pub const MANY_OR_XOR_0: u16 = 166;

/// ManyOrXor = nothing
pub const MANY_OR_XOR_1: u16 = 167;

/// ManyXorAnd = 'xor' And ManyXorAnd
pub const MANY_XOR_AND_0: u16 = 170;

/// ManyXorAnd = nothing
pub const MANY_XOR_AND_1: u16 = 171;

/// ManyAndEq = OneAndAnd Eq ManyAndEq
pub const MANY_AND_EQ_0: u16 = 172;

/// ManyAndEq = nothing
pub const MANY_AND_EQ_1: u16 = 173;

/// ManyEqualsEqualsRel = OneEqualsEqualsNotEquals Rel ManyEqualsEqualsRel
pub const MANY_EQUALS_EQUALS_REL_0: u16 = 176;

/// ManyEqualsEqualsRel = nothing
pub const MANY_EQUALS_EQUALS_REL_1: u16 = 177;

/// ManyLessSum = OneLessGreaterLessEquals Sum ManyLessSum
pub const MANY_LESS_SUM_0: u16 = 180;

/// ManyLessSum = nothing
pub const MANY_LESS_SUM_1: u16 = 181;

/// ManyPlusTerm = OnePlusMinus Term ManyPlusTerm
pub const MANY_PLUS_TERM_0: u16 = 186;

/// ManyPlusTerm = nothing
pub const MANY_PLUS_TERM_1: u16 = 187;

/// ManyStarUnary = OneStarSlashPercent Unary ManyStarUnary
pub const MANY_STAR_UNARY_0: u16 = 190;

/// ManyStarUnary = nothing
pub const MANY_STAR_UNARY_1: u16 = 191;

/// MaybeExpr = Expr
pub const MAYBE_EXPR_0: u16 = 210;

/// OneImportAliasNote = 'namespace' Ident Body
pub const ONE_IMPORT_ALIAS_NOTE_4: u16 = 216;

/// OneImportAliasNote = Dir K1
pub const ONE_IMPORT_ALIAS_NOTE_5: u16 = 217;

/// OneImportAliasNote = 'derived' K2
pub const ONE_IMPORT_ALIAS_NOTE_6: u16 = 218;

/// OneImportAliasNote = 'abstract' KLate
pub const ONE_IMPORT_ALIAS_NOTE_7: u16 = 219;

/// OneImportAliasNote = 'composite' K4
pub const ONE_IMPORT_ALIAS_NOTE_8: u16 = 220;

/// OneImportAliasNote = 'const' K5
pub const ONE_IMPORT_ALIAS_NOTE_9: u16 = 221;

/// OneImportAliasNote = 'end' Feat
pub const ONE_IMPORT_ALIAS_NOTE_10: u16 = 222;

/// OneImportAliasNote = TypeDecl
pub const ONE_IMPORT_ALIAS_NOTE_11: u16 = 223;

/// OneImportAliasNote = 'feature' UseTail
pub const ONE_IMPORT_ALIAS_NOTE_12: u16 = 224;

/// OneImportAliasNote = 'step' UseTail
pub const ONE_IMPORT_ALIAS_NOTE_13: u16 = 225;

/// OneImportAliasNote = NoName
pub const ONE_IMPORT_ALIAS_NOTE_14: u16 = 226;

/// OneImportAliasNote = 'return' Feat
pub const ONE_IMPORT_ALIAS_NOTE_15: u16 = 227;
