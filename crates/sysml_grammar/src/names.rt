//! Made by `tools/make_table.py`: change tools/grammars, not this file.
//! These are the numbers of the productions that mean something by themselves.

/// Import = 'import' MaybeAll MaybeDollarColonColon NAME ImpRest ';'
pub const IMPORT: u16 = 5;

/// ImpNext = NAME ImpRest
pub const IMP_NEXT_0: u16 = 7;

/// ImpNext = '*' MaybeColonColonStarStar
pub const IMP_NEXT_1: u16 = 8;

/// Alias = 'alias' Ident 'for' QName ';'
pub const ALIAS: u16 = 10;

/// Note = 'doc' Ident Locale COMMENT
pub const NOTE_0: u16 = 12;

/// Note = 'comment' Ident MaybeAboutQNameComma Locale COMMENT
pub const NOTE_1: u16 = 13;

/// Note = 'locale' STRING COMMENT
pub const NOTE_2: u16 = 14;

/// Note = COMMENT
pub const NOTE_3: u16 = 15;

/// Pack = MaybeStandard 'library' 'package' Ident Body
pub const PACK_0: u16 = 17;

/// Pack = 'package' Ident Body
pub const PACK_1: u16 = 18;

/// Spec = TypedBy QName ManyCommaQName
pub const SPEC_0: u16 = 28;

/// Spec = OneColonGreaterSubsets Chain ManyCommaChain
pub const SPEC_1: u16 = 29;

/// Spec = OneColonGreaterGreaterRedefines QName ManyCommaQName
pub const SPEC_2: u16 = 30;

/// Spec = OneColonColonGreaterReferences Chain
pub const SPEC_3: u16 = 31;

/// Mult = '[' Bounds ']' MaybeOrder
pub const MULT_0: u16 = 32;

/// Bounds = '*'
pub const BOUNDS_0: u16 = 36;

/// Plain = NAME RefTail
pub const PLAIN_0: u16 = 43;

/// NoName = '<' NAME '>' MaybeName RefTail
pub const NO_NAME_0: u16 = 45;

/// Expr = 'if' Expr '?' Expr 'else' Expr
pub const EXPR_0: u16 = 48;

/// Imp = Or ManyImpliesOr
pub const IMP: u16 = 50;

/// Or = Xor ManyOrXor
pub const OR: u16 = 51;

/// Xor = And ManyXorAnd
pub const XOR: u16 = 52;

/// And = Eq ManyAndEq
pub const AND: u16 = 53;

/// Eq = Rel ManyEqualsEqualsRel
pub const EQ: u16 = 54;

/// Rel = Sum ManyLessSum
pub const REL: u16 = 55;

/// Sum = Term ManyPlusTerm
pub const SUM: u16 = 56;

/// Term = Unary ManyStarUnary
pub const TERM: u16 = 57;

/// Unary = OneMinusPlusNot Unary
pub const UNARY_0: u16 = 58;

/// Thing = 'end' P1
pub const THING_0: u16 = 74;

/// Thing = Dir P2
pub const THING_1: u16 = 75;

/// Thing = 'derived' P3
pub const THING_2: u16 = 76;

/// Thing = 'abstract' Late
pub const THING_3: u16 = 77;

/// Thing = Late
pub const THING_4: u16 = 78;

/// Thing = Connect
pub const THING_5: u16 = 79;

/// Thing = Bind
pub const THING_6: u16 = 80;

/// End = MaybeBracketBoundsBracket EndName
pub const END: u16 = 127;

/// EndRest = OneColonColonGreaterReferences Chain
pub const END_REST_0: u16 = 130;

/// MaybeLessNameGreater = '<' NAME '>'
pub const MAYBE_LESS_NAME_GREATER_0: u16 = 144;

/// MaybeName = NAME
pub const MAYBE_NAME_0: u16 = 146;

/// ManyColonColonName = '::' NAME ManyColonColonName
pub const MANY_COLON_COLON_NAME_0: u16 = 156;

/// ManyDotName = '.' NAME ManyDotName
pub const MANY_DOT_NAME_0: u16 = 158;

/// MaybeColonGreaterQNameComma = OneColonGreaterSpecializes QName ManyCommaQName
pub const MAYBE_COLON_GREATER_QNAME_COMMA_0: u16 = 160;

/// OneStarBound = '*'
pub const ONE_STAR_BOUND_0: u16 = 184;

/// OneEqualsExprDefault = '=' Expr
pub const ONE_EQUALS_EXPR_DEFAULT_0: u16 = 188;

/// OneEqualsExprDefault = 'default' MaybeEquals Expr
pub const ONE_EQUALS_EXPR_DEFAULT_1: u16 = 189;

/// ManyImpliesOr = 'implies' Or ManyImpliesOr
pub const MANY_IMPLIES_OR_0: u16 = 192;

/// ManyImpliesOr = nothing
pub const MANY_IMPLIES_OR_1: u16 = 193;

/// ManyOrXor = OneOrBar Xor ManyOrXor
pub const MANY_OR_XOR_0: u16 = 194;

/// ManyOrXor = nothing
pub const MANY_OR_XOR_1: u16 = 195;

/// ManyXorAnd = 'xor' And ManyXorAnd
pub const MANY_XOR_AND_0: u16 = 198;

/// ManyXorAnd = nothing
pub const MANY_XOR_AND_1: u16 = 199;

/// ManyAndEq = OneAndAnd Eq ManyAndEq
pub const MANY_AND_EQ_0: u16 = 200;

/// ManyAndEq = nothing
pub const MANY_AND_EQ_1: u16 = 201;

/// ManyEqualsEqualsRel = OneEqualsEqualsNotEquals Rel ManyEqualsEqualsRel
pub const MANY_EQUALS_EQUALS_REL_0: u16 = 204;

/// ManyEqualsEqualsRel = nothing
pub const MANY_EQUALS_EQUALS_REL_1: u16 = 205;

/// ManyLessSum = OneLessGreaterLessEquals Sum ManyLessSum
pub const MANY_LESS_SUM_0: u16 = 208;

/// ManyLessSum = nothing
pub const MANY_LESS_SUM_1: u16 = 209;

/// ManyPlusTerm = OnePlusMinus Term ManyPlusTerm
pub const MANY_PLUS_TERM_0: u16 = 214;

/// ManyPlusTerm = nothing
pub const MANY_PLUS_TERM_1: u16 = 215;

/// ManyStarUnary = OneStarSlashPercent Unary ManyStarUnary
pub const MANY_STAR_UNARY_0: u16 = 218;

/// ManyStarUnary = nothing
pub const MANY_STAR_UNARY_1: u16 = 219;

/// OneNoteEnumUseTail = 'enum' UseTail
pub const ONE_NOTE_ENUM_USE_TAIL_1: u16 = 255;

/// OneNoteEnumUseTail = Plain
pub const ONE_NOTE_ENUM_USE_TAIL_2: u16 = 256;

/// MaybeExpr = Expr
pub const MAYBE_EXPR_0: u16 = 259;

/// OneImportAliasNote = 'end' P1
pub const ONE_IMPORT_ALIAS_NOTE_4: u16 = 265;

/// OneImportAliasNote = Dir P2
pub const ONE_IMPORT_ALIAS_NOTE_5: u16 = 266;

/// OneImportAliasNote = 'derived' P3
pub const ONE_IMPORT_ALIAS_NOTE_6: u16 = 267;

/// OneImportAliasNote = 'abstract' Late
pub const ONE_IMPORT_ALIAS_NOTE_7: u16 = 268;

/// OneImportAliasNote = 'constant' P5
pub const ONE_IMPORT_ALIAS_NOTE_8: u16 = 269;

/// OneImportAliasNote = 'ref' Usage
pub const ONE_IMPORT_ALIAS_NOTE_9: u16 = 270;

/// OneImportAliasNote = DefUse
pub const ONE_IMPORT_ALIAS_NOTE_10: u16 = 271;

/// OneImportAliasNote = NoName
pub const ONE_IMPORT_ALIAS_NOTE_11: u16 = 272;

/// OneImportAliasNote = Connect
pub const ONE_IMPORT_ALIAS_NOTE_12: u16 = 273;

/// OneImportAliasNote = Bind
pub const ONE_IMPORT_ALIAS_NOTE_13: u16 = 274;

/// OneImportAliasNote = 'return' P5
pub const ONE_IMPORT_ALIAS_NOTE_14: u16 = 275;

/// OneContentSubjectUseTail = 'subject' UseTail
pub const ONE_CONTENT_SUBJECT_USE_TAIL_1: u16 = 279;

/// OneContentSubjectUseTail = OneAssumeRequire ReqCon
pub const ONE_CONTENT_SUBJECT_USE_TAIL_2: u16 = 280;

/// MaybeBracketBoundsBracket = '[' Bounds ']'
pub const MAYBE_BRACKET_BOUNDS_BRACKET_0: u16 = 285;
