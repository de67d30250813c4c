//! Made by `tools/make_table.py`: change tools/grammars, not this file.

use ll_core::Span;

macro_rules! spans {
    ($($from:literal..$upto:literal,)*) => { [$(Span { from: $from, upto: $upto }),*] };
}

/// What begins each inner symbol, as parts of `TERMINALS`.
pub static FIRST: [Span; 106] = spans! {
    // File
    0..41,
    // Member
    0..41,
    // Vis
    41..44,
    // Import
    44..45,
    // ImpRest
    45..46,
    // ImpNext
    46..49,
    // Alias
    49..50,
    // Ident
    50..52,
    // Note
    52..56,
    // Locale
    56..57,
    // Pack
    57..60,
    // Body
    60..62,
    // QName
    62..64,
    // Chain
    62..64,
    // Dir
    64..67,
    // Sub
    67..69,
    // SpecPart
    69..80,
    // Spec
    80..88,
    // Mult
    88..91,
    // Order
    91..93,
    // Bounds
    93..97,
    // Bound
    97..100,
    // Value
    100..102,
    // UseHead
    102..115,
    // UseTail
    115..132,
    // Plain
    132..142,
    // NoName
    142..151,
    // RefTail
    151..166,
    // Expr
    166..178,
    // Imp
    178..189,
    // Or
    178..189,
    // Xor
    178..189,
    // And
    178..189,
    // Eq
    178..189,
    // Rel
    178..189,
    // Sum
    178..189,
    // Term
    178..189,
    // Unary
    178..189,
    // Prim
    189..197,
    // TypedBy
    197..199,
    // Content
    199..237,
    // Thing
    237..265,
    // K1
    265..282,
    // K2
    282..298,
    // K3
    298..313,
    // K4
    313..327,
    // K5
    327..340,
    // KLate
    340..363,
    // TypeDecl
    363..371,
    // TypeWord
    371..378,
    // Feat
    378..390,
    // FunBody
    60..62,
    // FunItem
    390..431,
    // ManyMember
    0..41,
    // MaybeVis
    41..44,
    // MaybeAll
    431..432,
    // MaybeDollarColonColon
    432..433,
    // MaybeColonColonImpNext
    45..46,
    // MaybeColonColonStarStar
    45..46,
    // MaybeLessNameGreater
    433..434,
    // MaybeName
    434..435,
    // MaybeAboutQNameComma
    435..436,
    // ManyCommaQName
    436..437,
    // MaybeLocaleString
    56..57,
    // MaybeStandard
    437..438,
    // ManyColonColonName
    45..46,
    // ManyDotName
    438..439,
    // MaybeColonGreaterQNameComma
    67..69,
    // OneColonGreaterSpecializes
    67..69,
    // ManySpec
    80..88,
    // MaybeMultSpec
    88..91,
    // OneColonGreaterSubsets
    439..441,
    // ManyCommaChain
    436..437,
    // OneColonGreaterGreaterRedefines
    441..443,
    // OneColonColonGreaterReferences
    443..445,
    // MaybeOrder
    91..93,
    // MaybeNonunique
    445..446,
    // MaybeOrdered
    446..447,
    // MaybeDotDotStar
    447..448,
    // OneStarBound
    93..97,
    // MaybeEqualsExprDefault
    100..102,
    // OneEqualsExprDefault
    100..102,
    // MaybeEquals
    448..449,
    // ManyImpliesOr
    449..450,
    // ManyOrXor
    450..452,
    // OneOrBar
    450..452,
    // ManyXorAnd
    452..453,
    // ManyAndEq
    453..455,
    // OneAndAnd
    453..455,
    // ManyEqualsEqualsRel
    455..457,
    // OneEqualsEqualsNotEquals
    455..457,
    // ManyLessSum
    457..461,
    // OneLessGreaterLessEquals
    457..461,
    // ManyPlusTerm
    461..463,
    // OnePlusMinus
    461..463,
    // ManyStarUnary
    463..466,
    // OneStarSlashPercent
    463..466,
    // OneMinusPlusNot
    466..469,
    // MaybeDerived
    469..470,
    // MaybeAbstract
    470..471,
    // MaybeComposite
    471..472,
    // MaybeConst
    472..473,
    // MaybeEnd
    473..474,
    // ManyFunItem
    390..431,
    // MaybeExpr
    166..178,
    // OneImportAliasNote
    474..512,
};

/// What follows each inner symbol, as parts of `TERMINALS`.
pub static FOLLOW: [Span; 106] = spans! {
    // File
    512..513,
    // Member
    513..556,
    // Vis
    556..595,
    // Import
    595..650,
    // ImpRest
    650..651,
    // ImpNext
    650..651,
    // Alias
    595..650,
    // Ident
    651..671,
    // Note
    595..650,
    // Locale
    671..672,
    // Pack
    595..650,
    // Body
    595..650,
    // QName
    672..714,
    // Chain
    714..751,
    // Dir
    265..282,
    // Sub
    60..62,
    // SpecPart
    751..755,
    // Spec
    151..166,
    // Mult
    755..767,
    // Order
    755..767,
    // Bounds
    767..768,
    // Bound
    768..770,
    // Value
    60..62,
    // UseHead
    751..755,
    // UseTail
    595..650,
    // Plain
    595..650,
    // NoName
    595..650,
    // RefTail
    595..650,
    // Expr
    770..776,
    // Imp
    770..776,
    // Or
    776..783,
    // Xor
    783..792,
    // And
    792..802,
    // Eq
    802..814,
    // Rel
    814..828,
    // Sum
    828..846,
    // Term
    846..866,
    // Unary
    866..889,
    // Prim
    866..889,
    // TypedBy
    62..64,
    // Content
    513..556,
    // Thing
    513..556,
    // K1
    595..650,
    // K2
    595..650,
    // K3
    595..650,
    // K4
    595..650,
    // K5
    595..650,
    // KLate
    595..650,
    // TypeDecl
    595..650,
    // TypeWord
    889..895,
    // Feat
    595..650,
    // FunBody
    595..650,
    // FunItem
    895..949,
    // ManyMember
    949..951,
    // MaybeVis
    556..595,
    // MaybeAll
    62..64,
    // MaybeDollarColonColon
    434..435,
    // MaybeColonColonImpNext
    650..651,
    // MaybeColonColonStarStar
    650..651,
    // MaybeLessNameGreater
    951..972,
    // MaybeName
    651..671,
    // MaybeAboutQNameComma
    972..974,
    // ManyCommaQName
    974..991,
    // MaybeLocaleString
    671..672,
    // MaybeStandard
    991..992,
    // ManyColonColonName
    672..714,
    // ManyDotName
    714..751,
    // MaybeColonGreaterQNameComma
    60..62,
    // OneColonGreaterSpecializes
    62..64,
    // ManySpec
    992..999,
    // MaybeMultSpec
    751..755,
    // OneColonGreaterSubsets
    62..64,
    // ManyCommaChain
    151..166,
    // OneColonGreaterGreaterRedefines
    62..64,
    // OneColonColonGreaterReferences
    62..64,
    // MaybeOrder
    755..767,
    // MaybeNonunique
    755..767,
    // MaybeOrdered
    755..767,
    // MaybeDotDotStar
    767..768,
    // OneStarBound
    767..768,
    // MaybeEqualsExprDefault
    60..62,
    // OneEqualsExprDefault
    60..62,
    // MaybeEquals
    166..178,
    // ManyImpliesOr
    770..776,
    // ManyOrXor
    776..783,
    // OneOrBar
    178..189,
    // ManyXorAnd
    783..792,
    // ManyAndEq
    792..802,
    // OneAndAnd
    178..189,
    // ManyEqualsEqualsRel
    802..814,
    // OneEqualsEqualsNotEquals
    178..189,
    // ManyLessSum
    814..828,
    // OneLessGreaterLessEquals
    178..189,
    // ManyPlusTerm
    828..846,
    // OnePlusMinus
    178..189,
    // ManyStarUnary
    846..866,
    // OneStarSlashPercent
    178..189,
    // OneMinusPlusNot
    178..189,
    // MaybeDerived
    282..298,
    // MaybeAbstract
    298..313,
    // MaybeComposite
    313..327,
    // MaybeConst
    327..340,
    // MaybeEnd
    378..390,
    // ManyFunItem
    999..1012,
    // MaybeExpr
    1012..1013,
    // OneImportAliasNote
    895..949,
};

/// The sets of terminals, each once.
#[rattlefmt::skip]
pub static TERMINALS: [u16; 1013] = [
    0, 3, 10, 16, 18, 19, 20, 261, 262, 266, 267, 272, 273, 274, 275, 280, 282, 285, 289, 291, 294,
    302, 306, 307, 308, 316, 317, 323, 331, 332, 335, 336, 337, 338, 340, 345, 346, 347, 350, 356,
    357, 335, 336, 337, 306, 17, 0, 30, 31, 262, 0, 10, 3, 274, 289, 317, 317, 316, 332, 345, 4, 12,
    0, 41, 307, 308, 331, 18, 344, 6, 16, 18, 19, 20, 325, 330, 338, 340, 350, 357, 16, 18, 19, 20,
    338, 340, 350, 357, 6, 325, 330, 325, 330, 0, 1, 30, 41, 0, 1, 41, 21, 283, 0, 6, 10, 16, 18,
    19, 20, 325, 330, 338, 340, 350, 357, 0, 4, 6, 10, 12, 16, 18, 19, 20, 21, 283, 325, 330, 338,
    340, 350, 357, 0, 10, 16, 18, 19, 20, 338, 340, 350, 357, 10, 16, 18, 19, 20, 338, 340, 350,
    357, 4, 6, 12, 16, 18, 19, 20, 21, 283, 325, 330, 338, 340, 350, 357, 0, 1, 2, 8, 28, 29, 41,
    293, 304, 326, 327, 355, 0, 1, 2, 8, 28, 29, 41, 293, 326, 327, 355, 0, 1, 2, 8, 41, 293, 327,
    355, 16, 357, 0, 3, 10, 16, 18, 19, 20, 261, 262, 266, 267, 272, 273, 274, 275, 280, 282, 285,
    289, 291, 294, 302, 306, 307, 308, 316, 317, 323, 331, 332, 338, 340, 345, 346, 347, 350, 356,
    357, 0, 10, 16, 18, 19, 20, 261, 266, 267, 272, 273, 275, 280, 282, 285, 291, 294, 302, 307,
    308, 331, 338, 340, 346, 347, 350, 356, 357, 0, 10, 16, 18, 19, 20, 261, 275, 280, 285, 291,
    294, 338, 340, 346, 350, 357, 0, 10, 16, 18, 19, 20, 261, 275, 280, 291, 294, 338, 340, 346,
    350, 357, 0, 10, 16, 18, 19, 20, 275, 280, 291, 294, 338, 340, 346, 350, 357, 0, 10, 16, 18, 19,
    20, 280, 291, 294, 338, 340, 346, 350, 357, 0, 10, 16, 18, 19, 20, 291, 294, 338, 340, 346, 350,
    357, 0, 10, 16, 18, 19, 20, 266, 267, 272, 273, 275, 280, 282, 291, 294, 302, 338, 340, 346,
    347, 350, 356, 357, 266, 267, 272, 273, 282, 302, 347, 356, 266, 267, 272, 273, 282, 347, 356,
    0, 10, 16, 18, 19, 20, 294, 338, 340, 346, 350, 357, 3, 10, 16, 18, 19, 20, 261, 262, 266, 267,
    272, 273, 274, 275, 280, 282, 285, 289, 291, 294, 302, 306, 307, 308, 316, 317, 323, 331, 332,
    335, 336, 337, 338, 340, 342, 345, 346, 347, 350, 356, 357, 263, 41, 10, 0, 260, 13, 345, 14,
    18, 350, 19, 338, 20, 340, 325, 330, 15, 21, 305, 35, 329, 361, 34, 264, 22, 23, 10, 11, 26, 27,
    28, 29, 30, 32, 33, 28, 29, 326, 285, 261, 275, 280, 291, 3, 10, 16, 18, 19, 20, 261, 262, 266,
    267, 272, 273, 274, 275, 280, 282, 285, 289, 291, 294, 302, 306, 307, 308, 316, 317, 323, 331,
    332, 338, 340, 342, 345, 346, 347, 350, 356, 357, 65535, 0, 3, 5, 10, 16, 18, 19, 20, 261, 262,
    266, 267, 272, 273, 274, 275, 280, 282, 285, 289, 291, 294, 302, 306, 307, 308, 316, 317, 323,
    331, 332, 335, 336, 337, 338, 340, 345, 346, 347, 350, 356, 357, 65535, 0, 3, 10, 16, 18, 19,
    20, 261, 262, 266, 267, 272, 273, 274, 275, 280, 282, 285, 289, 291, 294, 302, 306, 307, 308,
    316, 317, 323, 331, 332, 338, 340, 342, 345, 346, 347, 350, 356, 357, 0, 1, 2, 3, 5, 8, 10, 16,
    18, 19, 20, 28, 29, 41, 261, 262, 266, 267, 272, 273, 274, 275, 280, 282, 285, 289, 291, 293,
    294, 302, 304, 306, 307, 308, 316, 317, 323, 326, 327, 331, 332, 335, 336, 337, 338, 340, 342,
    345, 346, 347, 350, 355, 356, 357, 65535, 12, 3, 4, 6, 12, 16, 18, 19, 20, 21, 260, 283, 300,
    317, 325, 330, 338, 340, 344, 350, 357, 3, 3, 4, 5, 6, 7, 9, 10, 11, 12, 13, 14, 15, 16, 18, 19,
    20, 21, 22, 23, 26, 27, 28, 29, 30, 32, 33, 34, 35, 42, 264, 283, 290, 305, 317, 325, 329, 330,
    338, 340, 350, 357, 361, 4, 5, 6, 9, 10, 11, 12, 13, 16, 18, 19, 20, 21, 22, 23, 26, 27, 28, 29,
    30, 32, 33, 34, 35, 42, 264, 283, 290, 305, 325, 329, 330, 338, 340, 350, 357, 361, 4, 12, 21,
    283, 4, 12, 16, 18, 19, 20, 21, 283, 338, 340, 350, 357, 7, 7, 15, 4, 5, 9, 12, 42, 290, 4, 5,
    9, 12, 42, 290, 305, 4, 5, 9, 12, 35, 42, 290, 305, 329, 4, 5, 9, 12, 35, 42, 290, 305, 329,
    361, 4, 5, 9, 12, 34, 35, 42, 264, 290, 305, 329, 361, 4, 5, 9, 12, 22, 23, 34, 35, 42, 264,
    290, 305, 329, 361, 4, 5, 9, 10, 11, 12, 22, 23, 26, 27, 34, 35, 42, 264, 290, 305, 329, 361, 4,
    5, 9, 10, 11, 12, 22, 23, 26, 27, 28, 29, 34, 35, 42, 264, 290, 305, 329, 361, 4, 5, 9, 10, 11,
    12, 22, 23, 26, 27, 28, 29, 30, 32, 33, 34, 35, 42, 264, 290, 305, 329, 361, 0, 4, 10, 12, 18,
    344, 0, 1, 2, 3, 5, 8, 10, 16, 18, 19, 20, 28, 29, 41, 261, 262, 266, 267, 272, 273, 274, 275,
    280, 282, 285, 289, 291, 293, 294, 302, 304, 306, 307, 308, 316, 317, 323, 326, 327, 331, 332,
    335, 336, 337, 338, 340, 342, 345, 346, 347, 350, 355, 356, 357, 5, 65535, 0, 3, 4, 6, 12, 16,
    18, 19, 20, 21, 260, 283, 300, 317, 325, 330, 338, 340, 344, 350, 357, 3, 317, 3, 4, 6, 12, 16,
    18, 19, 20, 21, 283, 317, 325, 330, 338, 340, 350, 357, 316, 4, 6, 12, 21, 283, 325, 330, 0, 1,
    2, 5, 8, 28, 29, 41, 293, 304, 326, 327, 355, 5,
];

/// Whether each inner symbol may derive no token.
#[rattlefmt::skip]
pub static EMPTY: [bool; 106] = [
    true, false, false, false, true, false, false, true, false, true, false, false, false, false,
    false, true, true, false, false, false, false, false, true, true, false, false, false, false,
    false, false, false, false, false, false, false, false, false, false, false, false, false,
    false, false, false, false, false, false, false, false, false, false, false, false, true, true,
    true, true, true, true, true, true, true, true, true, true, true, true, true, false, true, true,
    false, true, false, false, true, true, true, true, false, true, false, true, true, true, false,
    true, true, false, true, false, true, false, true, false, true, false, false, true, true, true,
    true, true, true, true, false,
];

/// A number that falls along a derivation of each inner symbol.
#[rattlefmt::skip]
pub static HEIGHT: [u16; 106] = [
    1, 2, 0, 2, 1, 0, 2, 1, 0, 1, 2, 0, 1, 2, 0, 1, 1, 2, 1, 1, 0, 0, 1, 2, 3, 3, 3, 2, 10, 9, 8, 7,
    6, 5, 4, 3, 2, 1, 0, 0, 1, 4, 9, 8, 7, 6, 5, 3, 2, 0, 4, 0, 2, 0, 0, 0, 0, 0, 0, 0, 0, 0, 0, 0,
    0, 0, 0, 0, 0, 0, 0, 0, 0, 0, 0, 0, 0, 0, 0, 0, 0, 11, 0, 0, 0, 0, 0, 0, 0, 0, 0, 0, 0, 0, 0, 0,
    0, 0, 0, 0, 0, 0, 0, 0, 0, 1,
];

/// A number that falls to each symbol that may begin an inner one.
#[rattlefmt::skip]
pub static RANK: [u16; 106] = [
    10, 8, 0, 0, 1, 0, 0, 1, 0, 1, 1, 0, 1, 2, 0, 2, 3, 1, 1, 0, 3, 2, 2, 4, 5, 3, 2, 4, 13, 12, 11,
    10, 9, 8, 7, 6, 5, 4, 3, 0, 7, 6, 9, 8, 7, 6, 5, 5, 1, 0, 4, 0, 4, 9, 1, 0, 0, 0, 0, 0, 0, 0, 0,
    0, 0, 0, 0, 1, 0, 2, 2, 0, 0, 0, 0, 1, 0, 0, 0, 3, 1, 0, 0, 0, 1, 0, 0, 1, 0, 1, 0, 1, 0, 1, 0,
    1, 0, 0, 0, 0, 0, 0, 0, 5, 14, 3,
];
