//! Made by `tools/make_table.py`: change tools/grammars, not this file.

use ll_core::Span;

macro_rules! spans {
    ($($from:literal..$upto:literal,)*) => { [$(Span { from: $from, upto: $upto }),*] };
}

/// What begins each inner symbol, as parts of `TERMINALS`.
pub static FIRST: [Span; 136] = spans! {
    // File
    0..45,
    // Member
    0..45,
    // Vis
    45..48,
    // Import
    48..49,
    // ImpRest
    49..50,
    // ImpNext
    50..53,
    // Alias
    53..54,
    // Ident
    54..56,
    // Note
    56..60,
    // Locale
    60..61,
    // Pack
    61..64,
    // Body
    64..66,
    // QName
    66..68,
    // Chain
    66..68,
    // Dir
    68..71,
    // Sub
    71..73,
    // SpecPart
    73..84,
    // Spec
    84..92,
    // Mult
    92..95,
    // Order
    95..97,
    // Bounds
    97..101,
    // Bound
    101..104,
    // Value
    104..106,
    // UseHead
    106..119,
    // UseTail
    119..136,
    // Plain
    136..146,
    // NoName
    146..155,
    // RefTail
    155..170,
    // Expr
    170..182,
    // Imp
    182..193,
    // Or
    182..193,
    // Xor
    182..193,
    // And
    182..193,
    // Eq
    182..193,
    // Rel
    182..193,
    // Sum
    182..193,
    // Term
    182..193,
    // Unary
    182..193,
    // Prim
    193..201,
    // TypedBy
    201..203,
    // Content
    203..245,
    // Thing
    245..278,
    // P1
    278..307,
    // P2
    307..333,
    // P3
    333..358,
    // P4
    358..382,
    // P5
    382..405,
    // Late
    358..382,
    // Simple
    405..411,
    // Usage
    411..433,
    // DefUse
    433..445,
    // DefHead
    445..449,
    // ConTail
    449..467,
    // CalcTail
    119..136,
    // ReqTail
    119..136,
    // EnumBody
    64..66,
    // EnumItem
    467..485,
    // CalcBody
    64..66,
    // CalcItem
    485..530,
    // ReqBody
    64..66,
    // ReqItem
    530..578,
    // ReqCon
    578..581,
    // Connect
    581..582,
    // Ends
    582..586,
    // Bind
    586..588,
    // End
    588..591,
    // EndName
    66..68,
    // EndRest
    591..595,
    // ManyMember
    0..45,
    // MaybeVis
    45..48,
    // MaybeAll
    595..596,
    // MaybeDollarColonColon
    596..597,
    // MaybeColonColonImpNext
    49..50,
    // MaybeColonColonStarStar
    49..50,
    // MaybeLessNameGreater
    597..598,
    // MaybeName
    598..599,
    // MaybeAboutQNameComma
    599..600,
    // ManyCommaQName
    600..601,
    // MaybeLocaleString
    60..61,
    // MaybeStandard
    601..602,
    // ManyColonColonName
    49..50,
    // ManyDotName
    602..603,
    // MaybeColonGreaterQNameComma
    71..73,
    // OneColonGreaterSpecializes
    71..73,
    // ManySpec
    84..92,
    // MaybeMultSpec
    92..95,
    // OneColonGreaterSubsets
    603..605,
    // ManyCommaChain
    600..601,
    // OneColonGreaterGreaterRedefines
    605..607,
    // OneColonColonGreaterReferences
    607..609,
    // MaybeOrder
    95..97,
    // MaybeNonunique
    609..610,
    // MaybeOrdered
    610..611,
    // MaybeDotDotStar
    611..612,
    // OneStarBound
    97..101,
    // MaybeEqualsExprDefault
    104..106,
    // OneEqualsExprDefault
    104..106,
    // MaybeEquals
    612..613,
    // ManyImpliesOr
    613..614,
    // ManyOrXor
    614..616,
    // OneOrBar
    614..616,
    // ManyXorAnd
    616..617,
    // ManyAndEq
    617..619,
    // OneAndAnd
    617..619,
    // ManyEqualsEqualsRel
    619..621,
    // OneEqualsEqualsNotEquals
    619..621,
    // ManyLessSum
    621..625,
    // OneLessGreaterLessEquals
    621..625,
    // ManyPlusTerm
    625..627,
    // OnePlusMinus
    625..627,
    // ManyStarUnary
    627..630,
    // OneStarSlashPercent
    627..630,
    // OneMinusPlusNot
    630..633,
    // MaybeDir
    68..71,
    // MaybeDerived
    633..634,
    // MaybeAbstract
    634..635,
    // MaybeConstant
    635..636,
    // MaybeRef
    636..637,
    // OneConnectionInterface
    637..639,
    // OneCalcConstraint
    639..641,
    // OneDefDefHeadBody
    641..659,
    // OneDefDefHeadEnumBody
    641..659,
    // OneDefDefHeadBody2
    659..678,
    // OneDefDefHeadCalcBody
    641..659,
    // OneDefDefHeadReqBody
    641..659,
    // MaybeConnectEnds
    581..582,
    // ManyEnumItem
    467..485,
    // OneNoteEnumUseTail
    678..693,
    // ManyCalcItem
    485..530,
    // MaybeExpr
    170..182,
    // OneImportAliasNote
    693..735,
    // ManyReqItem
    530..578,
    // OneContentSubjectUseTail
    735..780,
    // OneAssumeRequire
    780..782,
    // ManyCommaEnd
    600..601,
    // MaybeBracketBoundsBracket
    782..783,
};

/// What follows each inner symbol, as parts of `TERMINALS`.
pub static FOLLOW: [Span; 136] = spans! {
    // File
    783..784,
    // Member
    784..831,
    // Vis
    831..877,
    // Import
    877..939,
    // ImpRest
    939..940,
    // ImpNext
    939..940,
    // Alias
    877..939,
    // Ident
    940..962,
    // Note
    877..939,
    // Locale
    962..963,
    // Pack
    877..939,
    // Body
    877..939,
    // QName
    963..1008,
    // Chain
    1008..1048,
    // Dir
    307..333,
    // Sub
    64..66,
    // SpecPart
    1048..1054,
    // Spec
    1054..1071,
    // Mult
    1071..1085,
    // Order
    1071..1085,
    // Bounds
    1085..1086,
    // Bound
    1086..1088,
    // Value
    1088..1091,
    // UseHead
    1048..1054,
    // UseTail
    877..939,
    // Plain
    877..939,
    // NoName
    877..939,
    // RefTail
    877..939,
    // Expr
    1091..1098,
    // Imp
    1091..1098,
    // Or
    1098..1106,
    // Xor
    1106..1116,
    // And
    1116..1127,
    // Eq
    1127..1140,
    // Rel
    1140..1155,
    // Sum
    1155..1174,
    // Term
    1174..1195,
    // Unary
    1195..1219,
    // Prim
    1195..1219,
    // TypedBy
    66..68,
    // Content
    1219..1269,
    // Thing
    1219..1269,
    // P1
    877..939,
    // P2
    877..939,
    // P3
    877..939,
    // P4
    877..939,
    // P5
    877..939,
    // Late
    877..939,
    // Simple
    641..659,
    // Usage
    877..939,
    // DefUse
    877..939,
    // DefHead
    64..66,
    // ConTail
    877..939,
    // CalcTail
    877..939,
    // ReqTail
    877..939,
    // EnumBody
    877..939,
    // EnumItem
    1269..1288,
    // CalcBody
    877..939,
    // CalcItem
    1288..1346,
    // ReqBody
    877..939,
    // ReqItem
    1346..1395,
    // ReqCon
    1346..1395,
    // Connect
    877..939,
    // Ends
    64..66,
    // Bind
    877..939,
    // End
    1395..1401,
    // EndName
    1395..1401,
    // EndRest
    1395..1401,
    // ManyMember
    1401..1403,
    // MaybeVis
    831..877,
    // MaybeAll
    66..68,
    // MaybeDollarColonColon
    598..599,
    // MaybeColonColonImpNext
    939..940,
    // MaybeColonColonStarStar
    939..940,
    // MaybeLessNameGreater
    1403..1426,
    // MaybeName
    940..962,
    // MaybeAboutQNameComma
    1426..1428,
    // ManyCommaQName
    1428..1447,
    // MaybeLocaleString
    962..963,
    // MaybeStandard
    1447..1448,
    // ManyColonColonName
    963..1008,
    // ManyDotName
    1008..1048,
    // MaybeColonGreaterQNameComma
    64..66,
    // OneColonGreaterSpecializes
    66..68,
    // ManySpec
    1448..1457,
    // MaybeMultSpec
    1048..1054,
    // OneColonGreaterSubsets
    66..68,
    // ManyCommaChain
    1054..1071,
    // OneColonGreaterGreaterRedefines
    66..68,
    // OneColonColonGreaterReferences
    66..68,
    // MaybeOrder
    1071..1085,
    // MaybeNonunique
    1071..1085,
    // MaybeOrdered
    1071..1085,
    // MaybeDotDotStar
    1085..1086,
    // OneStarBound
    1085..1086,
    // MaybeEqualsExprDefault
    1088..1091,
    // OneEqualsExprDefault
    1088..1091,
    // MaybeEquals
    170..182,
    // ManyImpliesOr
    1091..1098,
    // ManyOrXor
    1098..1106,
    // OneOrBar
    182..193,
    // ManyXorAnd
    1106..1116,
    // ManyAndEq
    1116..1127,
    // OneAndAnd
    182..193,
    // ManyEqualsEqualsRel
    1127..1140,
    // OneEqualsEqualsNotEquals
    182..193,
    // ManyLessSum
    1140..1155,
    // OneLessGreaterLessEquals
    182..193,
    // ManyPlusTerm
    1155..1174,
    // OnePlusMinus
    182..193,
    // ManyStarUnary
    1174..1195,
    // OneStarSlashPercent
    182..193,
    // OneMinusPlusNot
    182..193,
    // MaybeDir
    307..333,
    // MaybeDerived
    333..358,
    // MaybeAbstract
    358..382,
    // MaybeConstant
    382..405,
    // MaybeRef
    411..433,
    // OneConnectionInterface
    659..678,
    // OneCalcConstraint
    641..659,
    // OneDefDefHeadBody
    877..939,
    // OneDefDefHeadEnumBody
    877..939,
    // OneDefDefHeadBody2
    877..939,
    // OneDefDefHeadCalcBody
    877..939,
    // OneDefDefHeadReqBody
    877..939,
    // MaybeConnectEnds
    64..66,
    // ManyEnumItem
    1457..1458,
    // OneNoteEnumUseTail
    1269..1288,
    // ManyCalcItem
    1458..1471,
    // MaybeExpr
    1457..1458,
    // OneImportAliasNote
    1288..1346,
    // ManyReqItem
    1457..1458,
    // OneContentSubjectUseTail
    1346..1395,
    // OneAssumeRequire
    578..581,
    // ManyCommaEnd
    1471..1472,
    // MaybeBracketBoundsBracket
    66..68,
};

/// The sets of terminals, each once.
#[rattlefmt::skip]
pub static TERMINALS: [u16; 1472] = [
    0, 3, 10, 16, 18, 19, 20, 261, 263, 266, 277, 278, 279, 281, 283, 285, 286, 287, 288, 293, 295,
    297, 299, 301, 317, 318, 321, 322, 324, 327, 328, 339, 343, 344, 346, 348, 349, 350, 351, 352,
    353, 354, 359, 366, 369, 349, 350, 351, 317, 17, 0, 30, 31, 266, 0, 10, 3, 283, 297, 328, 328,
    327, 344, 366, 4, 12, 0, 41, 318, 321, 343, 18, 364, 6, 16, 18, 19, 20, 293, 335, 342, 352, 354,
    369, 16, 18, 19, 20, 293, 352, 354, 369, 6, 335, 342, 335, 342, 0, 1, 30, 41, 0, 1, 41, 21, 292,
    0, 6, 10, 16, 18, 19, 20, 293, 335, 342, 352, 354, 369, 0, 4, 6, 10, 12, 16, 18, 19, 20, 21,
    292, 293, 335, 342, 352, 354, 369, 0, 10, 16, 18, 19, 20, 293, 352, 354, 369, 10, 16, 18, 19,
    20, 293, 352, 354, 369, 4, 6, 12, 16, 18, 19, 20, 21, 292, 293, 335, 342, 352, 354, 369, 0, 1,
    2, 8, 28, 29, 41, 306, 315, 336, 337, 376, 0, 1, 2, 8, 28, 29, 41, 306, 336, 337, 376, 0, 1, 2,
    8, 41, 306, 337, 376, 16, 293, 0, 3, 10, 16, 18, 19, 20, 261, 263, 266, 277, 278, 279, 281, 283,
    285, 286, 287, 288, 293, 295, 297, 299, 301, 317, 318, 321, 322, 324, 327, 328, 339, 343, 344,
    346, 348, 352, 353, 354, 359, 366, 369, 0, 10, 16, 18, 19, 20, 261, 263, 277, 278, 279, 281,
    285, 286, 287, 288, 293, 295, 299, 301, 318, 321, 322, 324, 339, 343, 346, 348, 352, 353, 354,
    359, 369, 0, 10, 16, 18, 19, 20, 261, 263, 277, 281, 286, 287, 288, 293, 295, 301, 318, 321,
    322, 324, 339, 343, 346, 348, 352, 353, 354, 359, 369, 0, 10, 16, 18, 19, 20, 261, 263, 277,
    281, 286, 287, 288, 293, 295, 301, 322, 324, 339, 346, 348, 352, 353, 354, 359, 369, 0, 10, 16,
    18, 19, 20, 261, 263, 277, 281, 286, 287, 288, 293, 301, 322, 324, 339, 346, 348, 352, 353, 354,
    359, 369, 0, 10, 16, 18, 19, 20, 263, 277, 281, 286, 287, 288, 293, 301, 322, 324, 339, 346,
    348, 352, 353, 354, 359, 369, 0, 10, 16, 18, 19, 20, 263, 277, 281, 286, 288, 293, 301, 322,
    324, 339, 346, 348, 352, 353, 354, 359, 369, 263, 277, 324, 339, 346, 348, 0, 10, 16, 18, 19,
    20, 263, 277, 281, 286, 288, 293, 301, 322, 324, 339, 346, 348, 352, 354, 359, 369, 263, 277,
    281, 286, 288, 301, 322, 324, 339, 346, 348, 359, 0, 10, 18, 364, 0, 4, 6, 10, 12, 16, 18, 19,
    20, 21, 285, 292, 293, 335, 342, 352, 354, 369, 0, 3, 10, 16, 18, 19, 20, 283, 293, 297, 301,
    328, 349, 350, 351, 352, 354, 369, 3, 10, 16, 18, 19, 20, 261, 263, 266, 277, 278, 279, 281,
    283, 285, 286, 287, 288, 293, 295, 297, 299, 301, 317, 318, 321, 322, 324, 327, 328, 339, 343,
    344, 346, 348, 349, 350, 351, 352, 353, 354, 359, 360, 366, 369, 0, 3, 10, 16, 18, 19, 20, 261,
    263, 266, 275, 277, 278, 279, 281, 283, 285, 286, 287, 288, 293, 295, 297, 299, 301, 317, 318,
    321, 322, 324, 327, 328, 339, 343, 344, 346, 348, 349, 350, 351, 352, 353, 354, 358, 359, 366,
    368, 369, 0, 41, 288, 285, 0, 6, 8, 41, 278, 279, 0, 6, 41, 14, 17, 20, 354, 267, 41, 10, 0,
    260, 13, 366, 14, 18, 369, 19, 352, 20, 354, 335, 342, 15, 21, 316, 35, 341, 388, 34, 271, 22,
    23, 10, 11, 26, 27, 28, 29, 30, 32, 33, 28, 29, 336, 295, 261, 287, 353, 286, 322, 281, 288, 0,
    4, 6, 10, 12, 16, 18, 19, 20, 21, 291, 292, 293, 335, 342, 352, 354, 369, 0, 4, 6, 10, 12, 16,
    18, 19, 20, 21, 285, 291, 292, 293, 335, 342, 352, 354, 369, 0, 3, 10, 16, 18, 19, 20, 283, 293,
    297, 301, 328, 352, 354, 369, 3, 10, 16, 18, 19, 20, 261, 263, 266, 277, 278, 279, 281, 283,
    285, 286, 287, 288, 293, 295, 297, 299, 301, 317, 318, 321, 322, 324, 327, 328, 339, 343, 344,
    346, 348, 352, 353, 354, 359, 360, 366, 369, 0, 3, 10, 16, 18, 19, 20, 261, 263, 266, 275, 277,
    278, 279, 281, 283, 285, 286, 287, 288, 293, 295, 297, 299, 301, 317, 318, 321, 322, 324, 327,
    328, 339, 343, 344, 346, 348, 352, 353, 354, 358, 359, 366, 368, 369, 275, 358, 6, 65535, 0, 3,
    5, 10, 16, 18, 19, 20, 261, 263, 266, 277, 278, 279, 281, 283, 285, 286, 287, 288, 293, 295,
    297, 299, 301, 317, 318, 321, 322, 324, 327, 328, 339, 343, 344, 346, 348, 349, 350, 351, 352,
    353, 354, 359, 366, 369, 65535, 0, 3, 10, 16, 18, 19, 20, 261, 263, 266, 275, 277, 278, 279,
    281, 283, 285, 286, 287, 288, 293, 295, 297, 299, 301, 317, 318, 321, 322, 324, 327, 328, 339,
    343, 344, 346, 348, 352, 353, 354, 358, 359, 360, 366, 368, 369, 0, 1, 2, 3, 5, 8, 10, 16, 18,
    19, 20, 28, 29, 41, 261, 263, 266, 275, 277, 278, 279, 281, 283, 285, 286, 287, 288, 293, 295,
    297, 299, 301, 306, 315, 317, 318, 321, 322, 324, 327, 328, 336, 337, 339, 343, 344, 346, 348,
    349, 350, 351, 352, 353, 354, 358, 359, 360, 366, 368, 369, 376, 65535, 12, 3, 4, 6, 12, 16, 18,
    19, 20, 21, 260, 278, 285, 292, 293, 310, 328, 335, 342, 352, 354, 364, 369, 3, 3, 4, 5, 6, 7,
    9, 10, 11, 12, 13, 14, 15, 16, 18, 19, 20, 21, 22, 23, 26, 27, 28, 29, 30, 32, 33, 34, 35, 42,
    271, 278, 285, 292, 293, 298, 316, 328, 335, 341, 342, 352, 354, 369, 374, 388, 4, 5, 6, 9, 10,
    11, 12, 13, 16, 18, 19, 20, 21, 22, 23, 26, 27, 28, 29, 30, 32, 33, 34, 35, 42, 271, 278, 285,
    292, 293, 298, 316, 335, 341, 342, 352, 354, 369, 374, 388, 4, 12, 21, 278, 285, 292, 4, 6, 12,
    16, 18, 19, 20, 21, 278, 285, 292, 293, 335, 342, 352, 354, 369, 4, 12, 16, 18, 19, 20, 21, 278,
    285, 292, 293, 352, 354, 369, 7, 7, 15, 4, 12, 285, 4, 5, 9, 12, 42, 285, 298, 4, 5, 9, 12, 42,
    285, 298, 316, 4, 5, 9, 12, 35, 42, 285, 298, 316, 341, 4, 5, 9, 12, 35, 42, 285, 298, 316, 341,
    388, 4, 5, 9, 12, 34, 35, 42, 271, 285, 298, 316, 341, 388, 4, 5, 9, 12, 22, 23, 34, 35, 42,
    271, 285, 298, 316, 341, 388, 4, 5, 9, 10, 11, 12, 22, 23, 26, 27, 34, 35, 42, 271, 285, 298,
    316, 341, 388, 4, 5, 9, 10, 11, 12, 22, 23, 26, 27, 28, 29, 34, 35, 42, 271, 285, 298, 316, 341,
    388, 4, 5, 9, 10, 11, 12, 22, 23, 26, 27, 28, 29, 30, 32, 33, 34, 35, 42, 271, 285, 298, 316,
    341, 388, 0, 3, 5, 10, 16, 18, 19, 20, 261, 263, 266, 275, 277, 278, 279, 281, 283, 285, 286,
    287, 288, 293, 295, 297, 299, 301, 317, 318, 321, 322, 324, 327, 328, 339, 343, 344, 346, 348,
    349, 350, 351, 352, 353, 354, 358, 359, 366, 368, 369, 65535, 0, 3, 5, 10, 16, 18, 19, 20, 283,
    293, 297, 301, 328, 349, 350, 351, 352, 354, 369, 0, 1, 2, 3, 5, 8, 10, 16, 18, 19, 20, 28, 29,
    41, 261, 263, 266, 277, 278, 279, 281, 283, 285, 286, 287, 288, 293, 295, 297, 299, 301, 306,
    315, 317, 318, 321, 322, 324, 327, 328, 336, 337, 339, 343, 344, 346, 348, 349, 350, 351, 352,
    353, 354, 359, 360, 366, 369, 376, 0, 3, 5, 10, 16, 18, 19, 20, 261, 263, 266, 275, 277, 278,
    279, 281, 283, 285, 286, 287, 288, 293, 295, 297, 299, 301, 317, 318, 321, 322, 324, 327, 328,
    339, 343, 344, 346, 348, 349, 350, 351, 352, 353, 354, 358, 359, 366, 368, 369, 4, 9, 12, 13,
    21, 374, 5, 65535, 0, 3, 4, 6, 12, 16, 18, 19, 20, 21, 260, 278, 285, 292, 293, 310, 328, 335,
    342, 352, 354, 364, 369, 3, 328, 3, 4, 6, 12, 16, 18, 19, 20, 21, 278, 285, 292, 293, 328, 335,
    342, 352, 354, 369, 327, 4, 6, 12, 21, 278, 285, 292, 335, 342, 5, 0, 1, 2, 5, 8, 28, 29, 41,
    306, 315, 336, 337, 376, 9,
];

/// Whether each inner symbol may derive no token.
#[rattlefmt::skip]
pub static EMPTY: [bool; 136] = [
    true, false, false, false, true, false, false, true, false, true, false, false, false, false,
    false, true, true, false, false, false, false, false, true, true, false, false, false, false,
    false, false, false, false, false, false, false, false, false, false, false, false, false,
    false, false, false, false, false, false, false, false, false, false, true, false, false, false,
    false, false, false, false, false, false, false, false, false, false, false, false, true, true,
    true, true, true, true, true, true, true, true, true, true, true, true, true, true, false, true,
    true, false, true, false, false, true, true, true, true, false, true, false, true, true, true,
    false, true, true, false, true, false, true, false, true, false, true, false, false, true, true,
    true, true, true, false, false, false, false, false, false, false, true, true, false, true,
    true, false, true, false, false, true, true,
];

/// A number that falls along a derivation of each inner symbol.
#[rattlefmt::skip]
pub static HEIGHT: [u16; 136] = [
    1, 2, 0, 2, 1, 0, 2, 1, 0, 1, 2, 0, 1, 2, 0, 1, 1, 2, 1, 1, 0, 0, 1, 2, 3, 3, 3, 2, 10, 9, 8, 7,
    6, 5, 4, 3, 2, 1, 0, 0, 1, 4, 9, 8, 7, 6, 5, 4, 0, 4, 4, 2, 3, 3, 3, 0, 2, 0, 2, 0, 3, 3, 4, 3,
    3, 2, 1, 1, 0, 0, 0, 0, 0, 0, 0, 0, 0, 0, 0, 0, 0, 0, 0, 0, 0, 0, 0, 0, 0, 0, 0, 0, 0, 0, 0, 0,
    11, 0, 0, 0, 0, 0, 0, 0, 0, 0, 0, 0, 0, 0, 0, 0, 0, 0, 0, 0, 0, 0, 0, 0, 3, 3, 3, 3, 3, 0, 0, 1,
    0, 0, 1, 0, 2, 0, 0, 0,
];

/// A number that falls to each symbol that may begin an inner one.
#[rattlefmt::skip]
pub static RANK: [u16; 136] = [
    9, 7, 0, 0, 1, 0, 0, 1, 0, 1, 1, 0, 1, 2, 0, 2, 3, 1, 1, 0, 3, 2, 2, 4, 5, 3, 2, 4, 13, 12, 11,
    10, 9, 8, 7, 6, 5, 4, 3, 0, 6, 5, 9, 8, 7, 6, 5, 4, 0, 4, 1, 3, 5, 5, 5, 0, 5, 0, 4, 0, 8, 3, 0,
    2, 0, 1, 0, 1, 8, 1, 0, 0, 0, 0, 0, 0, 0, 0, 0, 0, 0, 0, 1, 0, 2, 2, 0, 0, 0, 0, 1, 0, 0, 0, 3,
    1, 0, 0, 0, 1, 0, 0, 1, 0, 1, 0, 1, 0, 1, 0, 1, 0, 0, 1, 0, 0, 0, 0, 0, 0, 6, 6, 6, 6, 6, 0, 6,
    4, 5, 14, 3, 9, 7, 0, 0, 0,
];
