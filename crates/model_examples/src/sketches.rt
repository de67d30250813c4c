use crate::sketch::{ElementRow, MemberRow, ReferenceRow, Sketch, Word};
use element_store::{BinaryOp, Import, Item, Kind, Role, Target, Visibility};

// A row that has what a row need not say.
pub const PLAIN: ElementRow = ElementRow {
    kind: Kind::Root,
    owner: None,
    short: &[],
    name: &[],
    body: &[],
    default: false,
    upper: None,
    value: &[],
};

pub const PUBLIC: MemberRow = MemberRow {
    owner: 0,
    target: Target::Owned(0),
    short: &[],
    name: &[],
    visibility: Visibility::Public,
};

/// A package of part definitions, as it is printed.
/// ```text
/// package Vehicles {
///     doc /* A small car model. */
///     private import ScalarValues::*;
///     part def Engine {
///         attribute power : Integer = 90;
///     }
///     part def Vehicle {
///         attribute mass : Integer default = 1000;
///         part engine : Engine [1];
///         attribute total : Integer = mass + engine.power;
///     }
///     part def Car :> Vehicle {
///         attribute :>> mass = 1200;
///         part wheels [4] : Wheel;
///     }
///     part def Wheel;
/// }
/// ```
pub static VEHICLES: Sketch = Sketch {
    elements: &[
        ElementRow {
            kind: Kind::Root,
            owner: None,
            ..PLAIN
        },
        ElementRow {
            kind: Kind::Package,
            owner: Some(0),
            name: b"Vehicles",
            ..PLAIN
        },
        ElementRow {
            kind: Kind::Documentation,
            owner: Some(1),
            body: b" A small car model. ",
            ..PLAIN
        },
        ElementRow {
            kind: Kind::PartDef,
            owner: Some(1),
            name: b"Engine",
            ..PLAIN
        },
        ElementRow {
            kind: Kind::Attribute,
            owner: Some(3),
            name: b"power",
            value: &[Word::Integer(90)],
            ..PLAIN
        },
        ElementRow {
            kind: Kind::PartDef,
            owner: Some(1),
            name: b"Vehicle",
            ..PLAIN
        },
        ElementRow {
            kind: Kind::Attribute,
            owner: Some(5),
            name: b"mass",
            default: true,
            value: &[Word::Integer(1000)],
            ..PLAIN
        },
        ElementRow {
            kind: Kind::Part,
            owner: Some(5),
            name: b"engine",
            upper: Some(1),
            ..PLAIN
        },
        ElementRow {
            kind: Kind::Attribute,
            owner: Some(5),
            name: b"total",
            value: &[Word::Named(5), Word::Named(6), Word::Binary(BinaryOp::Add)],
            ..PLAIN
        },
        ElementRow {
            kind: Kind::PartDef,
            owner: Some(1),
            name: b"Car",
            ..PLAIN
        },
        ElementRow {
            kind: Kind::Attribute,
            owner: Some(9),
            value: &[Word::Integer(1200)],
            ..PLAIN
        },
        ElementRow {
            kind: Kind::Part,
            owner: Some(9),
            name: b"wheels",
            upper: Some(4),
            ..PLAIN
        },
        ElementRow {
            kind: Kind::PartDef,
            owner: Some(1),
            name: b"Wheel",
            ..PLAIN
        },
    ],
    items: &[
        &[Item::Member(0)],
        &[
            Item::Member(1),
            Item::Import(0),
            Item::Member(2),
            Item::Member(4),
            Item::Member(8),
            Item::Member(11),
        ],
        &[],
        &[Item::Member(3)],
        &[],
        &[Item::Member(5), Item::Member(6), Item::Member(7)],
        &[],
        &[],
        &[],
        &[Item::Member(9), Item::Member(10)],
        &[],
        &[],
        &[],
    ],
    members: &[
        MemberRow {
            owner: 0,
            target: Target::Owned(1),
            name: b"Vehicles",
            ..PUBLIC
        },
        MemberRow {
            owner: 1,
            target: Target::Owned(2),
            ..PUBLIC
        },
        MemberRow {
            owner: 1,
            target: Target::Owned(3),
            name: b"Engine",
            ..PUBLIC
        },
        MemberRow {
            owner: 3,
            target: Target::Owned(4),
            name: b"power",
            ..PUBLIC
        },
        MemberRow {
            owner: 1,
            target: Target::Owned(5),
            name: b"Vehicle",
            ..PUBLIC
        },
        MemberRow {
            owner: 5,
            target: Target::Owned(6),
            name: b"mass",
            ..PUBLIC
        },
        MemberRow {
            owner: 5,
            target: Target::Owned(7),
            name: b"engine",
            ..PUBLIC
        },
        MemberRow {
            owner: 5,
            target: Target::Owned(8),
            name: b"total",
            ..PUBLIC
        },
        MemberRow {
            owner: 1,
            target: Target::Owned(9),
            name: b"Car",
            ..PUBLIC
        },
        MemberRow {
            owner: 9,
            target: Target::Owned(10),
            ..PUBLIC
        },
        MemberRow {
            owner: 9,
            target: Target::Owned(11),
            name: b"wheels",
            ..PUBLIC
        },
        MemberRow {
            owner: 1,
            target: Target::Owned(12),
            name: b"Wheel",
            ..PUBLIC
        },
    ],
    references: &[
        ReferenceRow {
            role: Role::Import,
            context: 1,
            path: &[b"ScalarValues"],
            chain: &[],
        },
        ReferenceRow {
            role: Role::Typing,
            context: 4,
            path: &[b"Integer"],
            chain: &[],
        },
        ReferenceRow {
            role: Role::Typing,
            context: 6,
            path: &[b"Integer"],
            chain: &[],
        },
        ReferenceRow {
            role: Role::Typing,
            context: 7,
            path: &[b"Engine"],
            chain: &[],
        },
        ReferenceRow {
            role: Role::Typing,
            context: 8,
            path: &[b"Integer"],
            chain: &[],
        },
        ReferenceRow {
            role: Role::Value,
            context: 8,
            path: &[b"mass"],
            chain: &[],
        },
        ReferenceRow {
            role: Role::Value,
            context: 8,
            path: &[b"engine"],
            chain: &[b"power"],
        },
        ReferenceRow {
            role: Role::Subclass,
            context: 9,
            path: &[b"Vehicle"],
            chain: &[],
        },
        ReferenceRow {
            role: Role::Redefinition,
            context: 10,
            path: &[b"mass"],
            chain: &[],
        },
        ReferenceRow {
            role: Role::Typing,
            context: 11,
            path: &[b"Wheel"],
            chain: &[],
        },
    ],
    imports: &[Import {
        owner: 1,
        reference: 0,
        star: true,
        recursive: false,
        all: false,
        visibility: Visibility::Private,
    }],
    member_places: &[0, 23, 92, 118, 160, 187, 236, 270, 329, 363, 398, 433],
    reference_places: &[71, 136, 204, 250, 288, 298, 305, 345, 377, 416],
    value_places: &[
        &[],
        &[],
        &[],
        &[],
        &[146],
        &[],
        &[222],
        &[],
        &[298, 305, 303],
        &[],
        &[384],
        &[],
        &[],
    ],
    result_places: &[
        &[],
        &[],
        &[],
        &[],
        &[],
        &[],
        &[],
        &[],
        &[],
        &[],
        &[],
        &[],
        &[],
    ],
};

/// A short name, names and aliases that bear the same words; one alias has its name twice.
/// ```text
/// package a;
/// part def <a> b;
/// alias <b> a for b;
/// alias <c> c for b;
/// ```
pub static NAMES: Sketch = Sketch {
    elements: &[
        ElementRow {
            kind: Kind::Root,
            owner: None,
            ..PLAIN
        },
        ElementRow {
            kind: Kind::Package,
            owner: Some(0),
            name: b"a",
            ..PLAIN
        },
        ElementRow {
            kind: Kind::PartDef,
            owner: Some(0),
            short: b"a",
            name: b"b",
            ..PLAIN
        },
    ],
    items: &[
        &[
            Item::Member(0),
            Item::Member(1),
            Item::Member(2),
            Item::Member(3),
        ],
        &[],
        &[],
    ],
    members: &[
        MemberRow {
            owner: 0,
            target: Target::Owned(1),
            name: b"a",
            ..PUBLIC
        },
        MemberRow {
            owner: 0,
            target: Target::Owned(2),
            short: b"a",
            name: b"b",
            ..PUBLIC
        },
        MemberRow {
            owner: 0,
            target: Target::Alias(0),
            short: b"b",
            name: b"a",
            ..PUBLIC
        },
        MemberRow {
            owner: 0,
            target: Target::Alias(1),
            short: b"c",
            name: b"c",
            ..PUBLIC
        },
    ],
    references: &[
        ReferenceRow {
            role: Role::Alias,
            context: 0,
            path: &[b"b"],
            chain: &[],
        },
        ReferenceRow {
            role: Role::Alias,
            context: 0,
            path: &[b"b"],
            chain: &[],
        },
    ],
    imports: &[],
    member_places: &[0, 11, 27, 46],
    reference_places: &[43, 62],
    value_places: &[&[], &[], &[]],
    result_places: &[&[], &[], &[]],
};

/// Imports in two namespaces, and features that redefine: one twice, one in another body, one not at all.
/// ```text
/// package P {
///     import A::*;
///     package Q {
///         import B::C;
///     }
///     import D::**;
///     part def T :> S {
///         part :>> x, y;
///         part z :> x;
///         part w :>> z;
///     }
///     part v :>> T::w;
/// }
/// ```
pub static REDEFINING: Sketch = Sketch {
    elements: &[
        ElementRow {
            kind: Kind::Root,
            owner: None,
            ..PLAIN
        },
        ElementRow {
            kind: Kind::Package,
            owner: Some(0),
            name: b"P",
            ..PLAIN
        },
        ElementRow {
            kind: Kind::Package,
            owner: Some(1),
            name: b"Q",
            ..PLAIN
        },
        ElementRow {
            kind: Kind::PartDef,
            owner: Some(1),
            name: b"T",
            ..PLAIN
        },
        ElementRow {
            kind: Kind::Part,
            owner: Some(3),
            ..PLAIN
        },
        ElementRow {
            kind: Kind::Part,
            owner: Some(3),
            name: b"z",
            ..PLAIN
        },
        ElementRow {
            kind: Kind::Part,
            owner: Some(3),
            name: b"w",
            ..PLAIN
        },
        ElementRow {
            kind: Kind::Part,
            owner: Some(1),
            name: b"v",
            ..PLAIN
        },
    ],
    items: &[
        &[Item::Member(0)],
        &[
            Item::Import(0),
            Item::Member(1),
            Item::Import(2),
            Item::Member(2),
            Item::Member(6),
        ],
        &[Item::Import(1)],
        &[Item::Member(3), Item::Member(4), Item::Member(5)],
        &[],
        &[],
        &[],
        &[],
    ],
    members: &[
        MemberRow {
            owner: 0,
            target: Target::Owned(1),
            name: b"P",
            ..PUBLIC
        },
        MemberRow {
            owner: 1,
            target: Target::Owned(2),
            name: b"Q",
            ..PUBLIC
        },
        MemberRow {
            owner: 1,
            target: Target::Owned(3),
            name: b"T",
            ..PUBLIC
        },
        MemberRow {
            owner: 3,
            target: Target::Owned(4),
            ..PUBLIC
        },
        MemberRow {
            owner: 3,
            target: Target::Owned(5),
            name: b"z",
            ..PUBLIC
        },
        MemberRow {
            owner: 3,
            target: Target::Owned(6),
            name: b"w",
            ..PUBLIC
        },
        MemberRow {
            owner: 1,
            target: Target::Owned(7),
            name: b"v",
            ..PUBLIC
        },
    ],
    references: &[
        ReferenceRow {
            role: Role::Import,
            context: 1,
            path: &[b"A"],
            chain: &[],
        },
        ReferenceRow {
            role: Role::Import,
            context: 1,
            path: &[b"D"],
            chain: &[],
        },
        ReferenceRow {
            role: Role::Import,
            context: 2,
            path: &[b"B", b"C"],
            chain: &[],
        },
        ReferenceRow {
            role: Role::Subclass,
            context: 3,
            path: &[b"S"],
            chain: &[],
        },
        ReferenceRow {
            role: Role::Redefinition,
            context: 4,
            path: &[b"x"],
            chain: &[],
        },
        ReferenceRow {
            role: Role::Redefinition,
            context: 4,
            path: &[b"y"],
            chain: &[],
        },
        ReferenceRow {
            role: Role::Subsetting,
            context: 5,
            path: &[b"x"],
            chain: &[],
        },
        ReferenceRow {
            role: Role::Redefinition,
            context: 6,
            path: &[b"z"],
            chain: &[],
        },
        ReferenceRow {
            role: Role::Redefinition,
            context: 7,
            path: &[b"T", b"w"],
            chain: &[],
        },
    ],
    imports: &[
        Import {
            owner: 1,
            reference: 0,
            star: true,
            recursive: false,
            all: false,
            visibility: Visibility::Private,
        },
        Import {
            owner: 2,
            reference: 2,
            star: false,
            recursive: false,
            all: false,
            visibility: Visibility::Private,
        },
        Import {
            owner: 1,
            reference: 1,
            star: false,
            recursive: true,
            all: false,
            visibility: Visibility::Private,
        },
    ],
    member_places: &[0, 33, 94, 120, 143, 164, 188],
    reference_places: &[23, 83, 60, 108, 129, 132, 153, 175, 199],
    value_places: &[&[], &[], &[], &[], &[], &[], &[], &[]],
    result_places: &[&[], &[], &[], &[], &[], &[], &[], &[]],
};
