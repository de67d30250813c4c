use crate::sketch::{ElementRow, MemberRow, Sketch};
use crate::sketches::{PLAIN, PUBLIC};
use element_store::{Item, Kind, Target, Visibility};

/// A library file: a private member, two members of one name, a private package, and a path that ends at no
/// type.
/// ```text
/// package Parts {
///     private part def Part;
///     part def Part;
///     part def Part;
/// }
/// package Items {
///     package Item;
/// }
/// private package Ports {
///     part def Port;
/// }
/// ```
pub static LIBRARY: Sketch = Sketch {
    elements: &[
        ElementRow {
            kind: Kind::Root,
            owner: None,
            ..PLAIN
        },
        ElementRow {
            kind: Kind::Package,
            owner: Some(0),
            name: b"Parts",
            ..PLAIN
        },
        ElementRow {
            kind: Kind::PartDef,
            owner: Some(1),
            name: b"Part",
            ..PLAIN
        },
        ElementRow {
            kind: Kind::PartDef,
            owner: Some(1),
            name: b"Part",
            ..PLAIN
        },
        ElementRow {
            kind: Kind::PartDef,
            owner: Some(1),
            name: b"Part",
            ..PLAIN
        },
        ElementRow {
            kind: Kind::Package,
            owner: Some(0),
            name: b"Items",
            ..PLAIN
        },
        ElementRow {
            kind: Kind::Package,
            owner: Some(5),
            name: b"Item",
            ..PLAIN
        },
        ElementRow {
            kind: Kind::Package,
            owner: Some(0),
            name: b"Ports",
            ..PLAIN
        },
        ElementRow {
            kind: Kind::PartDef,
            owner: Some(7),
            name: b"Port",
            ..PLAIN
        },
    ],
    items: &[
        &[Item::Member(0), Item::Member(4), Item::Member(6)],
        &[Item::Member(1), Item::Member(2), Item::Member(3)],
        &[],
        &[],
        &[],
        &[Item::Member(5)],
        &[],
        &[Item::Member(7)],
        &[],
    ],
    members: &[
        MemberRow {
            owner: 0,
            target: Target::Owned(1),
            name: b"Parts",
            ..PUBLIC
        },
        MemberRow {
            owner: 1,
            target: Target::Owned(2),
            name: b"Part",
            visibility: Visibility::Private,
            ..PUBLIC
        },
        MemberRow {
            owner: 1,
            target: Target::Owned(3),
            name: b"Part",
            ..PUBLIC
        },
        MemberRow {
            owner: 1,
            target: Target::Owned(4),
            name: b"Part",
            ..PUBLIC
        },
        MemberRow {
            owner: 0,
            target: Target::Owned(5),
            name: b"Items",
            ..PUBLIC
        },
        MemberRow {
            owner: 5,
            target: Target::Owned(6),
            name: b"Item",
            ..PUBLIC
        },
        MemberRow {
            owner: 0,
            target: Target::Owned(7),
            name: b"Ports",
            visibility: Visibility::Private,
            ..PUBLIC
        },
        MemberRow {
            owner: 7,
            target: Target::Owned(8),
            name: b"Port",
            ..PUBLIC
        },
    ],
    references: &[],
    imports: &[],
    member_places: &[0, 20, 47, 66, 83, 103, 119, 147],
    reference_places: &[],
    value_places: &[&[], &[], &[], &[], &[], &[], &[], &[], &[]],
    result_places: &[&[], &[], &[], &[], &[], &[], &[], &[], &[]],
};

/// An enumeration definition with one value.
/// ```text
/// enum def Color { enum red; }
/// ```
pub static COLORS: Sketch = Sketch {
    elements: &[
        ElementRow {
            kind: Kind::Root,
            owner: None,
            ..PLAIN
        },
        ElementRow {
            kind: Kind::EnumDef,
            owner: Some(0),
            name: b"Color",
            ..PLAIN
        },
        ElementRow {
            kind: Kind::Enumeration,
            owner: Some(1),
            name: b"red",
            ..PLAIN
        },
    ],
    items: &[&[Item::Member(0)], &[Item::Member(1)], &[]],
    members: &[
        MemberRow {
            owner: 0,
            target: Target::Owned(1),
            name: b"Color",
            ..PUBLIC
        },
        MemberRow {
            owner: 1,
            target: Target::Owned(2),
            name: b"red",
            ..PUBLIC
        },
    ],
    references: &[],
    imports: &[],
    member_places: &[0, 17],
    reference_places: &[],
    value_places: &[&[], &[], &[]],
    result_places: &[&[], &[], &[]],
};
