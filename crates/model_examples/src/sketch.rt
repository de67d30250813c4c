use element_store::{BinaryOp, Import, Item, Kind, Role, Target, Visibility};

/// A node of a value.
#[derive(Clone, Copy)]
pub enum Word {
    /// A literal integer.
    Integer(i64),
    /// A name: the number of its reference.
    Named(u32),
    /// An operator of two operands.
    Binary(BinaryOp),
}

/// An element, as a row of a table. Where it has no name, or no text, no bytes stand.
#[derive(Clone, Copy)]
pub struct ElementRow {
    pub kind: Kind,
    pub owner: Option<u32>,
    pub short: &'static [u8],
    pub name: &'static [u8],
    pub body: &'static [u8],
    /// Whether `default` is written.
    pub default: bool,
    /// The upper bound of its multiplicity, which then has no lower one.
    pub upper: Option<i64>,
    /// Its value; where it has none, no words stand.
    pub value: &'static [Word],
}

/// A member, as a row of a table.
#[derive(Clone, Copy)]
pub struct MemberRow {
    pub owner: u32,
    pub target: Target,
    pub short: &'static [u8],
    pub name: &'static [u8],
    pub visibility: Visibility,
}

/// A reference, as a row of a table.
#[derive(Clone, Copy)]
pub struct ReferenceRow {
    pub role: Role,
    pub context: u32,
    pub path: &'static [&'static [u8]],
    pub chain: &'static [&'static [u8]],
}

/// The lists of a model, as tables.
pub struct Sketch {
    pub elements: &'static [ElementRow],
    pub items: &'static [&'static [Item]],
    pub members: &'static [MemberRow],
    pub references: &'static [ReferenceRow],
    pub imports: &'static [Import],
    pub member_places: &'static [u32],
    pub reference_places: &'static [u32],
    pub value_places: &'static [&'static [u32]],
    pub result_places: &'static [&'static [u32]],
}
