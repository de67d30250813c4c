ghost use Rattle.std.specs.Prelude.{◌≡◌, ◌∷◌, ◌++◌, [], None, OnOk};
ghost use Rattle.std.specs.Option.{option_to_list};

use element_store::{
    BinaryOp, Items, Kind, Marks, Name, Role, Segments, Text, UnaryOp, Visibility,
};
use linker_base::NoMemory;
use std::alloc::Global;
use std::marker::Model;

/// A list that grows and shrinks at its end, and can be taken apart. Contracts see the list of its
/// items, in order. Many have one item, for which there is room for one.
#[derive(Drop)]
pub struct Row<T> {
    items: Vec<T>,
}

impl<T> Model for Row<T> {
    ghost use Rattle.std.specs.Prelude.{List};

    ghost Value = { List T };

    ghost view = { λ r. r.items.items };
}

impl<T> Row<T> {
    /// An empty row, which takes no memory.
    pub fn new(alloc: Global) -> Self
        ensures { result ≡ [] }
    {
        Row {
            items: Vec::new(alloc),
        }
    }

    /// Lends the items, in order.
    pub fn as_slice(&self) -> &[T]
        ensures { result.now ≡ self.now }
    {
        &self.items
    }

    /// The items by themselves, in order.
    pub fn into_vec(self) -> Vec<T>
        ensures { result.items ≡ self }
    {
        self.items
    }

    /// Takes the last item.
    pub fn pop(&mut self) -> Option<T>
        ensures rest { self.old ≡ self.new ++ option_to_list result }
        ensures none { result ≡ None → self.old ≡ [] }
    {
        self.items.pop()
    }
}

impl<T: Drop> Row<T> {
    /// Appends one item.
    pub fn push(&mut self, item: T) -> Result<(), NoMemory>
        ensures { OnOk result (self.new ≡ self.old ++ item ∷ []) }
    {
        if self.items.is_empty() {
            self.items.reserve_exact(1)?;
        }
        self.items.push(item)?;
        Ok(())
    }
}

/// A qualified name or chain as it is read, before it is a reference.
#[derive(Drop)]
pub struct Path {
    /// The place of its first token.
    pub place: u32,
    /// Whether `$::` stands before it.
    pub absolute: bool,
    /// The names between `::`.
    pub path: Segments,
    /// The names after each `.`.
    pub chain: Segments,
}

/// A name and what it is for.
#[derive(Drop)]
pub struct Mention {
    pub role: Role,
    pub path: Path,
}

/// A node as it is read.
#[derive(Drop)]
pub enum What {
    Integer(i64),
    Boolean(bool),
    /// A string by its meaning.
    Text(Text),
    Null,
    /// A name, whose reference has no number yet.
    Named(Path),
    Unary(UnaryOp),
    Binary(BinaryOp),
    /// `if`, behind its three operands.
    If,
    /// `*` where it is no operator.
    Star,
    /// `all` of an import.
    All,
    /// `**` of an import.
    Deep,
}

/// A node and its place.
#[derive(Drop)]
pub struct DraftNode {
    pub what: What,
    pub place: u32,
}

/// An expression as it is read.
#[derive(Drop)]
pub struct DraftExpr {
    /// The place of its first token.
    pub start: u32,
    pub nodes: Row<DraftNode>,
}

/// An element, whose references stand in lists of its own.
#[derive(Drop)]
pub struct Draft {
    pub kind: Kind,
    /// The number of the element around it. The root has none.
    pub owner: Option<u32>,
    pub short: Option<Name>,
    pub name: Option<Name>,
    pub marks: Marks,
    /// What a comment says, without its marks.
    pub body: Option<Text>,
    /// The locale of a comment.
    pub locale: Option<Text>,
    /// The names read in it directly.
    pub own: Row<Path>,
    /// Those of its specialisations.
    pub specs: Row<Mention>,
    /// The bounds of its multiplicity, the upper one last.
    pub bounds: Row<DraftNode>,
    /// The expression of its value.
    pub value: Option<DraftExpr>,
    /// The expression that its body ends with.
    pub result: Option<DraftExpr>,
    /// Those of the aliases and imports of its body.
    pub inner: Row<Mention>,
    /// Its members and imports.
    pub items: Items,
}

/// What a member stands for.
#[derive(Clone, Copy, Debug, PartialEq, Eq)]
pub enum DraftTarget {
    /// The element with this number.
    Owned(u32),
    /// The name at this place in the owner's `inner`.
    Alias(u32),
}

/// A member. Its number is final.
#[derive(Drop)]
pub struct DraftMember {
    pub owner: u32,
    pub target: DraftTarget,
    pub visibility: Visibility,
    pub place: u32,
    /// An alias's own.
    pub short: Option<Name>,
    /// An alias's own.
    pub name: Option<Name>,
}

/// An import. Its number is final.
#[derive(Drop)]
pub struct DraftImport {
    pub owner: u32,
    /// The place of its name in the owner's `inner`.
    pub at: u32,
    /// The place of its name.
    pub place: u32,
    pub visibility: Visibility,
    pub star: bool,
    pub recursive: bool,
    pub all: bool,
}

/// An operator and its place.
#[derive(Clone, Copy, Debug, PartialEq, Eq)]
pub struct Waiting {
    pub operator: crate::action::Operator,
    pub place: u32,
}

/// A visibility word and its place.
#[derive(Clone, Copy, Debug, PartialEq, Eq)]
pub struct Seen {
    pub place: u32,
    pub visibility: Visibility,
}

/// What was read of the innermost element, list or expression that is open.
#[derive(Drop)]
pub struct Reading {
    pub nodes: Row<DraftNode>,
    /// A sign that waits for its last operand.
    pub operator: Option<Waiting>,
    /// The place of the expression's first token.
    pub start: Option<u32>,
    /// The place of a `$` that waits for its name.
    pub root: Option<u32>,
    pub short: Option<Name>,
    pub name: Option<Name>,
}
