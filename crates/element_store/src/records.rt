ghost use Rattle.std.specs.Prelude.{◌≡◌};
ghost use Rattle.element_store.specs.Model.{root_element};

use crate::expression::{Bounds, Expr};
use crate::kind::{Kind, Marks, Visibility};
use crate::lists::Segments;
use crate::outcome::Role;
use crate::texts::{Name, Text};

/// An element of a file (KerML 8.3.2.1, Elements).
#[derive(Drop)]
pub struct Element {
    /// What it is.
    pub kind: Kind,
    /// The number of the element in whose body it stands; none for the root.
    pub owner: Option<u32>,
    /// Its declared short name.
    pub short: Option<Name>,
    /// Its declared name.
    pub name: Option<Name>,
    /// The words written before its own.
    pub marks: Marks,
    /// What a comment or documentation says, byte for byte.
    pub body: Option<Text>,
    /// What is written after `locale`, without quotes and escapes.
    pub locale: Option<Text>,
    /// The bounds of its multiplicity.
    pub bounds: Option<Bounds>,
    /// The value that a feature is given.
    pub value: Option<Expr>,
    /// The result expression of a calculation or function.
    pub result: Option<Expr>,
}

impl Element {
    /// The root of a file: it has no owner, no names and no words.
    pub fn root() -> Element
        ensures { result ≡ root_element }
    {
        Element {
            kind: Kind::Root,
            owner: None,
            short: None,
            name: None,
            marks: Marks::none(),
            body: None,
            locale: None,
            bounds: None,
            value: None,
            result: None,
        }
    }
}

/// What a member stands for.
#[derive(Clone, Copy, Debug, PartialEq, Eq)]
pub enum Target {
    /// The element with this number, which it owns.
    Owned(u32),
    /// What the reference with this number leads to.
    Alias(u32),
}

/// A membership: that a namespace has an element, under which names, and who sees it (KerML 8.3.2.4,
/// Namespaces).
#[derive(Drop)]
pub struct Member {
    /// The number of the namespace.
    pub owner: u32,
    /// What it stands for.
    pub target: Target,
    /// The declared short name: the element's, or the alias's own.
    pub short: Option<Name>,
    /// The declared name: the element's, or the alias's own.
    pub name: Option<Name>,
    /// Who sees it; `Public` where no word is written.
    pub visibility: Visibility,
}

/// A reference: a name that is written in place of an element (KerML 8.2.3.5, name resolution).
#[derive(Drop)]
pub struct Reference {
    /// What it is for.
    pub role: Role,
    /// The number of the element at which its lookup begins.
    pub context: u32,
    /// Whether `$::` stands before it: its lookup begins at the roots of all files.
    pub absolute: bool,
    /// The segments of its qualified name. There is at least one.
    pub path: Segments,
    /// The steps of a feature chain, each behind a `.`.
    pub chain: Segments,
}

/// An import: what a namespace brings in from elsewhere (KerML 8.3.2.4, Namespaces).
#[derive(Drop)]
pub struct Import {
    /// The number of the namespace.
    pub owner: u32,
    /// The number of the reference that says what is imported.
    pub reference: u32,
    /// Whether it ends with `::*`: the members of the namespace named are imported.
    pub star: bool,
    /// Whether it ends with `::**`: also those of the namespaces in it.
    pub recursive: bool,
    /// Whether `all` is written: also what isn't public.
    pub all: bool,
    /// Who sees what it brings; `Private` where no word is written.
    pub visibility: Visibility,
}
