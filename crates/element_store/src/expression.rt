ghost use Rattle.std.specs.Prelude.{◌≡◌, ◌∷◌, ◌++◌, [], OnOk, OnErr};

use crate::texts::Text;
use linker_base::{Listing, NoMemory};
use std::alloc::Global;
use std::marker::Model;

/// An operator of one operand.
#[derive(Clone, Copy, Debug, PartialEq, Eq)]
pub enum UnaryOp {
    /// `-`.
    Minus,
    /// `+`.
    Plus,
    /// `not`.
    Not,
}

/// An operator of two operands.
#[derive(Clone, Copy, Debug, PartialEq, Eq)]
pub enum BinaryOp {
    /// `implies`.
    Implies,
    /// `or`.
    Or,
    /// `|`.
    Bar,
    /// `xor`.
    Xor,
    /// `and`.
    And,
    /// `&`.
    Amp,
    /// `==`.
    Equal,
    /// `!=`.
    NotEqual,
    /// `<`.
    Less,
    /// `>`.
    Greater,
    /// `<=`.
    AtMost,
    /// `>=`.
    AtLeast,
    /// `+`.
    Add,
    /// `-`.
    Subtract,
    /// `*`.
    Multiply,
    /// `/`.
    Divide,
    /// `%`.
    Remainder,
}

/// A node of an expression. An operator stands behind its operands.
#[derive(Drop)]
pub enum Node {
    /// A literal integer.
    Integer(i64),
    /// `true` or `false`.
    Boolean(bool),
    /// A literal string, without quotes and escapes.
    Text(Text),
    /// `null`.
    Null,
    /// A name: the number of its reference.
    Named(u32),
    /// An operator of the operand before it.
    Unary(UnaryOp),
    /// An operator of the two operands before it.
    Binary(BinaryOp),
    /// `if`: the condition, what stands where it is true, and what stands where it is false, in this
    /// order before it.
    If,
}

/// An expression as a list of its nodes in postfix order (KerML 8.3.4.8, Expressions). Contracts see
/// the list.
///
/// Each one in a model is whole: its nodes leave one value.
#[derive(Drop)]
pub struct Expr {
    nodes: Listing<Node>,
}

impl Model for Expr {
    ghost use Rattle.std.specs.Prelude.{List};
    ghost use Rattle.element_store.specs.declared.expression.Node.{Node};

    ghost Value = { List Node };

    ghost view = { λ e. e.nodes };
}

impl Expr {
    /// No nodes, which takes no memory.
    pub fn new(alloc: Global) -> Self
        ensures { result ≡ [] }
    {
        Expr {
            nodes: Listing::new(alloc),
        }
    }

    /// Appends one node. After `NoMemory` the list is as it was.
    pub fn push(&mut self, node: Node) -> Result<(), NoMemory>
        ensures ok { OnOk result (self.new ≡ self.old ++ node ∷ []) }
        ensures err { OnErr result (self.new ≡ self.old) }
    {
        self.nodes.push(node)
    }

    /// Lends the nodes, in postfix order.
    pub fn as_slice(&self) -> &[Node]
        ensures { result.now ≡ self.now }
    {
        self.nodes.as_slice()
    }
}

/// An end of a multiplicity.
#[derive(Clone, Copy, Debug, PartialEq, Eq)]
pub enum Limit {
    /// A literal integer.
    Number(i64),
    /// A name: the number of its reference.
    Named(u32),
    /// `*`.
    Star,
}

/// The bounds of a multiplicity (KerML 8.3.4.11, Multiplicities). `[5]` has an upper one alone, and so
/// has `[*]`.
#[derive(Clone, Copy, Debug, PartialEq, Eq)]
pub struct Bounds {
    /// What stands before `..`.
    pub lower: Option<Limit>,
    /// What stands behind `..`, or alone.
    pub upper: Option<Limit>,
}
