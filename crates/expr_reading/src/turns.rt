use demand_core::Step;
use element_store::{BinaryOp, UnaryOp};
use value_model::{Value, ValueAnswer, ValueKey};

/// What is to follow the value of a part, with the number of the node that it belongs to.
#[derive(Drop)]
pub(crate) enum Pending {
    /// An operator of one operand.
    Operand(u32, UnaryOp),
    /// An operator of two operands, after the first one.
    First(u32, BinaryOp),
    /// An operator of two operands, after the second one, with the value of the first.
    Second(u32, BinaryOp, Value),
    /// A choice, after its condition, and where the part ends that is read if it is true.
    Condition(u32, u32),
}

/// What is to come.
#[derive(Drop)]
pub(crate) enum Turn {
    /// To read the part that ends before this node.
    Read(u32),
    /// To go on with a value.
    Have(Value),
    /// Nothing: the whole expression gives this.
    Ended(Step<ValueKey, ValueAnswer>),
}
