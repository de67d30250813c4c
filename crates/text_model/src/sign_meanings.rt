//! Made by `tools/make_table.py`: change tools/actions, not this file.

use crate::action::{Leaf, Meaning, Operator};
use element_store::BinaryOp;

macro_rules! items {
    ($($item:expr,)*) => { [$($item),*] };
}

/// What each means, by its number in its list.
pub static SIGN_MEANINGS: [Meaning; 43] = items! {
    // {
    Meaning::Nothing,
    // }
    Meaning::Nothing,
    // [
    Meaning::Nothing,
    // ]
    Meaning::Nothing,
    // (
    Meaning::Nothing,
    // )
    Meaning::Nothing,
    // <
    Meaning::Operator(Operator::Binary(BinaryOp::Less)),
    // >
    Meaning::Operator(Operator::Binary(BinaryOp::Greater)),
    // ;
    Meaning::Nothing,
    // ,
    Meaning::Nothing,
    // .
    Meaning::Nothing,
    // ..
    Meaning::Nothing,
    // :
    Meaning::Nothing,
    // ::
    Meaning::Nothing,
    // :>
    Meaning::Nothing,
    // :>>
    Meaning::Nothing,
    // ::>
    Meaning::Nothing,
    // =
    Meaning::Nothing,
    // ==
    Meaning::Operator(Operator::Binary(BinaryOp::Equal)),
    // !=
    Meaning::Operator(Operator::Binary(BinaryOp::NotEqual)),
    // ===
    Meaning::Nothing,
    // !==
    Meaning::Nothing,
    // <=
    Meaning::Operator(Operator::Binary(BinaryOp::AtMost)),
    // >=
    Meaning::Operator(Operator::Binary(BinaryOp::AtLeast)),
    // +
    Meaning::Operator(Operator::Binary(BinaryOp::Add)),
    // -
    Meaning::Operator(Operator::Binary(BinaryOp::Subtract)),
    // *
    Meaning::Operator(Operator::Binary(BinaryOp::Multiply)),
    // **
    Meaning::Leaf(Leaf::Deep),
    // /
    Meaning::Operator(Operator::Binary(BinaryOp::Divide)),
    // %
    Meaning::Operator(Operator::Binary(BinaryOp::Remainder)),
    // &
    Meaning::Operator(Operator::Binary(BinaryOp::Amp)),
    // |
    Meaning::Operator(Operator::Binary(BinaryOp::Bar)),
    // ~
    Meaning::Nothing,
    // ^
    Meaning::Nothing,
    // @
    Meaning::Nothing,
    // @@
    Meaning::Nothing,
    // #
    Meaning::Nothing,
    // $
    Meaning::Absolute,
    // ?
    Meaning::Nothing,
    // ??
    Meaning::Nothing,
    // ->
    Meaning::Nothing,
    // =>
    Meaning::Nothing,
    // :=
    Meaning::Nothing,
};
