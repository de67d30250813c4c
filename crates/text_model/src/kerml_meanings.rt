//! Made by `tools/make_table.py`: change tools/actions, not this file.

use crate::action::{Leaf, Mark, Meaning, Operator};
use element_store::{BinaryOp, Direction, Kind, PartOf, Visibility};

macro_rules! items {
    ($($item:expr,)*) => { [$($item),*] };
}

/// What each means, by its number in its list.
pub static KERML_MEANINGS: [Meaning; 102] = items! {
    // about
    Meaning::Nothing,
    // abstract
    Meaning::Mark(Mark::Abstract),
    // alias
    Meaning::Nothing,
    // all
    Meaning::Leaf(Leaf::All),
    // and
    Meaning::Operator(Operator::Binary(BinaryOp::And)),
    // as
    Meaning::Nothing,
    // assoc
    Meaning::Kind(Kind::Assoc),
    // behavior
    Meaning::Kind(Kind::Behavior),
    // binding
    Meaning::Nothing,
    // bool
    Meaning::Nothing,
    // by
    Meaning::Nothing,
    // chains
    Meaning::Nothing,
    // class
    Meaning::Kind(Kind::Class),
    // classifier
    Meaning::Kind(Kind::Classifier),
    // comment
    Meaning::Nothing,
    // composite
    Meaning::Mark(Mark::Composite),
    // conjugate
    Meaning::Nothing,
    // conjugates
    Meaning::Nothing,
    // conjugation
    Meaning::Nothing,
    // connector
    Meaning::Nothing,
    // const
    Meaning::Mark(Mark::Constant),
    // crosses
    Meaning::Nothing,
    // datatype
    Meaning::Kind(Kind::Datatype),
    // default
    Meaning::Mark(Mark::Default),
    // dependency
    Meaning::Nothing,
    // derived
    Meaning::Mark(Mark::Derived),
    // differences
    Meaning::Nothing,
    // disjoining
    Meaning::Nothing,
    // disjoint
    Meaning::Nothing,
    // doc
    Meaning::Nothing,
    // else
    Meaning::Nothing,
    // end
    Meaning::Mark(Mark::End),
    // expr
    Meaning::Nothing,
    // false
    Meaning::Leaf(Leaf::Boolean(false)),
    // feature
    Meaning::Kind(Kind::Feature),
    // featured
    Meaning::Nothing,
    // featuring
    Meaning::Nothing,
    // filter
    Meaning::Nothing,
    // first
    Meaning::Nothing,
    // flow
    Meaning::Nothing,
    // for
    Meaning::Nothing,
    // from
    Meaning::Nothing,
    // function
    Meaning::Kind(Kind::Function),
    // hastype
    Meaning::Nothing,
    // if
    Meaning::Operator(Operator::If),
    // implies
    Meaning::Operator(Operator::Binary(BinaryOp::Implies)),
    // import
    Meaning::Nothing,
    // in
    Meaning::Direction(Direction::In),
    // inout
    Meaning::Direction(Direction::InOut),
    // interaction
    Meaning::Nothing,
    // intersects
    Meaning::Nothing,
    // inv
    Meaning::Nothing,
    // inverse
    Meaning::Nothing,
    // inverting
    Meaning::Nothing,
    // istype
    Meaning::Nothing,
    // language
    Meaning::Nothing,
    // library
    Meaning::Mark(Mark::Library),
    // locale
    Meaning::Nothing,
    // member
    Meaning::Nothing,
    // meta
    Meaning::Nothing,
    // metaclass
    Meaning::Nothing,
    // metadata
    Meaning::Nothing,
    // multiplicity
    Meaning::Nothing,
    // namespace
    Meaning::Nothing,
    // new
    Meaning::Nothing,
    // nonunique
    Meaning::Mark(Mark::Nonunique),
    // not
    Meaning::Operator(Operator::Not),
    // null
    Meaning::Leaf(Leaf::Null),
    // of
    Meaning::Nothing,
    // or
    Meaning::Operator(Operator::Binary(BinaryOp::Or)),
    // ordered
    Meaning::Mark(Mark::Ordered),
    // out
    Meaning::Direction(Direction::Out),
    // package
    Meaning::Nothing,
    // portion
    Meaning::Nothing,
    // predicate
    Meaning::Nothing,
    // private
    Meaning::Visibility(Visibility::Private),
    // protected
    Meaning::Visibility(Visibility::Protected),
    // public
    Meaning::Visibility(Visibility::Public),
    // redefines
    Meaning::Nothing,
    // redefinition
    Meaning::Nothing,
    // references
    Meaning::Nothing,
    // rep
    Meaning::Nothing,
    // return
    Meaning::PartOf(PartOf::Return),
    // specialization
    Meaning::Nothing,
    // specializes
    Meaning::Nothing,
    // standard
    Meaning::Mark(Mark::Standard),
    // step
    Meaning::Kind(Kind::Step),
    // struct
    Meaning::Kind(Kind::Struct),
    // subclassifier
    Meaning::Nothing,
    // subset
    Meaning::Nothing,
    // subsets
    Meaning::Nothing,
    // subtype
    Meaning::Nothing,
    // succession
    Meaning::Nothing,
    // then
    Meaning::Nothing,
    // to
    Meaning::Nothing,
    // true
    Meaning::Leaf(Leaf::Boolean(true)),
    // type
    Meaning::Kind(Kind::AnyType),
    // typed
    Meaning::Nothing,
    // typing
    Meaning::Nothing,
    // unions
    Meaning::Nothing,
    // var
    Meaning::Nothing,
    // xor
    Meaning::Operator(Operator::Binary(BinaryOp::Xor)),
};
