//! Made by `tools/make_table.py`: change tools/actions, not this file.

use crate::action::{Leaf, Mark, Meaning, Operator};
use element_store::{BinaryOp, Direction, Kind, PartOf, Visibility};

macro_rules! items {
    ($($item:expr,)*) => { [$($item),*] };
}

/// What each means, by its number in its list.
pub static SYSML_MEANINGS: [Meaning; 129] = items! {
    // about
    Meaning::Nothing,
    // abstract
    Meaning::Mark(Mark::Abstract),
    // accept
    Meaning::Nothing,
    // action
    Meaning::Kind(Kind::Action),
    // actor
    Meaning::Nothing,
    // after
    Meaning::Nothing,
    // alias
    Meaning::Nothing,
    // all
    Meaning::Leaf(Leaf::All),
    // allocate
    Meaning::Nothing,
    // allocation
    Meaning::Nothing,
    // analysis
    Meaning::Nothing,
    // and
    Meaning::Operator(Operator::Binary(BinaryOp::And)),
    // as
    Meaning::Nothing,
    // assert
    Meaning::Nothing,
    // assign
    Meaning::Nothing,
    // assume
    Meaning::PartOf(PartOf::Assume),
    // at
    Meaning::Nothing,
    // attribute
    Meaning::Kind(Kind::Attribute),
    // bind
    Meaning::Nothing,
    // binding
    Meaning::Nothing,
    // by
    Meaning::Nothing,
    // calc
    Meaning::Kind(Kind::Calc),
    // case
    Meaning::Nothing,
    // comment
    Meaning::Nothing,
    // concern
    Meaning::Nothing,
    // connect
    Meaning::Nothing,
    // connection
    Meaning::Kind(Kind::Connection),
    // constant
    Meaning::Mark(Mark::Constant),
    // constraint
    Meaning::Kind(Kind::Constraint),
    // crosses
    Meaning::Nothing,
    // decide
    Meaning::Nothing,
    // def
    Meaning::Def,
    // default
    Meaning::Mark(Mark::Default),
    // defined
    Meaning::Nothing,
    // dependency
    Meaning::Nothing,
    // derived
    Meaning::Mark(Mark::Derived),
    // do
    Meaning::Nothing,
    // doc
    Meaning::Nothing,
    // else
    Meaning::Nothing,
    // end
    Meaning::Mark(Mark::End),
    // entry
    Meaning::Nothing,
    // enum
    Meaning::Kind(Kind::Enumeration),
    // event
    Meaning::Nothing,
    // exhibit
    Meaning::Nothing,
    // exit
    Meaning::Nothing,
    // expose
    Meaning::Nothing,
    // false
    Meaning::Leaf(Leaf::Boolean(false)),
    // filter
    Meaning::Nothing,
    // first
    Meaning::Nothing,
    // flow
    Meaning::Nothing,
    // for
    Meaning::Nothing,
    // fork
    Meaning::Nothing,
    // frame
    Meaning::Nothing,
    // from
    Meaning::Nothing,
    // hastype
    Meaning::Nothing,
    // if
    Meaning::Operator(Operator::If),
    // implies
    Meaning::Operator(Operator::Binary(BinaryOp::Implies)),
    // import
    Meaning::Nothing,
    // in
    Meaning::Direction(Direction::In),
    // include
    Meaning::Nothing,
    // individual
    Meaning::Nothing,
    // inout
    Meaning::Direction(Direction::InOut),
    // interface
    Meaning::Kind(Kind::Interface),
    // istype
    Meaning::Nothing,
    // item
    Meaning::Kind(Kind::Item),
    // join
    Meaning::Nothing,
    // language
    Meaning::Nothing,
    // library
    Meaning::Mark(Mark::Library),
    // locale
    Meaning::Nothing,
    // loop
    Meaning::Nothing,
    // merge
    Meaning::Nothing,
    // message
    Meaning::Nothing,
    // meta
    Meaning::Nothing,
    // metadata
    Meaning::Nothing,
    // new
    Meaning::Nothing,
    // nonunique
    Meaning::Mark(Mark::Nonunique),
    // not
    Meaning::Operator(Operator::Not),
    // null
    Meaning::Leaf(Leaf::Null),
    // objective
    Meaning::Nothing,
    // occurrence
    Meaning::Kind(Kind::Occurrence),
    // of
    Meaning::Nothing,
    // or
    Meaning::Operator(Operator::Binary(BinaryOp::Or)),
    // ordered
    Meaning::Mark(Mark::Ordered),
    // out
    Meaning::Direction(Direction::Out),
    // package
    Meaning::Nothing,
    // parallel
    Meaning::Nothing,
    // part
    Meaning::Kind(Kind::Part),
    // perform
    Meaning::Nothing,
    // port
    Meaning::Kind(Kind::Port),
    // private
    Meaning::Visibility(Visibility::Private),
    // protected
    Meaning::Visibility(Visibility::Protected),
    // public
    Meaning::Visibility(Visibility::Public),
    // redefines
    Meaning::Nothing,
    // ref
    Meaning::Mark(Mark::Reference),
    // references
    Meaning::Nothing,
    // render
    Meaning::Nothing,
    // rendering
    Meaning::Nothing,
    // rep
    Meaning::Nothing,
    // require
    Meaning::PartOf(PartOf::Require),
    // requirement
    Meaning::Kind(Kind::Requirement),
    // return
    Meaning::PartOf(PartOf::Return),
    // satisfy
    Meaning::Nothing,
    // send
    Meaning::Nothing,
    // snapshot
    Meaning::Nothing,
    // specializes
    Meaning::Nothing,
    // stakeholder
    Meaning::Nothing,
    // standard
    Meaning::Mark(Mark::Standard),
    // state
    Meaning::Nothing,
    // subject
    Meaning::PartOf(PartOf::Subject),
    // subsets
    Meaning::Nothing,
    // succession
    Meaning::Nothing,
    // terminate
    Meaning::Nothing,
    // then
    Meaning::Nothing,
    // timeslice
    Meaning::Nothing,
    // to
    Meaning::Nothing,
    // transition
    Meaning::Nothing,
    // true
    Meaning::Leaf(Leaf::Boolean(true)),
    // until
    Meaning::Nothing,
    // use
    Meaning::Nothing,
    // variant
    Meaning::Nothing,
    // variation
    Meaning::Nothing,
    // verification
    Meaning::Nothing,
    // verify
    Meaning::Nothing,
    // via
    Meaning::Nothing,
    // view
    Meaning::Nothing,
    // viewpoint
    Meaning::Nothing,
    // when
    Meaning::Nothing,
    // while
    Meaning::Nothing,
    // xor
    Meaning::Operator(Operator::Binary(BinaryOp::Xor)),
};
