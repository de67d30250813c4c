//! The records that every part of the linker speaks of: numbers, texts, names of files, lists, the
//! outcome of a reference, and the model of a file with all that holds of it. `FileModel::of` makes a
//! model of its lists, its readers tell what stands where, and `Models` keeps the models of a project
//! in the order of their files. `Bases` finds the elements of the library from which others specialise
//! by their kind.
//!
//! `specs/Model` has the lists of a model, `specs/Condition` what holds of each, `specs/Stored` the
//! order of files, and `specs/BaseRules` the bases. Models written out, evaluated and made, stand in the
//! crate `model_examples` with the tests.
#![tactic(auto)]

mod bases;
mod expression;
mod file_name;
mod kind;
mod lists;
mod model;
mod models;
mod name_table;
mod number_search;
mod numbers;
mod outcome;
mod owner_table;
mod records;
mod texts;

pub use bases::Bases;
pub use expression::{BinaryOp, Bounds, Expr, Limit, Node, UnaryOp};
pub use file_name::{FileName, NameFault};
pub use kind::{Direction, Kind, Marks, PartOf, Visibility};
pub use lists::{Elements, Item, Items, Segments};
pub use model::{FileModel, ModelParts};
pub use models::Models;
pub use numbers::{ElementNo, FileNo, ImportNo, MemberNo, RefNo};
pub use outcome::{Language, Outcome, Role};
pub use records::{Element, Import, Member, Reference, Target};
pub use texts::{Name, Text};
