use crate::keys::{LinkFact, LinkKey};
use demand_core::{Looks, Table};
use element_store::{Models, Outcome};

/// The links that are decided so far.
pub type LinkTable = Table<LinkKey, Outcome>;

/// At what a lookup looked.
pub type LinkLooks = Looks<LinkKey, LinkFact>;

/// What a lookup reads: the models of the files, and the links that are decided so far.
#[derive(Clone, Copy)]
pub struct View<'a> {
    pub models: &'a Models,
    pub table: &'a LinkTable,
}
