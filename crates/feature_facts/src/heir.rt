use element_store::ElementNo;
use link_model::{Hit, View};
use std::alloc::Global;

/// A type whose inherited members are looked up, and what is read.
#[derive(Clone, Copy)]
pub struct Heir<'a> {
    pub alloc: Global,
    pub view: &'a View<'a>,
    pub of: ElementNo,
    /// Whether the features that it owns are taken to redefine nothing.
    pub raw: bool,
}

/// A member that may be inherited, and the type that owns it.
#[derive(Clone, Copy)]
pub struct Candidate {
    pub owner: ElementNo,
    pub hit: Hit,
}
