use element_store::Segments;

/// The qualified name that a finding asks for, as its words write it.
#[derive(Drop)]
pub struct AskedName {
    /// Whether `$::` stands before it.
    pub absolute: bool,
    /// What its names stand for, in order.
    pub path: Segments,
}
