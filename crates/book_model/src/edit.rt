use element_store::{FileName, Text};

/// A change of the book.
#[derive(Drop)]
pub enum Edit {
    /// Puts a text under a name. A new name arrives with it, and another keeps its place.
    Put { name: FileName, text: Text },
    /// Drops the text under a name. The name stays, and counts.
    Drop { name: FileName },
}
