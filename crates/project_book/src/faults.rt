use thiserror::Error;

/// What an edit did.
#[derive(Clone, Copy, Debug, PartialEq, Eq)]
pub enum Applied {
    /// The book is the edited one.
    Changed,
    /// No text is present under the name of a drop. The project is as before.
    NotThere,
}

/// Why an edit was refused.
#[derive(Clone, Copy, Debug, PartialEq, Eq, Error)]
pub enum ApplyFault {
    /// The edit would pass this number: the bytes of a text, the names of the book, or the bytes of all
    /// present texts. The project is as before.
    #[error("limit {0}")]
    Limit(u64),
    /// Want of memory. The project is broken.
    #[error("no memory")]
    NoMemory,
    /// Want of memory broke the project before.
    #[error("broken")]
    Broken,
}
