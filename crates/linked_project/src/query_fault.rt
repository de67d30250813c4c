use thiserror::Error;

/// Why a query has no answer.
#[derive(Clone, Copy, Debug, PartialEq, Eq, Error)]
pub enum QueryFault {
    /// No text is present under the name.
    #[error("no such file")]
    NoSuchFile,
    /// The words are no qualified name: the lexer refuses them as SysML, or their tokens are no such name.
    #[error("bad name")]
    BadName,
    /// Want of memory broke the project in an earlier edit. Nothing more is answered.
    #[error("broken")]
    Broken,
    /// Want of memory. The project is as before, and may be asked again.
    #[error("no memory")]
    NoMemory,
}
