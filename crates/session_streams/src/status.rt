/// How a run ended.
#[derive(Clone, Copy, Debug, PartialEq, Eq)]
pub enum Status {
    /// The answers were all written, and the script ended with `end`.
    Done,
    /// The words aren't two with `session` as the second.
    Usage,
    /// The input failed.
    ReadFault,
    /// The output or the errors failed.
    WriteFault,
    /// Want of memory.
    NoMemory,
    /// The script was refused, or ended before its `end`.
    Script,
    /// The script or the book passed a limit.
    Limit,
}
