//! The limits of the tool. Code and definitions cite these constants alone, so each limit stands once.

/// The greatest length of the text of a file, in bytes.
pub const FILE_BYTES: usize = 1_048_576;

/// The greatest number of names of files that a project has had.
pub const NAMES: usize = 1_024;

/// The greatest length of all texts of a project together, in bytes.
pub const BOOK_BYTES: usize = 33_554_432;

/// The greatest length of a line of a script, in bytes, without the LF that ends it.
pub const LINE_BYTES: usize = 2_048;

/// The greatest length of the input of a session, in bytes: 2 to the 32nd.
pub const INPUT_BYTES: u64 = 4_294_967_296;
