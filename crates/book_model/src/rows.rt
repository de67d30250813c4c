use element_store::{FileName, Outcome, RefNo, Role, Text};
use linker_base::Listing;
use text_model::FileFault;

/// A place of a text as it is printed. The line is 1 and the LF bytes before, the column 1 and the bytes
/// since the last LF or the start.
#[derive(Clone, Copy, Debug, PartialEq, Eq)]
pub struct Place {
    pub line: u32,
    pub column: u32,
}

/// What the book holds under a name.
#[derive(Clone, Copy, Debug, PartialEq, Eq)]
pub enum FileReport {
    /// A text within the profile: the numbers of its elements, without the root, and of its references.
    In { elements: u32, references: u32 },
    /// A text with this fault, and the fault's place.
    Refused { fault: FileFault, place: Place },
}

/// What printing a file of the book gives.
#[derive(Drop)]
pub enum Printed {
    /// The canonical text of the file's model.
    Text(Text),
    /// The text of the file isn't within the profile: its fault, and the fault's place.
    Refused { fault: FileFault, place: Place },
}

/// A reference of a file, with its place and what became of it.
#[derive(Drop)]
pub struct LinkRow {
    pub reference: RefNo,
    pub role: Role,
    pub place: Place,
    pub outcome: Outcome,
}

/// The references of a file in rising place.
pub type LinkRows = Listing<LinkRow>;

/// What is wrong with a file of the book.
#[derive(Drop)]
pub enum FaultRow {
    /// Its text isn't within the profile.
    File {
        name: FileName,
        fault: FileFault,
        place: Place,
    },
    /// One of its references isn't linked.
    Link {
        name: FileName,
        row: LinkRow,
    },
}

/// What is wrong with the files of a book, in byte order of their names.
pub type FaultRows = Listing<FaultRow>;
