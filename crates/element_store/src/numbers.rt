/// The number of a file: its place in the order in which names arrived, from 0.
#[derive(Clone, Copy, Debug, PartialEq, Eq, Hash)]
pub struct FileNo(pub u32);

/// An element of a file, numbered in preorder. Element 0 is the file's root namespace.
#[derive(Clone, Copy, Debug, PartialEq, Eq, Hash)]
pub struct ElementNo {
    pub file: FileNo,
    pub index: u32,
}

/// A member of a file, numbered from 0 in rising place.
#[derive(Clone, Copy, Debug, PartialEq, Eq, Hash)]
pub struct MemberNo {
    pub file: FileNo,
    pub index: u32,
}

/// A reference of a file, numbered from 0 element by element in preorder.
#[derive(Clone, Copy, Debug, PartialEq, Eq, Hash)]
pub struct RefNo {
    pub file: FileNo,
    pub index: u32,
}

/// An import of a file, numbered from 0 in rising place.
#[derive(Clone, Copy, Debug, PartialEq, Eq, Hash)]
pub struct ImportNo {
    pub file: FileNo,
    pub index: u32,
}
