use crate::lists::Elements;
use crate::numbers::{ElementNo, MemberNo, RefNo};

/// The language in which a file is written.
#[derive(Clone, Copy, Debug, PartialEq, Eq)]
pub enum Language {
    /// OMG KerML 1.0.
    Kerml,
    /// OMG SysML 2.0.
    Sysml,
}

/// What a reference is for, which decides where its first segment is looked up.
#[derive(Clone, Copy, Debug, PartialEq, Eq)]
pub enum Role {
    /// The general of a subclassification.
    Subclass,
    /// The type of a feature typing.
    Typing,
    /// The general feature of a subsetting.
    Subsetting,
    /// The redefined feature of a redefinition.
    Redefinition,
    /// The referenced feature of a reference subsetting.
    ReferenceSubsetting,
    /// What an import brings.
    Import,
    /// What an alias stands for.
    Alias,
    /// What a comment is about.
    About,
    /// A name in a value or a result expression.
    Value,
    /// A name in the bounds of a multiplicity.
    Bound,
}

/// What became of a reference. Segments and chain steps are counted together from 1.
#[derive(Drop)]
pub enum Outcome {
    /// It leads to `element`. `steps` are the elements of the path's last segment and of the earlier
    /// chain steps, in order; without a chain there are none.
    Linked {
        steps: Elements,
        element: ElementNo,
    },
    /// Nothing is found for this segment.
    Absent {
        segment: u32,
    },
    /// Members that lead to different elements are found for this segment: the least one, and the
    /// least one that leads to another element.
    Ambiguous {
        segment: u32,
        first: MemberNo,
        second: MemberNo,
    },
    /// What bears the name of this segment isn't public; the least such member.
    Hidden {
        segment: u32,
        member: MemberNo,
    },
    /// The reference waits, in the end, on itself; the least reference on which it waits.
    Cyclic {
        on: RefNo,
    },
}
