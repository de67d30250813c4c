use element_store::{Elements, Outcome};

/// What a search along the segments of a name gives.
#[derive(Drop)]
pub enum Course {
    /// The elements found at the segments and chain steps, in order.
    Reached(Elements),
    /// How the search ended before.
    Ended(Outcome),
}
