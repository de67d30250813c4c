//! Laws of the models of texts, over the definitions of `text_model`.
//!
//! The model of each text within the profile is a model, and each text has exactly one outcome. What a
//! model says of elements, members, imports and references is said once more of the text's tree and
//! tokens, without the walk: `specs/Written`, `WrittenItems`, `WrittenStarts` and `OwnPlaces`. The
//! definitions of `specs/Coherent`, `Fits` and `Sound` serve the proofs alone.
#![tactic(auto)]

mod laws;

pub use laws::{
    built_models_are_models, elements_are_written, events_make_the_walk, items_are_written,
    one_outcome, references_stand_at_own_tokens, starts_are_written,
};
