//! Each law is a function with nothing to run: what it ensures holds of the definitions alone.
ghost use Rattle.text_names.specs.Kept.{FaultsAreWithin, NamesAreSpellable, PlacesAreWithin};

/// A law: the model of a text may be kept with the text. Each of its names can be spelt, and each of its
/// places stands in the text, or at its end.
pub fn models_may_be_kept()
    ensures names { NamesAreSpellable }
    ensures places { PlacesAreWithin }
{}

/// A law: the place of a fault stands in the text, or at its end.
pub fn faults_stand_within()
    ensures { FaultsAreWithin }
{}
