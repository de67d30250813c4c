//! Laws of the models of texts. Each is a function with nothing to run: what it ensures holds of the
//! definitions alone.
ghost use Rattle.std.specs.Prelude.{ℕ, ◌<◌, ◌^◌, List, length};
ghost use Rattle.element_store.specs.declared.numbers.FileNo.{FileNo};
ghost use Rattle.element_store.specs.declared.outcome.Language.{Language};
ghost use Rattle.element_store.specs.Model.{Data};
ghost use Rattle.element_store.specs.Condition.{IsModel};
ghost use Rattle.text_model.specs.Profile.{InProfile};
ghost use Rattle.text_laws.specs.OwnPlaces.{ReferencesStandAtOwn};
ghost use Rattle.text_laws.specs.Events.{EventsMakeTheWalk};
ghost use Rattle.text_laws.specs.Outcomes.{SomeOutcome, OneModel, ModelOrFault, OneFault};
ghost use Rattle.text_laws.specs.Written.{ElementsAreWritten};
ghost use Rattle.text_laws.specs.WrittenItems.{ItemsAreWritten};
ghost use Rattle.text_laws.specs.WrittenStarts.{StartsAreWritten};

/// A law: the model of a text within the profile is a model, in a file of fewer than 4,294,967,296
/// bytes.
pub fn built_models_are_models()
    ensures { (file : FileNo) (language : Language) (text : List ℕ) (d : Data)
        → length text < 2 ^ 32 → InProfile file language text d → IsModel d }
{}

/// A law: a text with a language has exactly one outcome. It has a model or a fault; two models of it
/// are the same, no text has a model and a fault, and two faults are the same, want of memory aside.
pub fn one_outcome()
    ensures some { SomeOutcome }
    ensures model { OneModel }
    ensures either { ModelOrFault }
    ensures fault { OneFault }
{}

/// A law: the elements of a model are those that its text writes, in preorder. The owner of each is the
/// innermost element around it, and its marks, its kind and its body are what its own tokens say.
pub fn elements_are_written()
    ensures { ElementsAreWritten }
{}

/// A law: the members and the imports of a model are those that its text writes, in text order. The
/// owner of each is the innermost element around it.
pub fn items_are_written()
    ensures { ItemsAreWritten }
{}

/// A law: each member of a model stands where its item begins: at the visibility word directly before
/// it, or else at its first token. The visibility of members and imports is what that word says.
pub fn starts_are_written()
    ensures { StartsAreWritten }
{}

/// A law: each reference stands at one of the own tokens of its element.
pub fn references_stand_at_own_tokens()
    ensures { ReferencesStandAtOwn }
{}

/// A law: the walk over a tree is a fold over the tree's events, as a parser tells them.
pub fn events_make_the_walk()
    ensures { EventsMakeTheWalk }
{}
