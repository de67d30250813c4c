ghost use Rattle.element_store.specs.declared.numbers.FileNo.{FileNo};
ghost use Rattle.element_store.specs.declared.outcome.Language.TheVariants.{Sysml};
ghost use Rattle.model_examples.specs.Worked.{vehicles};
ghost use Rattle.text_model.specs.Profile.{InProfile};
ghost use Rattle.text_examples.specs.Worked.{vehicles_text};

/// The worked text is within the profile, and its model is the worked model.
pub fn vehicles_text_has_its_model()
    ensures { (file : FileNo) → InProfile file Sysml vehicles_text (vehicles file) }
{}
