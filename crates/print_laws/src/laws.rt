//! Laws of reading printed items back. Each is a function with nothing to run: what it ensures holds of
//! the definitions alone.
ghost use Rattle.print_laws.specs.ItemsReadBack.{ItemsReadBack};
ghost use Rattle.print_laws.specs.ModelsReadBack.{ModelsArePrinted, ModelsReadBack};
ghost use Rattle.print_laws.specs.SameModels.{ModelsComeBack};
ghost use Rattle.print_laws.specs.InTheProfile.{ModelsAreInProfile};

/// A law: in both languages, each text whose items are of the profile is read back from its printed
/// tokens. The grammar derives them, and the walk over that derivation makes exactly the drafts of the
/// elements, the members and the imports of its items, in their order; places aside.
pub fn items_read_back()
    ensures { ItemsReadBack }
{}

/// A law: the canonical lines of the model that a tree of items makes have just the tokens of the tree,
/// where neighbouring runs of specialisations have different signs.
pub fn models_are_printed()
    ensures { ModelsArePrinted }
{}

/// A law: the canonical text of such a model is read back, where its names can be spelt and its comments
/// end where they close. It has tokens, these have a tree, and the walk over the tree makes just the
/// drafts, members and imports of the model; places aside.
pub fn models_read_back()
    ensures { ModelsReadBack }
{}

/// A law: the model that is read back so is the same in all but places, and its canonical text is the
/// same: printing twice gives the same bytes.
pub fn models_come_back()
    ensures { ModelsComeBack }
{}

/// A law: the canonical text of such a model is within the profile, with the same model in all but
/// places, where the model passes no limit and the text's brackets nest no deeper than a text may.
pub fn models_are_in_profile()
    ensures { ModelsAreInProfile }
{}
