ghost use Rattle.std.specs.Prelude.{◌≡◌, true};
ghost use Rattle.element_store.specs.declared.outcome.Language.{Language};
ghost use Rattle.text_model.specs.Languages.{grammar_of};
ghost use Rattle.text_model.specs.Tables.{tables};
ghost use Rattle.text_model.specs.Wholes.{are_wholes};
ghost use Rattle.text_model.specs.Roles.{are_roles};
ghost use Rattle.text_model.specs.Slacks.{are_slacks};
ghost use Rattle.text_model.specs.Modes.{are_modes};
ghost use Rattle.text_model.specs.ClaimLists.{wholes_of, roles_of, slacks_of, modes_of};

/// The claims about inner symbols hold of both grammars: what is one whole expression; which kinds and
/// roles fit; that items are fewer than tokens, where a comment counts twice; and that no two items
/// begin at one token.
pub fn claims_hold()
    ensures wholes { (l : Language) → are_wholes (tables l) (wholes_of l) (grammar_of l) ≡ true }
    ensures roles { (l : Language) → are_roles (tables l) (roles_of l) (grammar_of l) ≡ true }
    ensures slacks { (l : Language) → are_slacks (tables l) (slacks_of l) (grammar_of l) ≡ true }
    ensures modes { (l : Language) → are_modes (tables l) (modes_of l) (grammar_of l) ≡ true }
{}
