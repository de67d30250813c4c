//! Laws of the rules of links. Each is a function with nothing to run: what it ensures holds of the
//! definitions alone.
ghost use Rattle.std.specs.Prelude.{ℕ, List, Option};
ghost use Rattle.demand_core.specs.Least.{IsConsistent, least};
ghost use Rattle.demand_core.specs.Rules.{IsLawful, ListsInOrder};
ghost use Rattle.demand_core.specs.Tables.{Decided, Extends};
ghost use Rattle.element_store.specs.Model.{Data};
ghost use Rattle.element_store.specs.Stored.{AreFiles};
ghost use Rattle.element_store.specs.declared.models.StoredFile.{StoredFile};
ghost use Rattle.element_store.specs.declared.outcome.Outcome.{Outcome};
ghost use Rattle.link_model.specs.declared.keys.LinkKey.{LinkKey};
ghost use Rattle.link_model.specs.Keys.{same_key};
ghost use Rattle.link_model.specs.Linking.{ComesBefore, link_meaning};
ghost use Rattle.link_model.specs.Edits.{IsArrival, IsEdit, KeepsAskings, KeepsOutcomes, KeepsOverArrival, KeepsRules};

/// A law: the rules of links over the files of a project are rules. Each reference is a key once,
/// each asking depends on what it looks at alone, waits are open references that stand, and their
/// order is that of the references, the least first.
pub fn links_are_lawful()
    ensures lawful { (files : List StoredFile) → AreFiles files → IsLawful (link_meaning files) }
    ensures ordered { (files : List StoredFile) → AreFiles files
        → ListsInOrder (ComesBefore files) (link_meaning files) }
{}

/// A law: the outcomes of the least linking are those of every consistent one.
pub fn least_links_stand_in_all()
    ensures { (files : List StoredFile) (table : Decided LinkKey Outcome) → AreFiles files
        → IsConsistent (link_meaning files) table
        → Extends (least same_key (link_meaning files)) table }
{}

/// A law: an edit of a project file changes nothing for what looked elsewhere. A rule that looked
/// neither at the file nor at a name of its public root members asks the same; references that look
/// at none of these, directly or through other references, keep outcome, waits and looks.
pub fn edits_keep_links()
    ensures rules { (files : List StoredFile) (f : ℕ) (s : StoredFile) (m : Option Data)
        → IsEdit files f s m → KeepsRules files f s m }
    ensures outcomes { (files : List StoredFile) (f : ℕ) (s : StoredFile) (m : Option Data)
        → IsEdit files f s m → KeepsOutcomes files f s m }
    ensures askings { (files : List StoredFile) (f : ℕ) (s : StoredFile) (m : Option Data)
        → IsEdit files f s m → KeepsAskings files f s m }
{}

/// A law: a new name without a text changes nothing that was looked at.
pub fn arrivals_keep_links()
    ensures { (files : List StoredFile) (s : StoredFile) → IsArrival files s
        → KeepsOverArrival files s }
{}
