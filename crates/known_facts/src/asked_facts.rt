ghost use Rattle.std.specs.Prelude.{◌≡◌, IfOk, OnOk};
ghost use Rattle.linker_base.specs.Members.{IsMember};
ghost use Rattle.element_store.specs.BaseRules.{StandsIn};
ghost use Rattle.element_store.specs.declared.numbers.ElementNo.{ElementNo as Number};
ghost use Rattle.link_walk.specs.Calls.{files_of, HasLinks};
ghost use Rattle.link_walk.specs.Noted.{noted};
ghost use Rattle.feature_facts.specs.Known.{AreFacts};

use element_store::ElementNo;
use feature_facts::{Facts, Heir, ask_all, directs, redefiners};
use link_walk::Notes;
use linker_base::NoMemory;

/// Notes the waits and looks of two more askings.
fn note_both(notes: &mut Notes, one: &Notes, other: &Notes) -> Result<(), NoMemory>
    ensures { OnOk result (notes.new ≡ noted other.now.waits other.now.looks
        (noted one.now.waits one.now.looks notes.old)) }
{
    notes.append(one)?;
    notes.append(other)?;
    Ok(())
}

/// Stage three, first part: what the features of the type and of those that it reaches redefine. All
/// that they redefine on the way is asked by one search.
pub fn ask_facts(heir: &Heir, types: &[ElementNo]) -> Result<Facts, NoMemory>
    requires own { StandsIn (files_of heir.now.view.now) heir.now.of }
    requires stand { (e : Number) → IsMember types.now e
        → StandsIn (files_of heir.now.view.now) e }
    requires links { HasLinks heir.now.view.now }
    ensures { IfOk result (AreFacts heir.now types.now) }
{
    let _ = heir.view.models.files();
    let mut own = redefiners(heir, types)?;
    let direct = directs(heir, own.found.as_slice())?;
    let all = ask_all(heir, own.found.as_slice())?;
    note_both(&mut own.notes, &direct.notes, &all.notes)?;
    Ok(Facts {
        redefiners: own.found,
        directs: direct.found,
        notes: own.notes,
    })
}
