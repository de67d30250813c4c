ghost use Rattle.std.specs.Prelude.{◌↔◌, IsTrue, IfOk};
ghost use Rattle.linker_base.specs.Members.{IsMember};
ghost use Rattle.link_model.specs.Outside.{keys_of};
ghost use Rattle.kept_links.specs.Kept.{AreStanding};

use element_store::Models;
use link_model::LinkKey;
use linker_base::NoMemory;
use std::alloc::Global;

/// Whether a reference stands in the model of its file.
fn stands(models: &Models, key: LinkKey) -> bool
    ensures { IsTrue result ↔ IsMember (keys_of models.now) key }
{
    match models.model(key.0.file) {
        Some(model) => key.0.index < model.references(),
        None => false,
    }
}

/// Those of some references that stand.
pub(crate) fn standing(
    alloc: Global,
    models: &Models,
    keys: &[LinkKey],
) -> Result<Vec<LinkKey>, NoMemory>
    ensures { IfOk result (λ standing. AreStanding models.now keys.now standing.items) }
{
    let mut standing = Vec::new(alloc);
    for key in keys {
        if stands(models, *key) {
            standing.push(*key)?;
        }
    }
    Ok(standing)
}
