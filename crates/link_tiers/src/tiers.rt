ghost use Rattle.std.specs.Prelude.{◌≡◌, ◌∷◌, [], List, IfOk};
ghost use Rattle.demand_core.specs.Search.{IsAsked};
ghost use Rattle.element_store.specs.declared.models.StoredFile.{StoredFile};
ghost use Rattle.link_model.specs.declared.keys.Hit.{Hit as OneHit};
ghost use Rattle.link_model.specs.Readers.{Lookup, LinkWorld};
ghost use Rattle.link_tiers.specs.Tiers.{AreFound, Tried, decides};

use link_model::Hit;
use link_walk::Gains;
use linker_base::NoMemory;

/// Whether a tier waits or has a hit, so that no later one is reached.
fn is_decided(tier: &Gains<Hit>) -> bool
    ensures { result ≡ decides tier.now }
{
    tier.notes.is_waiting() || !tier.found.as_slice().is_empty()
}

/// Takes what a tier gave, and tells whether that decides.
pub fn try_tier(gains: &mut Gains<Hit>, tier: Gains<Hit>) -> Result<bool, NoMemory>
    ensures tried { IfOk result (λ decided. (w : LinkWorld) (c : Lookup (List OneHit))
        → IsAsked tier (c w) → Tried w (c ∷ []) decided gains.old gains.new) }
    ensures found { IfOk result (λ decided. (files : List StoredFile)
        → AreFound files tier → AreFound files gains.new) }
{
    let decided = is_decided(&tier);
    let Gains { found, notes } = tier;
    gains.notes.append(&notes)?;
    gains.found = found;
    Ok(decided)
}
