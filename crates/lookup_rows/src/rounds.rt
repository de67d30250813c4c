ghost use Rattle.std.specs.Prelude.{◌≡◌};
ghost use Rattle.link_model.specs.Outside.{keys_of};

use crate::words::write_outcome;
use demand_core::{Answer, Counted, Engine, Steps, rounds};
use element_store::{Models, Outcome};
use kept_links::keys_of;
use link_model::{LinkFact, LinkKey};
use link_waits::Ranks;
use linker_base::NoMemory;
use name_lookups::AllLookups;
use name_resolution::LinkRules;
use root_names::RootNames;

/// Decides these references, which are those of all files, by plain rounds over the rules of links.
fn decide(
    rt: &HostRuntime,
    models: &Models,
    keys: &[LinkKey],
    steps: &mut Steps<Counted>,
) -> Result<Engine<LinkKey, Outcome, LinkFact>, NoMemory>
    requires { keys.now ≡ keys_of models.now }
{
    // A call tells what holds of all files.
    let _ = models.files();
    let roots = RootNames::of(rt.alloc(), models)?;
    let ranks = Ranks::of(rt.alloc(), models)?;
    let rules = LinkRules {
        models,
        roots: &roots,
        ranks: &ranks,
        lookups: &AllLookups,
    };
    rounds(rt.alloc(), &rules, keys, steps)
}

/// Writes what becomes of references, each on a line.
fn write_all(
    rt: &HostRuntime,
    engine: &Engine<LinkKey, Outcome, LinkFact>,
    keys: &[LinkKey],
) -> Option<()> {
    for key in keys {
        print!(rt; "{}:{} ", key.0.file.0, key.0.index).ok()?;
        match engine.answer(*key) {
            Answer::Decided(outcome) => write_outcome(rt, outcome)?,
            Answer::Cyclic(on) => println!(rt; "cyclic {}:{}", on.0.file.0, on.0.index).ok()?,
            Answer::Open => println!(rt; "open").ok()?,
        }
    }
    Some(())
}

/// Decides all references by plain rounds, and writes what becomes of each.
pub(crate) fn decide_all(rt: &HostRuntime, models: &Models) -> Option<()> {
    let keys = keys_of(rt.alloc(), models).ok()?;
    let mut steps = Steps::new(Counted::new());
    let engine = decide(rt, models, &keys, &mut steps).ok()?;
    write_all(rt, &engine, &keys)
}

/// Decides all references by plain rounds, and writes how many there are and how often one was asked.
pub(crate) fn count_all(rt: &HostRuntime, models: &Models) -> Option<()> {
    let keys = keys_of(rt.alloc(), models).ok()?;
    let mut steps = Steps::new(Counted::new());
    let _ = decide(rt, models, &keys, &mut steps).ok()?;
    println!(rt; "{} asked {}", keys.len(), steps.ledger().count()).ok()
}
