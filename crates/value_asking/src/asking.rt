ghost use Rattle.std.specs.Prelude.{◌≡◌, ◌++◌, IfOk, OnOk};
ghost use Rattle.demand_core.specs.declared.step.Step.TheVariants.{Done};
ghost use Rattle.link_walk.specs.Calls.{read_by};
ghost use Rattle.value_model.specs.declared.values.ValueAnswer.TheVariants.{Refused};
ghost use Rattle.value_asking.specs.Asking.{asked};

use crate::meanings::Meanings;
use crate::source::Reader;
use demand_core::{Looks, Step, Table};
use expr_reading::worth;
use link_model::View;
use linker_base::NoMemory;
use std::alloc::Global;
use value_features::decider;
use value_model::{NoFact, ValueAnswer, ValueFault, ValueKey};

/// An answer without a look at the table of values.
fn refused(fault: ValueFault) -> Step<ValueKey, ValueAnswer>
    ensures { result ≡ Done (Refused fault) }
{
    Step::Done(ValueAnswer::Refused(fault))
}

/// Asks one key for its value over a table of values.
pub fn ask<M: Meanings>(
    alloc: Global,
    meanings: &M,
    view: &View,
    table: &Table<ValueKey, ValueAnswer>,
    key: ValueKey,
    looks: &mut Looks<ValueKey, NoFact>,
) -> Result<Step<ValueKey, ValueAnswer>, NoMemory>
    requires { M.links meanings.now ≡ read_by view.now }
    ensures step { IfOk result (λ step. step
        ≡ (asked (M.links meanings.now) (M.library meanings.now) key table.now).step) }
    ensures looks { OnOk result (looks.new ≡ looks.old
        ++ (asked (M.links meanings.now) (M.library meanings.now) key table.now).looks) }
{
    let _ = view.models.files();
    match meanings.meant(alloc, key.feature, key.target)? {
        None => Ok(refused(ValueFault::Several(key.feature))),
        Some(feature) => match decider(alloc, view, feature)? {
            None => Ok(refused(ValueFault::Unbound(feature))),
            Some(decider) => {
                let reader = Reader {
                    meanings,
                    view: *view,
                    decider,
                    target: key.target,
                };
                worth(alloc, &reader, table, looks)
            }
        },
    }
}
