ghost use Rattle.std.specs.Prelude.{◌≡◌};
ghost use Rattle.value_asking.specs.Asking.{expression_of, IsReadable};

use crate::leads::lead;
use crate::meanings::Meanings;
use element_store::{ElementNo, Node};
use expr_reading::{Lead, Source};
use link_model::View;
use linker_base::NoMemory;
use std::alloc::Global;
use value_features::Decider;
use value_model::Spot;

/// A deciding expression, read for a target.
#[derive(Clone, Copy)]
pub(crate) struct Reader<'a, M> {
    pub meanings: &'a M,
    pub view: View<'a>,
    pub decider: Decider<'a>,
    pub target: Option<ElementNo>,
}

impl<'a, M: Meanings> Source for Reader<'a, M> {
    ghost meaning = { λ r. expression_of (M.links r.meanings.now) (M.library r.meanings.now)
        r.decider r.target };

    ghost valid = { λ r. IsReadable (M.links r.meanings.now) r.view r.decider };

    fn nodes(&self) -> &[Node] {
        self.decider.nodes
    }

    fn lead(&self, alloc: Global, reference: u32) -> Result<Lead, NoMemory> {
        let file = self.decider.feature.file;
        lead(
            alloc,
            self.meanings,
            &self.view,
            file,
            self.target,
            reference,
        )
    }

    fn spot(&self, node: u32) -> Spot {
        let feature = self.decider.feature;
        let at = match self.view.models.model(feature.file) {
            None => 0,
            Some(model) => model.place_of_node(feature.index, self.decider.of_result, node),
        };
        Spot {
            file: feature.file,
            at,
        }
    }
}
