ghost use Rattle.std.specs.Prelude.{◌≡◌, ◌<◌, ◌^◌, true, length, IfOk};
ghost use Rattle.linker_base.specs.Members.{IsMember};
ghost use Rattle.element_store.specs.Expressions.{is_whole, names_in};
ghost use Rattle.expr_reading.specs.Sources.{Expression, as_lead, lead_in, spot_in};

use element_store::Node;
use linker_base::NoMemory;
use std::alloc::Global;
use value_model::{Spot, ValueAnswer, ValueKey};

/// Where a name leads.
#[derive(Drop)]
pub enum Lead {
    /// To an answer, without a look at the table of values.
    Known(ValueAnswer),
    /// To the value of that key.
    Needs(ValueKey),
}

/// An expression of a feature that is read for a target. Contracts see its nodes, whose it is, and
/// the links and the library through which it is read.
pub trait Source {
    /// What is read.
    ghost meaning: { Self → Expression };

    /// The values that can be read.
    ghost valid: { Self → Type 0 };

    /// The nodes, in postfix order: a whole expression.
    fn nodes(&self) -> &[Node]
        requires { valid self.now }
        ensures lent { result.now ≡ (meaning self.now).nodes }
        ensures whole { is_whole (meaning self.now).nodes ≡ true }
        ensures few { length (meaning self.now).nodes < 2 ^ 32 };

    /// Where the name of a reference leads that one of the nodes names.
    fn lead(&self, alloc: Global, reference: u32) -> Result<Lead, NoMemory>
        requires valid { valid self.now }
        requires named { IsMember (names_in (meaning self.now).nodes) reference }
        ensures { IfOk result (λ lead. as_lead lead ≡ lead_in (meaning self.now) reference) };

    /// The spot of a node.
    fn spot(&self, node: u32) -> Spot
        requires valid { valid self.now }
        requires within { node < length (meaning self.now).nodes }
        ensures { result ≡ spot_in (meaning self.now) node };
}
