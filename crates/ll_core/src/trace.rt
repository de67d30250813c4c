//! What a parser told and took, for contracts alone. It takes no memory, and its calls do nothing when
//! they run.
ghost use Rattle.std.specs.Prelude.{◌≡◌, ℕ, Option, Some, None, List, [], ◌∷◌, ◌++◌};
ghost use Rattle.std.specs.Borrow.{ftrue};
ghost use Rattle.ll_core.specs.declared.event.Event.{Event};

use crate::Event;
use std::marker::Model;

/// The events that a parser gave, but for the end, and the tokens that it shifted.
#[derive(Drop)]
pub struct Trace {
    pub ghost given: { List Event },
    pub ghost shifted: { List ℕ },
}

impl Model for Trace {
    ghost also_owns = { λ _. ftrue };
}

impl Trace {
    /// Nothing was given or shifted.
    #[inline(always)]
    pub(crate) fn new() -> Trace
        ensures { (result.given ≡ []) × (result.shifted ≡ []) }
    {
        Trace {}
    }

    /// One event more.
    #[inline(always)]
    pub(crate) fn told(&self, _event: &Event) -> Trace
        ensures { (result.given ≡ self.now.given ++ _event.now ∷ [])
            × (result.shifted ≡ self.now.shifted) }
    {
        Trace {}
    }

    /// One token more.
    #[inline(always)]
    pub(crate) fn took(&self, _token: &u16) -> Trace
        ensures { (result.given ≡ self.now.given)
            × (result.shifted ≡ self.now.shifted ++ _token.now ∷ []) }
    {
        Trace {}
    }
}

/// The look of a parser's last call, and the look that the next call has to repeat.
#[derive(Drop)]
pub struct Looks {
    pub ghost looked: { Option (Option ℕ) },
    pub ghost ahead: { Option (Option ℕ) },
}

impl Model for Looks {
    ghost also_owns = { λ _. ftrue };
}

impl Looks {
    /// No call was made.
    #[inline(always)]
    pub(crate) fn new() -> Looks
        ensures { (result.looked ≡ None) × (result.ahead ≡ None) }
    {
        Looks {}
    }

    /// The last call had this look, and the next repeats it.
    #[inline(always)]
    pub(crate) fn repeated(&self, _look: &Option<u16>) -> Looks
        ensures { (result.looked ≡ Some _look.now) × (result.ahead ≡ Some _look.now) }
    {
        Looks {}
    }

    /// The last call had this look, and the next has any.
    #[inline(always)]
    pub(crate) fn passed(&self, _look: &Option<u16>) -> Looks
        ensures { (result.looked ≡ Some _look.now) × (result.ahead ≡ None) }
    {
        Looks {}
    }
}
