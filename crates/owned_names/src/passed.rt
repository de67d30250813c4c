ghost use Rattle.std.specs.Prelude.{◌≡◌, [], ◌∷◌, ℕ, OnOk};
ghost use Rattle.link_model.specs.Keys.{is_in};
ghost use Rattle.element_store.specs.declared.numbers.ElementNo.{ElementNo as Number};

use element_store::ElementNo;
use indexmap::IndexSet;
use linker_base::NoMemory;
use std::alloc::Global;
use std::marker::Model;

/// The elements through which a way has passed. Contracts see the list of them, in some order.
#[derive(Drop)]
pub(crate) struct Passed {
    elements: IndexSet<ElementNo>,
}

impl Model for Passed {
    ghost use Rattle.std.specs.Prelude.{List};
    ghost use Rattle.element_store.specs.declared.numbers.ElementNo.{ElementNo};

    ghost Value = { List ElementNo };

    ghost view = { λ p. p.elements.keys };
}

impl Passed {
    /// No elements. It takes no memory.
    pub(crate) fn new(alloc: Global) -> Self
        ensures { result ≡ [] }
    {
        Passed {
            elements: IndexSet::new(alloc),
        }
    }

    /// Whether the way has passed through an element.
    pub(crate) fn has(&self, element: ElementNo) -> bool
        ensures { result ≡ is_in element self.now }
    {
        self.elements.contains(&element)
    }

    /// Passes through an element.
    pub(crate) fn pass(&mut self, element: ElementNo) -> Result<(), NoMemory>
        ensures { OnOk result ((e : Number)
            → is_in e self.new ≡ is_in e (element ∷ self.old)) }
    {
        self.elements.insert(element)?;
        Ok(())
    }
}
