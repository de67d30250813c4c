ghost use Rattle.std.specs.Prelude.{◌≡◌, [], ◌∷◌, IfOk, OnOk};
ghost use Rattle.element_store.specs.declared.numbers.ElementNo.{ElementNo as Number};
ghost use Rattle.link_model.specs.Keys.{is_in, same_element};

use element_store::ElementNo;
use indexmap::IndexSet;
use linker_base::NoMemory;
use std::alloc::Global;
use std::marker::Model;

/// Whether two elements are one.
pub fn is_same(a: ElementNo, b: ElementNo) -> bool
    ensures { result ≡ same_element a b }
{
    a == b
}

/// A set of elements. Contracts see a list of them, in some order.
#[derive(Drop)]
pub struct ElementSet {
    elements: IndexSet<ElementNo>,
}

impl Model for ElementSet {
    ghost use Rattle.std.specs.Prelude.{List};
    ghost use Rattle.element_store.specs.declared.numbers.ElementNo.{ElementNo};

    ghost Value = { List ElementNo };

    ghost view = { λ s. s.elements.keys };
}

impl ElementSet {
    /// No elements. It takes no memory.
    pub fn new(alloc: Global) -> Self
        ensures { result ≡ [] }
    {
        ElementSet {
            elements: IndexSet::new(alloc),
        }
    }

    /// Whether an element is in the set.
    pub fn has(&self, element: ElementNo) -> bool
        ensures { result ≡ is_in element self.now }
    {
        self.elements.contains(&element)
    }

    /// Adds an element.
    pub fn add(&mut self, element: ElementNo) -> Result<(), NoMemory>
        ensures { OnOk result ((e : Number) → is_in e self.new ≡ is_in e (element ∷ self.old)) }
    {
        self.elements.insert(element)?;
        Ok(())
    }
}

/// The set of these elements.
pub fn set_of(alloc: Global, elements: &[ElementNo]) -> Result<ElementSet, NoMemory>
    ensures { IfOk result (λ set. (e : Number) → is_in e set ≡ is_in e elements.now) }
{
    let mut set = ElementSet::new(alloc);
    for element in elements {
        set.add(*element)?;
    }
    Ok(set)
}
