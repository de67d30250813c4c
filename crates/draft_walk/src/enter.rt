ghost use Rattle.std.specs.Prelude.{◌≡◌, ◌∷◌, ◌++◌, [], None, IfOk, OnOk, length};
ghost use Rattle.text_model.specs.Walk.{changed, entered, fresh, owned_member, with_item};

use crate::nodes;
use crate::walker::{Walker, draft, number_of};
use element_store::{Item, Kind, Visibility};
use linker_base::NoMemory;
use std::mem;
use text_model::action::{Action, Operator};
use text_model::draft::{Draft, DraftMember, DraftTarget, Row, Waiting, What};

impl<'a> Walker<'a> {
    /// An item is listed in the element that is open.
    pub fn list_item(&mut self, item: Item) -> Result<(), NoMemory>
        ensures { OnOk result (self.new ≡ changed (with_item item) self.old) }
    {
        self.elements[self.current].items.push(item)?;
        Ok(())
    }

    /// The member of the element that begins in the one that is open.
    fn owned_member(&self) -> Result<DraftMember, NoMemory>
        ensures { IfOk result (λ member. member ≡ owned_member self.now) }
    {
        Ok(DraftMember {
            owner: number_of(self.current)?,
            target: DraftTarget::Owned(number_of(self.elements.len())?),
            visibility: self.begun_visibility().unwrap_or(Visibility::Public),
            place: self.begun_place(),
            short: None,
            name: None,
        })
    }

    /// An element and its member come last, and it is open.
    fn open_last(&mut self, draft: Draft, member: DraftMember) -> Result<(), NoMemory>
        ensures { OnOk result (self.new ≡ record self.old {
          elements = self.old.elements ++ draft ∷ [];
          members = self.old.members ++ member ∷ [];
          current = length self.old.elements;
          waiting = None;
        }) }
    {
        let current = self.elements.len();
        self.elements.push(draft)?;
        self.members.push(member)?;
        self.current = current;
        self.waiting = None;
        Ok(())
    }

    /// An element begins in the one that is open, where nothing is read.
    #[inline(never)]
    pub fn enter_element(&mut self, kind: Kind) -> Result<(), NoMemory>
        requires { self.old.reading ≡ fresh }
        ensures { OnOk result (self.new ≡ entered (Action.Element kind) self.old) }
    {
        let member = self.owned_member()?;
        let number = number_of(self.members.len())?;
        self.list_item(Item::Member(number))?;
        self.open_last(draft(self.alloc, kind, Some(member.owner)), member)?;
        Ok(())
    }

    /// What is read from here on is for something of its own. Nothing is read yet.
    pub fn enter_taking(&mut self)
        ensures { self.new ≡ record self.old { waiting = None } }
    {
        self.waiting = None;
    }

    /// The name read so far is the declared name, and no reference.
    #[inline(never)]
    pub fn enter_named_end(&mut self) -> Result<(), NoMemory>
        ensures { OnOk result (self.new ≡ entered Action.NamedEnd self.old) }
    {
        let read = mem::replace(&mut self.reading.nodes, Row::new(self.alloc));
        self.reading.name = Some(nodes::first_name(self.alloc, read.into_vec())?);
        Ok(())
    }

    /// An expression of its own begins. The operator around it is handed out.
    pub fn enter_level(&mut self) -> Option<Waiting>
        ensures operator { result ≡ self.old.reading.operator }
        ensures level { self.new ≡ entered Action.Level self.old }
    {
        if self.reading.start.is_none() {
            self.reading.start = Some(self.next_place());
        }
        let operator = self.reading.operator;
        self.reading.operator = None;
        operator
    }

    /// The operator that waits is joined to the operands before it.
    #[inline(never)]
    pub fn enter_tail(&mut self) -> Result<(), NoMemory>
        ensures { OnOk result (self.new ≡ entered Action.Tail self.old) }
    {
        if let Some(waiting) = self.reading.operator {
            self.reading.operator = None;
            if let Operator::Binary(operator) = waiting.operator {
                self.push(What::Binary(operator), waiting.place)?;
            }
        }
        Ok(())
    }
}
