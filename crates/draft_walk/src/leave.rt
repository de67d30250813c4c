ghost use Rattle.std.specs.Prelude.{◌≡◌, ℕ, Some, IfOk, OnOk, length};
ghost use Rattle.element_store.specs.declared.kind.Kind.TheVariants as kind;
ghost use Rattle.text_model.specs.declared.action.Action.TheVariants as action;
ghost use Rattle.text_model.specs.declared.action.Taking.TheVariants as taking;
ghost use Rattle.text_model.specs.Walk.{changed, expression, given, left, specialised, with_inner};
ghost use Rattle.text_model.specs.Drafts.{applying, inner_at};
ghost use Rattle.draft_walk.specs.Telling.{begun_frame, frame_of, level_frame, nodes_at, with_names};

use crate::nodes::{self, OwnNames};
use crate::walker::{Saved, Walker, number_of, put};
use element_store::{BinaryOp, Item, Name, Role, UnaryOp, Visibility};
use linker_base::NoMemory;
use std::mem;
use text_model::action::{Operator, Taking};
use text_model::draft::{
    Draft, DraftExpr, DraftImport, DraftMember, DraftNode, DraftTarget, Mention, Path, Reading,
    Row, Waiting, What,
};

/// When an alias or an import began, and how it is seen.
#[derive(Clone, Copy)]
pub struct Begun {
    pub place: u32,
    pub visibility: Option<Visibility>,
}

/// The expression that was read.
fn expression(reading: Reading) -> DraftExpr
    ensures { result ≡ expression reading }
{
    DraftExpr {
        start: reading.start.unwrap_or(0),
        nodes: reading.nodes,
    }
}

/// The node of a sign before an operand, or of `if`.
fn applying(operator: Operator) -> Option<What>
    ensures { (place : ℕ) → applying operator place ≡ nodes_at result place }
{
    match operator {
        Operator::If => Some(What::If),
        Operator::Not => Some(What::Unary(UnaryOp::Not)),
        Operator::Binary(BinaryOp::Subtract) => Some(What::Unary(UnaryOp::Minus)),
        Operator::Binary(BinaryOp::Add) => Some(What::Unary(UnaryOp::Plus)),
        Operator::Binary(_) => None,
    }
}

/// The nodes that were read.
fn nodes_read(reading: Reading) -> Row<DraftNode>
    ensures { result ≡ reading.nodes }
{
    reading.nodes
}

/// The element has these names.
fn set_names(draft: &mut Draft, short: Option<Name>, name: Option<Name>, names: OwnNames)
    ensures { draft.new ≡ with_names short name names draft.old }
{
    put(&mut draft.short, short);
    put(&mut draft.name, name);
    put(&mut draft.own, names.own);
    put(&mut draft.locale, names.locale);
}

/// An alias or an import is listed in the element, with its name.
fn list_inner(draft: &mut Draft, item: Item, role: Role, path: Path) -> Result<(), NoMemory>
    ensures { OnOk result (draft.new ≡ with_inner item role path draft.old) }
{
    draft.items.push(item)?;
    draft.inner.push(Mention { role, path })?;
    Ok(())
}

impl<'a> Walker<'a> {
    /// The element that is open has these names.
    fn set_names(&mut self, short: Option<Name>, name: Option<Name>, names: OwnNames)
        ensures { self.new ≡ changed (with_names short name names) self.old }
    {
        set_names(&mut self.elements[self.current], short, name, names);
    }

    /// What was read, where this is read now.
    fn replace_reading(&mut self, reading: Reading) -> Reading
        ensures read { result ≡ self.old.reading }
        ensures now { self.new ≡ record self.old { reading = reading } }
    {
        mem::replace(&mut self.reading, reading)
    }

    /// The element with this number is open.
    fn reopen(&mut self, current: usize) -> Result<(), NoMemory>
        ensures { OnOk result (self.new ≡ record self.old { current = current }) }
    {
        // No element ends in one that isn't there.
        if current >= self.elements.len() {
            return Err(NoMemory);
        }
        self.current = current;
        Ok(())
    }

    /// The element that is open ends.
    #[inline(never)]
    pub fn leave_element(&mut self, saved: Saved) -> Result<(), NoMemory>
        ensures { OnOk result (self.new
            ≡ left (action.Element kind.Root) (frame_of saved) self.old) }
    {
        let reading = self.replace_reading(saved.reading);
        let names = nodes::own_names(self.alloc, reading.nodes.into_vec())?;
        self.set_names(reading.short, reading.name, names);
        self.reopen(saved.current)?;
        Ok(())
    }

    /// The names read are general types of the element that is open, in this role.
    fn specialise(&mut self, role: Role, reading: Reading) -> Result<(), NoMemory>
        ensures { OnOk result (self.new ≡ specialised role reading self.old) }
    {
        let read = nodes_read(reading).into_vec();
        nodes::mention_all(&mut self.elements[self.current].specs, role, read)?;
        Ok(())
    }

    /// The nodes read are the bounds of the element that is open.
    fn set_bounds(&mut self, reading: Reading)
        ensures { self.new ≡ changed (λ d. record d { bounds = reading.nodes }) self.old }
    {
        let bounds = nodes_read(reading);
        put(&mut self.elements[self.current].bounds, bounds);
    }

    /// The nodes read are the value of the element that is open.
    fn set_value(&mut self, reading: Reading)
        ensures { self.new ≡ changed
            (λ d. record d { value = Some (expression reading) }) self.old }
    {
        let value = expression(reading);
        put(&mut self.elements[self.current].value, Some(value));
    }

    /// The nodes read are the result of the element that is open.
    fn set_result(&mut self, reading: Reading)
        ensures { self.new ≡ changed
            (λ d. record d { result = Some (expression reading) }) self.old }
    {
        let value = expression(reading);
        put(&mut self.elements[self.current].result, Some(value));
    }

    /// How many names of aliases and imports the element that is open has.
    fn inner_count(&self) -> Result<u32, NoMemory>
        ensures { IfOk result (λ count. count
            ≡ length (inner_at self.now.elements self.now.current)) }
    {
        let count = number_of(self.elements[self.current].inner.as_slice().len())?;
        Ok(count)
    }

    /// An alias or an import is listed in the element that is open, with its name.
    fn list_inner(&mut self, item: Item, role: Role, path: Path) -> Result<(), NoMemory>
        ensures { OnOk result (self.new ≡ changed (with_inner item role path) self.old) }
    {
        list_inner(&mut self.elements[self.current], item, role, path)?;
        Ok(())
    }

    /// An alias ends.
    fn add_alias(&mut self, begun: Begun, reading: Reading) -> Result<(), NoMemory>
        ensures { OnOk result (self.new
            ≡ given taking.Alias (begun_frame begun.place begun.visibility) reading self.old) }
    {
        let member = DraftMember {
            owner: number_of(self.current)?,
            target: DraftTarget::Alias(self.inner_count()?),
            visibility: begun.visibility.unwrap_or(Visibility::Public),
            place: begun.place,
            short: reading.short,
            name: reading.name,
        };
        let number = number_of(self.members.len())?;
        let path = nodes::path_or(self.alloc, 0, reading.nodes.into_vec())?;
        self.list_inner(Item::Member(number), Role::Alias, path)?;
        self.members.push(member)?;
        Ok(())
    }

    /// An import ends.
    fn add_import(&mut self, begun: Begun, reading: Reading) -> Result<(), NoMemory>
        ensures { OnOk result (self.new
            ≡ given taking.Import (begun_frame begun.place begun.visibility) reading self.old) }
    {
        let ending = nodes::read_ending(reading.nodes.as_slice());
        let path = nodes::path_or(self.alloc, begun.place, reading.nodes.into_vec())?;
        let import = DraftImport {
            owner: number_of(self.current)?,
            at: self.inner_count()?,
            place: path.place,
            visibility: begun.visibility.unwrap_or(Visibility::Private),
            star: ending.star,
            recursive: ending.recursive,
            all: ending.all,
        };
        let number = number_of(self.imports.as_slice().len())?;
        self.list_inner(Item::Import(number), Role::Import, path)?;
        self.imports.push(import)?;
        Ok(())
    }

    /// What was read goes to where it belongs.
    fn give(&mut self, sort: Taking, begun: Begun, reading: Reading) -> Result<(), NoMemory>
        ensures { OnOk result (self.new
            ≡ given sort (begun_frame begun.place begun.visibility) reading self.old) }
    {
        match sort {
            Taking::Subclass => self.specialise(Role::Subclass, reading)?,
            Taking::Typing => self.specialise(Role::Typing, reading)?,
            Taking::Subsetting => self.specialise(Role::Subsetting, reading)?,
            Taking::Redefinition => self.specialise(Role::Redefinition, reading)?,
            Taking::ReferenceSubsetting => self.specialise(Role::ReferenceSubsetting, reading)?,
            Taking::Bounds => self.set_bounds(reading),
            Taking::Value => self.set_value(reading),
            Taking::Result => self.set_result(reading),
            Taking::Alias => self.add_alias(begun, reading)?,
            Taking::Import => self.add_import(begun, reading)?,
        }
        Ok(())
    }

    /// What was read for something of its own ends.
    #[inline(never)]
    pub fn leave_taking(&mut self, sort: Taking, saved: Saved) -> Result<(), NoMemory>
        ensures { OnOk result (self.new ≡ left (action.Take sort) (frame_of saved) self.old) }
    {
        let begun = Begun {
            place: saved.place,
            visibility: saved.visibility,
        };
        let reading = self.replace_reading(saved.reading);
        self.give(sort, begun, reading)?;
        Ok(())
    }

    /// An expression of its own ends: a sign before its operands is applied, and the operator around it waits on.
    #[inline(never)]
    pub fn leave_level(&mut self, around: Option<Waiting>) -> Result<(), NoMemory>
        ensures { OnOk result (self.new ≡ left action.Level (level_frame around) self.old) }
    {
        if let Some(waiting) = self.reading.operator {
            if let Some(what) = applying(waiting.operator) {
                self.push(what, waiting.place)?;
            }
        }
        self.reading.operator = around;
        Ok(())
    }
}
