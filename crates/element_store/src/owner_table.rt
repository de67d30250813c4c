ghost use Rattle.std.specs.Prelude.{◌≡◌, ◌<◌, ◌^◌, [], OnOk, IfOk, length};
ghost use Rattle.element_store.specs.OwnerTables.{numbers_of, has_target, IsNotedOf, IsNotedIf};
ghost use Rattle.element_store.specs.Readings.{is_redefinition};
ghost use Rattle.element_store.specs.OwnerTables.{KeepsImports, KeepsRedefinitions, KeepsMembers, KeepsRedefining};

use crate::outcome::Role;
use crate::records::{Import, Member, Reference, Target};
use indexmap::IndexMap;
use linker_base::{Listing, NoMemory};
use std::alloc::Global;
use std::marker::Model;

/// Numbers of items by the numbers of their owners, in order: so what an owner has is found without
/// a walk over all. An owner of none takes no memory.
#[derive(Drop)]
pub struct OwnerTable {
    owners: IndexMap<u32, Listing<u32>>,
}

impl Model for OwnerTable {
    ghost use Rattle.std.specs.Prelude.{List, ℕ};

    ghost Value = { List (ℕ × List ℕ) };

    ghost view = { λ t. t.owners.entries };
}

impl OwnerTable {
    /// A table of no items, which takes no memory.
    fn none(alloc: Global) -> OwnerTable
        ensures { result ≡ [] }
    {
        OwnerTable {
            owners: IndexMap::new(alloc),
        }
    }

    /// The imports of each namespace.
    pub fn of_imports(alloc: Global, imports: &[Import]) -> Result<OwnerTable, NoMemory>
        requires { length imports.now < 2 ^ 32 }
        ensures { IfOk result (KeepsImports imports.now) }
    {
        let mut table = OwnerTable::none(alloc);
        for (number, import) in imports.iter().enumerate() {
            table.note_import(alloc, import, number as u32)?;
        }
        Ok(table)
    }

    /// The redefinitions that each element owns.
    fn of_redefinitions(alloc: Global, references: &[Reference]) -> Result<OwnerTable, NoMemory>
        requires { length references.now < 2 ^ 32 }
        ensures { IfOk result (KeepsRedefinitions references.now) }
    {
        let mut table = OwnerTable::none(alloc);
        for (number, reference) in references.iter().enumerate() {
            table.note_redefinition(alloc, reference, number as u32)?;
        }
        Ok(table)
    }

    /// The owned members of each namespace whose feature has a redefinition.
    pub fn of_redefining(
        alloc: Global,
        members: &[Member],
        references: &[Reference],
    ) -> Result<OwnerTable, NoMemory>
        requires members { length members.now < 2 ^ 32 }
        requires references { length references.now < 2 ^ 32 }
        ensures { IfOk result (KeepsRedefining members.now references.now) }
    {
        let redefinitions = OwnerTable::of_redefinitions(alloc, references)?;
        OwnerTable::of_members(alloc, members, &redefinitions)
    }

    /// The owned members of each namespace whose element has one of these redefinitions.
    fn of_members(
        alloc: Global,
        members: &[Member],
        redefinitions: &OwnerTable,
    ) -> Result<OwnerTable, NoMemory>
        requires { length members.now < 2 ^ 32 }
        ensures { IfOk result (KeepsMembers members.now redefinitions.now) }
    {
        let mut table = OwnerTable::none(alloc);
        for (number, member) in members.iter().enumerate() {
            table.note_redefining(alloc, member, redefinitions, number as u32)?;
        }
        Ok(table)
    }

    /// The numbers of what that owner has, in rising order.
    pub fn numbers(&self, owner: u32) -> &[u32]
        ensures { result.now ≡ numbers_of self.now owner }
    {
        match self.owners.get(&owner) {
            Some(numbers) => numbers.as_slice(),
            None => &[],
        }
    }

    /// Whether the target is owned and has an item here.
    fn has_target(&self, target: Target) -> bool
        ensures { result ≡ has_target self.now target }
    {
        match target {
            Target::Owned(element) => !self.numbers(element).is_empty(),
            Target::Alias(_) => false,
        }
    }

    /// Notes an import under its namespace.
    fn note_import(&mut self, alloc: Global, import: &Import, number: u32) -> Result<(), NoMemory>
        ensures { OnOk result (IsNotedOf self.old self.new import.now.owner number) }
    {
        self.note(alloc, import.owner, number)
    }

    /// Notes a reference under the element that owns it, if it is a redefinition.
    fn note_redefinition(
        &mut self,
        alloc: Global,
        reference: &Reference,
        number: u32,
    ) -> Result<(), NoMemory>
        ensures { OnOk result (IsNotedIf self.old self.new
            (is_redefinition reference.now.role) reference.now.context number) }
    {
        let noted = matches!(reference.role, Role::Redefinition);
        self.note_if(alloc, noted, reference.context, number)
    }

    /// Notes a member under its namespace, if it owns an element with one of these redefinitions.
    fn note_redefining(
        &mut self,
        alloc: Global,
        member: &Member,
        redefinitions: &OwnerTable,
        number: u32,
    ) -> Result<(), NoMemory>
        ensures { OnOk result (IsNotedIf self.old self.new
            (has_target redefinitions.now member.now.target) member.now.owner number) }
    {
        let noted = redefinitions.has_target(member.target);
        self.note_if(alloc, noted, member.owner, number)
    }

    /// Notes one item more of that owner, if it passes a test.
    fn note_if(
        &mut self,
        alloc: Global,
        passes: bool,
        owner: u32,
        number: u32,
    ) -> Result<(), NoMemory>
        ensures { OnOk result (IsNotedIf self.old self.new passes owner number) }
    {
        if passes {
            self.note(alloc, owner, number)
        } else {
            Ok(())
        }
    }

    /// Notes one item more of that owner.
    fn note(&mut self, alloc: Global, owner: u32, number: u32) -> Result<(), NoMemory>
        ensures { OnOk result (IsNotedOf self.old self.new owner number) }
    {
        match self.owners.get_mut(&owner) {
            Some(numbers) => numbers.push(number),
            None => {
                let mut numbers = Listing::new(alloc);
                numbers.push(number)?;
                self.owners.insert(owner, numbers)?;
                Ok(())
            }
        }
    }
}
