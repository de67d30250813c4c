ghost use Rattle.std.specs.Prelude.{◌≡◌, ◌<◌, ◌^◌, [], OnOk, IfOk, length, nat_eq, option_copied};
ghost use Rattle.std.specs.Cmp.Lexicographic.{pointwise};
ghost use Rattle.element_store.specs.Model.{is_name, bears};
ghost use Rattle.element_store.specs.NameTables.{numbers_under, found_in, unless_same};
ghost use Rattle.element_store.specs.NameTables.{IsNoted, AreNoted, HasBearers};

use crate::records::Member;
use crate::texts::Name;
use indexmap::IndexMap;
use linker_base::{Listing, NoMemory};
use std::alloc::Global;
use std::marker::Model;

/// The declared names in one namespace, each with the numbers of the members that bear it.
#[derive(Drop)]
struct Names {
    bearers: IndexMap<Vec<u8>, Listing<u32>>,
}

impl Model for Names {
    ghost use Rattle.std.specs.Prelude.{List, ℕ, Vec};
    ghost use Rattle.std.specs.declared.alloc.Global.{Global};

    ghost Value = { List (Vec ℕ Global × List ℕ) };

    ghost view = { λ n. n.bearers.entries };
}

impl Names {
    /// No names, which takes no memory.
    fn new(alloc: Global) -> Names
        ensures { result ≡ [] }
    {
        Names {
            bearers: IndexMap::new(alloc),
        }
    }

    /// The numbers of the members that bear the name, in the order in which they were noted.
    fn bearers(&self, name: &[u8]) -> &[u32]
        ensures { result.now ≡ numbers_under self.now name.now }
    {
        match self.bearers.get(name) {
            Some(numbers) => numbers.as_slice(),
            None => &[],
        }
    }

    /// Notes one member more that bears the name.
    fn note(&mut self, alloc: Global, name: &[u8], number: u32) -> Result<(), NoMemory>
        ensures { OnOk result (IsNoted self.old self.new name.now number) }
    {
        match self.bearers.get_mut(name) {
            Some(numbers) => numbers.push(number),
            None => {
                let mut numbers = Listing::new(alloc);
                numbers.push(number)?;
                self.bearers.insert(Vec::from_slice(alloc, name)?, numbers)?;
                Ok(())
            }
        }
    }
}

/// The members of a file by their owners and declared names, so that a name is found without a walk
/// over all members of its namespace.
#[derive(Drop)]
pub struct NameTable {
    // By the owner first and then by the name, since a query by both at once would have to own a
    // copy of the name.
    namespaces: IndexMap<u32, Names>,
}

impl Model for NameTable {
    ghost use Rattle.std.specs.Prelude.{List, ℕ, Vec};
    ghost use Rattle.std.specs.declared.alloc.Global.{Global};

    ghost Value = { List (ℕ × List (Vec ℕ Global × List ℕ)) };

    ghost view = { λ t. t.namespaces.entries };
}

impl NameTable {
    /// A table for a file without members, which takes no memory.
    pub fn none(alloc: Global) -> NameTable
        ensures { HasBearers [] result }
    {
        NameTable {
            namespaces: IndexMap::new(alloc),
        }
    }

    /// The table of these members.
    pub fn of(alloc: Global, members: &[Member]) -> Result<NameTable, NoMemory>
        requires { length members.now < 2 ^ 32 }
        ensures { IfOk result (HasBearers members.now) }
    {
        let mut table = NameTable::none(alloc);
        for (number, member) in members.iter().enumerate() {
            table.note_member(alloc, member, number as u32)?;
        }
        Ok(table)
    }

    /// The numbers of the members of that owner that bear the name, in rising order.
    pub fn bearers(&self, owner: u32, name: &[u8]) -> &[u32]
        ensures { result.now ≡ found_in self.now owner name.now }
    {
        match self.namespaces.get(&owner) {
            Some(names) => names.bearers(name),
            None => &[],
        }
    }

    /// Notes a member under each of its declared names.
    fn note_member(&mut self, alloc: Global, member: &Member, number: u32) -> Result<(), NoMemory>
        ensures { OnOk result (AreNoted self.old self.new member.now.owner
            (λ x. bears x member.now) number) }
    {
        self.note_name(alloc, member.owner, member.short.as_ref(), number)?;
        self.note_name(alloc, member.owner, second_name(member), number)?;
        Ok(())
    }

    /// Notes a member under a name, if there is one.
    fn note_name(
        &mut self,
        alloc: Global,
        owner: u32,
        name: Option<&Name>,
        number: u32,
    ) -> Result<(), NoMemory>
        ensures { OnOk result (AreNoted self.old self.new owner
            (λ x. is_name x (option_copied name.entry)) number) }
    {
        match name {
            Some(name) => self.note(alloc, owner, name.bytes(), number),
            None => Ok(()),
        }
    }

    /// Notes one member more of that owner that bears the name.
    fn note(&mut self, alloc: Global, owner: u32, name: &[u8], number: u32) -> Result<(), NoMemory>
        ensures { OnOk result (AreNoted self.old self.new owner
            (λ x. pointwise nat_eq x name.now) number) }
    {
        match self.namespaces.get_mut(&owner) {
            Some(names) => names.note(alloc, name, number),
            None => {
                let mut names = Names::new(alloc);
                names.note(alloc, name, number)?;
                self.namespaces.insert(owner, names)?;
                Ok(())
            }
        }
    }
}

/// The name of a member, unless it is the short name too: a member stands once under each name.
fn second_name(member: &Member) -> Option<&Name>
    ensures { option_copied result ≡ unless_same member.now.short member.now.name }
{
    let name = member.name.as_ref()?;
    match &member.short {
        Some(short) => if short == name { None } else { Some(name) },
        None => Some(name),
    }
}
