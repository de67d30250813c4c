ghost use Rattle.std.specs.Prelude.{◌≡◌, ◌≤◌, [], ℕ, List, cond, nat_eq, insert, length, OnOk, OnErr};
ghost use Rattle.std.specs.Cmp.Lexicographic.{pointwise};
ghost use Rattle.root_names.specs.Roots.{bearing};
ghost use Rattle.root_names.specs.Steps.{others, IsChanged};

use element_store::{FileNo, MemberNo};
use indexmap::IndexMap;
use linker_base::NoMemory;
use std::alloc::Global;
use std::marker::Model;

/// Members under names. Contracts see which members stand under each name.
#[derive(Drop)]
pub struct RootTable {
    names: IndexMap<Vec<u8>, Vec<MemberNo>>,
}

impl Model for RootTable {
    ghost use Rattle.std.specs.Prelude.{List, ℕ, Vec};
    ghost use Rattle.std.specs.declared.alloc.Global.{Global};
    ghost use Rattle.element_store.specs.declared.numbers.MemberNo.{MemberNo};

    ghost Value = { List (Vec ℕ Global × Vec MemberNo Global) };

    ghost view = { λ t. t.names.entries };
}

// Takes the members of a file away.
fn keep_others(members: &mut Vec<MemberNo>, file: FileNo)
    ensures { members.new.items ≡ others file members.old.items }
{
    members.retain(|member| member.file.0 != file.0);
}

impl RootTable {
    /// No members under any name, which takes no memory.
    pub fn new(alloc: Global) -> RootTable
        ensures { result ≡ [] }
    {
        RootTable {
            names: IndexMap::new(alloc),
        }
    }

    /// Lends the members under a name.
    pub fn members(&self, name: &[u8]) -> &[MemberNo]
        ensures { result.now ≡ bearing self.now name.now }
    {
        match self.names.get(name) {
            Some(members) => members.as_slice(),
            None => &[],
        }
    }

    /// Puts a member under a name, at a place among those that stand there. After `NoMemory` all is
    /// as it was.
    pub fn insert(
        &mut self,
        alloc: Global,
        name: &[u8],
        place: usize,
        member: MemberNo,
    ) -> Result<(), NoMemory>
        requires { place ≤ length (bearing self.old name.now) }
        ensures ok { OnOk result (IsChanged self.old self.new
            (λ x. pointwise nat_eq x name.now) (λ members. insert members place member)) }
        ensures err { OnErr result ((x : List ℕ) → bearing self.new x ≡ bearing self.old x) }
    {
        match self.names.get_mut(name) {
            Some(members) => {
                members.insert(place, member)?;
                Ok(())
            }
            None => {
                let mut members = Vec::new(alloc);
                members.push(member)?;
                self.names.insert(Vec::from_slice(alloc, name)?, members)?;
                Ok(())
            }
        }
    }

    /// Takes the members of a file away from under a name.
    pub fn remove(&mut self, name: &[u8], file: FileNo)
        ensures { IsChanged self.old self.new
            (λ x. pointwise nat_eq x name.now) (λ members. others file members) }
    {
        match self.names.get_mut(name) {
            Some(members) => keep_others(members, file),
            None => {}
        }
    }
}
