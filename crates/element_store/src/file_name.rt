ghost use Rattle.std.specs.Prelude.{◌≡◌, ◌↔◌, ◌||◌, nat_eq, IfOk, OnOk, true, false};
ghost use Rattle.std.specs.List.{list_all};
ghost use Rattle.std.specs.Cmp;
ghost use Rattle.std.specs.Cmp.Lexicographic.{pointwise};
ghost use Rattle.std.specs.Hash as fed;
ghost use Rattle.std.specs.Cmp.Rules.{hashing};
ghost use Rattle.std.proofs.Common.{rules};
ghost use Rattle.std.proofs.lemmas.Cmp.{nat_list_eq_equiv};
ghost use Rattle.element_store.specs.FileNames.{is_name_byte, is_first_byte, has_name_length};
ghost use Rattle.element_store.specs.FileNames.{ends_sysml, ends_kerml, is_file_name};

use crate::outcome::Language;
use std::alloc::Global;
use std::hash::{Hash, Hasher};
use std::marker::Model;

/// Why bytes are no name of a file.
#[derive(Clone, Copy, Debug, PartialEq, Eq)]
pub enum NameFault {
    /// The bytes aren't the name of a file.
    Bad,
    /// Want of memory.
    NoMemory,
}

/// The name of a file: 7 to 200 bytes of ASCII letters, digits, `_`, `-`, `.` and `/` that don't
/// begin with `-` and end with `.sysml` or `.kerml`. Contracts see its bytes.
#[derive(Drop)]
pub struct FileName {
    bytes: Vec<u8>,
}

impl Model for FileName {
    ghost use Rattle.std.specs.Prelude.{List, ℕ, ◌≡◌, true};
    ghost use Rattle.element_store.specs.FileNames.{is_file_name};

    ghost Value = { List ℕ };

    ghost view = { λ n. n.bytes.items };

    ghost invariant = { λ n. is_file_name n.bytes.items ≡ true };
}

fn is_in_name(byte: u8) -> bool
    ensures { result ≡ is_name_byte byte }
{
    byte.is_ascii_alphanumeric() || byte == b'_' || byte == b'-' || byte == b'.' || byte == b'/'
}

fn begins_name(bytes: &[u8]) -> bool
    ensures { result ≡ is_first_byte bytes.now }
{
    match bytes.first() {
        Some(first) => *first != b'-',
        None => false,
    }
}

fn has_length(bytes: &[u8]) -> bool
    ensures { result ≡ has_name_length bytes.now }
{
    bytes.len() >= 7 && bytes.len() <= 200
}

fn all_in_name(bytes: &[u8]) -> bool
    ensures { result ≡ list_all is_name_byte bytes.now }
{
    bytes.iter().all(|byte| is_in_name(*byte))
}

fn ends_sysml(bytes: &[u8]) -> bool
    ensures { result ≡ ends_sysml bytes.now }
{
    bytes.ends_with(b".sysml")
}

fn ends_kerml(bytes: &[u8]) -> bool
    ensures { result ≡ ends_kerml bytes.now }
{
    bytes.ends_with(b".kerml")
}

fn ends_name(bytes: &[u8]) -> bool
    ensures { result ≡ (ends_sysml bytes.now || ends_kerml bytes.now) }
{
    ends_sysml(bytes) || ends_kerml(bytes)
}

fn is_name(bytes: &[u8]) -> bool
    ensures { result ≡ is_file_name bytes.now }
{
    has_length(bytes) && begins_name(bytes) && all_in_name(bytes) && ends_name(bytes)
}

impl FileName {
    /// Reads a name. `Bad` comes exactly where the bytes aren't the name of a file.
    pub fn read(alloc: Global, bytes: &[u8]) -> Result<FileName, NameFault>
        ensures read { IfOk result (λ name. name ≡ bytes.now) }
        ensures good { OnOk result (is_file_name bytes.now ≡ true) }
        ensures bad { (result ≡ Err NameFault.Bad) ↔ (is_file_name bytes.now ≡ false) }
    {
        if !is_name(bytes) {
            return Err(NameFault::Bad);
        }
        match Vec::from_slice(alloc, bytes) {
            Ok(bytes) => Ok(FileName { bytes }),
            Err(_) => Err(NameFault::NoMemory),
        }
    }

    /// Lends the bytes, which are the name of a file.
    pub fn bytes(&self) -> &[u8]
        ensures lent { result.now ≡ self.now }
        ensures name { is_file_name self.now ≡ true }
    {
        &self.bytes
    }

    /// The language in which the file is written: SysML exactly where its name ends with `.sysml`.
    pub fn language(&self) -> Language
        ensures { (result ≡ Language.Sysml) ↔ (ends_sysml self.now ≡ true) }
    {
        if ends_sysml(&self.bytes) {
            Language::Sysml
        } else {
            Language::Kerml
        }
    }
}

impl PartialEq for FileName {
    ghost eq = { pointwise nat_eq };

    ghost laws = { Cmp.partial_equiv_from_equiv nat_list_eq_equiv };

    fn eq(&self, other: &FileName) -> bool {
        self.bytes() == other.bytes()
    }
}

impl Eq for FileName {
    ghost laws = { nat_list_eq_equiv };
}

impl Hash for FileName {
    ghost hash_input = { fed.slice fed.u8 };

    ghost respects_eq = { Prim.search (hashing, rules) };

    fn hash<H: Hasher>(&self, state: &mut H) {
        self.bytes().hash(state);
    }
}
