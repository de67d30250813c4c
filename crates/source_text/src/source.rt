ghost use Rattle.std.specs.Prelude.{◌≡◌, ◌≤◌, IfOk, List, ℕ, length};
ghost use Rattle.book_model.specs.Places.{place_of};
ghost use Rattle.source_text.specs.Lines.{EndBefore, ends_of};

use book_model::Place;
use element_store::Text;
use linker_base::NoMemory;
use linker_base::limits::FILE_BYTES;
use memchr::memchr_iter;
use std::alloc::Global;
use std::marker::Model;

/// The text of a file, with the ends of its lines. Contracts see its bytes.
#[derive(Drop)]
pub struct SourceText {
    text: Text,
    // The places of the LF bytes, in bytes from the start of the text.
    ends: Vec<u32>,
}

impl Model for SourceText {
    ghost use Rattle.std.specs.Prelude.{List, ℕ, ◌≡◌, ◌≤◌, length};
    ghost use Rattle.linker_base.specs.declared.limits.TheConstants.{FILE_BYTES};
    ghost use Rattle.source_text.specs.Lines.{ends_of};

    ghost Value = { List ℕ };

    ghost view = { λ s. s.text };

    ghost invariant = { λ s. (s.ends.items ≡ ends_of s.text) × (length s.text ≤ FILE_BYTES) };
}

/// The places of the LF bytes of a text.
fn ends_of(alloc: Global, text: &[u8]) -> Result<Vec<u32>, NoMemory>
    requires { length text.now ≤ FILE_BYTES }
    ensures { IfOk result (λ ends. ends.items ≡ ends_of text.now) }
{
    let mut ends = Vec::new(alloc);
    for end in memchr_iter(b'\n', text) {
        ends.push(end as u32)?;
    }
    Ok(ends)
}

/// How many lines end before a place.
fn ended_before(ends: &[u32], at: u32) -> usize
    ensures { (text : List ℕ) → ends.now ≡ ends_of text → at ≤ length text
        → EndBefore text at result }
{
    ends.partition_point(|end| *end < at)
}

impl SourceText {
    /// Keeps a text of at most 1,048,576 bytes.
    pub fn of(alloc: Global, text: Text) -> Result<SourceText, NoMemory>
        requires { length text ≤ FILE_BYTES }
        ensures { IfOk result (λ kept. kept ≡ text) }
    {
        let ends = ends_of(alloc, text.bytes())?;
        Ok(SourceText { text, ends })
    }

    /// Lends the bytes of the text.
    pub fn bytes(&self) -> &[u8]
        ensures lent { result.now ≡ self.now }
        ensures short { length self.now ≤ FILE_BYTES }
    {
        self.text.bytes()
    }

    /// The line and the column of a place, which is given in bytes from the start of the text and may be
    /// its end.
    pub fn place(&self, at: u32) -> Place
        requires { at ≤ length self.now }
        ensures { result ≡ place_of self.now at }
    {
        let lines = ended_before(&self.ends, at);
        let column = match lines.checked_sub(1) {
            Some(last) => at - self.ends[last],
            None => at + 1,
        };
        Place {
            line: lines as u32 + 1,
            column,
        }
    }
}
