ghost use Rattle.std.specs.Prelude.{◌≡◌, ◌<◌, length, get_or, IfOk};
ghost use Rattle.link_waits.specs.Ranks.{AreRanksOf};

use element_store::{FileNo, Models};
use linker_base::NoMemory;
use std::alloc::Global;
use std::marker::Model;

/// How many files stand before each file of a book: those of the project stand before those of the
/// library, within each in the byte order of names. Contracts see the list of these counts, by the
/// files' numbers.
#[derive(Drop)]
pub struct Ranks {
    ranks: Vec<u32>,
}

impl Model for Ranks {
    ghost use Rattle.std.specs.Prelude.{List, ℕ};

    ghost Value = { List ℕ };

    ghost view = { λ r. r.ranks.items };
}

/// So many zeros.
fn zeros(alloc: Global, count: u32) -> Result<Vec<u32>, NoMemory>
    ensures { IfOk result (λ zeros. length zeros.items ≡ count) }
{
    let zeros = vec![in alloc; 0; count as usize]?;
    Ok(zeros)
}

impl Ranks {
    /// The ranks of the files of a book. They hold for as long as no file is added to it.
    pub fn of(alloc: Global, models: &Models) -> Result<Ranks, NoMemory>
        ensures { IfOk result (AreRanksOf models.now) }
    {
        let files = models.files();
        let mut ranks = zeros(alloc, files)?;
        for rank in 0..files {
            let file = models.at_rank(rank);
            ranks[file.0 as usize] = rank;
        }
        Ok(Ranks { ranks })
    }

    /// The rank of a file.
    pub fn rank(&self, file: FileNo) -> u32
        requires { file.0 < length self.now }
        ensures { result ≡ get_or self.now file.0 0 }
    {
        self.ranks[file.0 as usize]
    }
}
