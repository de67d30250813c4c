ghost use Rattle.std.specs.Prelude.{◌≡◌, ◌<◌, ◌^◌, false, length};
ghost use Rattle.book_model.specs.Answers.{Command as Asked};
ghost use Rattle.sysml_session.specs.Answered.{Holding, IsAnswered, IsGiven, across};

use demand_core::{Ledger, Steps};
use element_store::{FileName, Text};
use outside_core::{Sink, give_all};

/// Why a command has no whole answer.
#[derive(Clone, Copy, Debug, PartialEq, Eq)]
pub enum AnswerFault {
    /// The edit would pass this number of the book. Nothing was changed and nothing answered.
    Limit { number: u64 },
    /// The output failed. The command is done, and a front of its answer was given.
    WriteFault,
    /// Want of memory. No more than a front of the answer was given, and the project is to be asked nothing
    /// more.
    NoMemory,
}

/// What a session asks of a project: to do a command and to give its answer to a sink, in pieces.
pub trait Answering {
    /// The library, the book, and whether want of memory broke the project.
    ghost holding: { Self → Holding };

    /// Puts a text under a name.
    fn put<K: Sink, L: Ledger>(
        &mut self,
        name: FileName,
        text: Text,
        output: &mut K,
        steps: &mut Steps<L>,
    ) -> Result<(), AnswerFault>
        requires whole { (holding self.old).broken ≡ false }
        ensures answered { IsAnswered (holding self.old) (holding self.new) (Asked.Put name text)
            (across K.given K.faults output.old output.new) result };

    /// Drops the text under a name.
    fn drop<K: Sink, L: Ledger>(
        &mut self,
        name: FileName,
        output: &mut K,
        steps: &mut Steps<L>,
    ) -> Result<(), AnswerFault>
        requires whole { (holding self.old).broken ≡ false }
        ensures answered { IsAnswered (holding self.old) (holding self.new) (Asked.Drop name)
            (across K.given K.faults output.old output.new) result };

    /// Lists the links of a file.
    fn links<K: Sink>(&mut self, name: &FileName, output: &mut K) -> Result<(), AnswerFault>
        requires whole { (holding self.old).broken ≡ false }
        ensures answered { IsAnswered (holding self.old) (holding self.new) (Asked.Links name.now)
            (across K.given K.faults output.old output.new) result };

    /// Lists what is wrong with all files.
    fn check<K: Sink>(&mut self, output: &mut K) -> Result<(), AnswerFault>
        requires whole { (holding self.old).broken ≡ false }
        ensures answered { IsAnswered (holding self.old) (holding self.new) Asked.Check
            (across K.given K.faults output.old output.new) result };

    /// Finds the qualified name that words are, or says that they are none.
    fn find<K: Sink>(&mut self, words: &Text, output: &mut K) -> Result<(), AnswerFault>
        requires whole { (holding self.old).broken ≡ false }
        requires few { length words.now < 2 ^ 32 }
        ensures answered { IsAnswered (holding self.old) (holding self.new) (Asked.Find words.now)
            (across K.given K.faults output.old output.new) result };

    /// Lists the implied specialisations of all files.
    fn implied<K: Sink>(&mut self, output: &mut K) -> Result<(), AnswerFault>
        requires whole { (holding self.old).broken ≡ false }
        ensures answered { IsAnswered (holding self.old) (holding self.new) Asked.Implied
            (across K.given K.faults output.old output.new) result };

    /// Prints a file in its canonical form.
    fn print<K: Sink>(&mut self, name: &FileName, output: &mut K) -> Result<(), AnswerFault>
        requires whole { (holding self.old).broken ≡ false }
        ensures answered { IsAnswered (holding self.old) (holding self.new) (Asked.Print name.now)
            (across K.given K.faults output.old output.new) result };
}

/// Gives a piece of an answer, whole or after a failure a front of it.
pub fn give_piece<K: Sink>(output: &mut K, piece: &[u8]) -> Result<(), AnswerFault>
    ensures { IsGiven (across K.given K.faults output.old output.new) piece.now result }
{
    match give_all(output, piece) {
        Ok(()) => Ok(()),
        Err(_) => Err(AnswerFault::WriteFault),
    }
}
