ghost use Rattle.sysml_session.specs.Answered.{across};
ghost use Rattle.project_answers.specs.Parts.{IsPart};

use outside_core::Sink;
use sysml_session::{AnswerFault, give_piece};

/// Gives a line that counts once.
pub(crate) fn give_counted<K: Sink>(output: &mut K, line: &[u8]) -> Result<usize, AnswerFault>
    ensures { IsPart (across K.given K.faults output.old output.new) line.now 1 result }
{
    match give_piece(output, line) {
        Ok(()) => Ok(1),
        Err(fault) => Err(fault),
    }
}
