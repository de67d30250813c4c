//! The canonical text of a model.
ghost use Rattle.std.specs.Prelude.{◌≡◌, IfOk};
ghost use Rattle.print_model.specs.Heads.{printed_text};
ghost use Rattle.model_printer.specs.Conditions.{HasExpressions};

use crate::bodies::{OpenBody, write_bodies};
use crate::writer::Writer;
use element_store::{FileModel, Text};
use linker_base::NoMemory;
use std::alloc::Global;

/// The canonical text of a model: each item on a line of its own, four blanks for each body that it stands
/// in, single spaces between tokens, names quoted and brackets written only where they have to be. It takes
/// time and memory in proportion to the model and the text, and nothing recurs.
///
/// The values and results of the model have to spell expressions, as those of each model that was read from
/// a text do. Nothing else is asked of names and texts; those of such a model can be read again.
pub fn print(alloc: Global, model: &FileModel) -> Result<Text, NoMemory>
    requires { HasExpressions model.now }
    ensures { IfOk result (λ text. text ≡ printed_text model.now) }
{
    // A look at a model tells what holds of every model.
    let _ = model.elements();
    let mut writer = Writer::new(alloc);
    let mut bodies = Vec::new(alloc);
    bodies.push(OpenBody {
        element: 0,
        next: 0,
    })?;
    write_bodies(alloc, &mut writer, model, &mut bodies)?;
    Ok(writer.into_text())
}
