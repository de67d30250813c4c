//! Models with their canonical texts.
ghost use Rattle.std.specs.Prelude.{◌≡◌};
ghost use Rattle.element_store.specs.declared.numbers.FileNo.{FileNo};
ghost use Rattle.model_examples.specs.Worked.{vehicles};
ghost use Rattle.print_model.specs.Heads.{printed_text};
ghost use Rattle.print_examples.specs.Worked.{lines, vehicles_lines, quoted, quoted_lines, brackets, brackets_lines};
ghost use Rattle.print_examples.specs.Worked.{bounded, bounded_lines, connected, connected_lines, required, required_lines};

/// Models with their canonical texts: a package with parts and values, names that want quotes, a value
/// that wants brackets, bounds in KerML, a connection of two ends, a requirement with a result.
pub fn models_have_their_texts()
    ensures vehicles { (file : FileNo) → printed_text (vehicles file) ≡ lines vehicles_lines }
    ensures quoted { (file : FileNo) → printed_text (quoted file) ≡ lines quoted_lines }
    ensures brackets { (file : FileNo) → printed_text (brackets file) ≡ lines brackets_lines }
    ensures bounded { (file : FileNo) → printed_text (bounded file) ≡ lines bounded_lines }
    ensures connected { (file : FileNo) → printed_text (connected file) ≡ lines connected_lines }
    ensures required { (file : FileNo) → printed_text (required file) ≡ lines required_lines }
{}
