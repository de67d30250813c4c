//! A law of models. It is a function with nothing to run: what it ensures holds of the definitions alone.
ghost use Rattle.model_printer.specs.Conditions.{ProfileHasExpressions};

/// A law: the model of a text within the profile has what `print` asks for. Each of its values and results
/// spells an expression.
pub fn profile_has_expressions()
    ensures { ProfileHasExpressions }
{}
