//! What the expressions of features are worth: the feature meant in a target, the expression that
//! decides, names read through chains, operators, and the order in which operands are read.
#![tactic(auto)]

mod laws;
mod values;

pub use laws::{
    lists_change_no_value, values_are_lawful, values_name_features, whole_lists_spell_a_tree,
};
pub use values::{NoFact, Spot, Value, ValueAnswer, ValueFault, ValueKey};
