//! Laws of the values of expressions. Each is a function with nothing to run: what it ensures holds
//! of the definitions alone.
ghost use Rattle.std.specs.Prelude.{◌≡◌, ◌∷◌, [], true, List};
ghost use Rattle.demand_core.specs.Rules.{IsLawful, ListsInOrder};
ghost use Rattle.element_store.specs.Expressions.{is_whole};
ghost use Rattle.element_store.specs.declared.expression.Node.{Node};
ghost use Rattle.link_model.specs.Outside.{Library};
ghost use Rattle.link_model.specs.Readers.{LinkWorld};
ghost use Rattle.value_model.specs.Laws.{HaveSameValues, NameFeatures, NeverBefore};
ghost use Rattle.value_model.specs.Trees.{tree, trees_from};
ghost use Rattle.value_model.specs.Valuing.{AreValueKeys, IsReachable, value_meaning};
ghost use Rattle.value_model.specs.declared.values.ValueKey.{ValueKey};

/// A law: a whole list of nodes spells exactly one tree. Values are defined over that tree.
pub fn whole_lists_spell_a_tree()
    ensures { (nodes : List Node) → is_whole nodes ≡ true → trees_from 0 nodes [] ≡ tree nodes
        ∷ [] }
{}

/// A law: over every list of keys that is closed under waits the rules of values are rules, over any
/// links and any files. A key waits on one key at a time. What is closed under the keys to which
/// names lead is closed under waits.
pub fn values_are_lawful()
    ensures lawful { (w : LinkWorld) (lib : Library) (keys : List ValueKey)
        → AreValueKeys w lib keys → IsLawful (value_meaning w lib keys) }
    ensures ordered { (w : LinkWorld) (lib : Library) (keys : List ValueKey)
        → ListsInOrder NeverBefore (value_meaning w lib keys) }
    ensures reachable { (w : LinkWorld) (lib : Library) (keys : List ValueKey)
        → IsReachable w lib keys → AreValueKeys w lib keys }
{}

/// A law: which closed list of keys it is changes no value.
pub fn lists_change_no_value()
    ensures { (w : LinkWorld) (lib : Library) (xs ys : List ValueKey) → AreValueKeys w lib xs
        → AreValueKeys w lib ys → HaveSameValues w lib xs ys }
{}

/// A law: what a value or a refusal names are features, so that it has a label.
pub fn values_name_features()
    ensures { (w : LinkWorld) (lib : Library) (keys : List ValueKey) → AreValueKeys w lib keys
        → NameFeatures w lib keys }
{}
