ghost use Rattle.std.specs.Prelude.{◌≡◌, ◌++◌, ◌∷◌, [], IfOk, OnOk};
ghost use Rattle.std.specs.List.{flat_map};
ghost use Rattle.linker_base.specs.Members.{IsMember};
ghost use Rattle.link_walk.specs.Calls.{read_by};
ghost use Rattle.link_walk.specs.Marks.{marked_all};
ghost use Rattle.value_model.specs.Keys.{same_value_key};
ghost use Rattle.value_model.specs.Valuing.{AreValueKeys, IsKey, IsReachable, may_read};
ghost use Rattle.value_rules.specs.Reach.{IsReached, led_by};

use crate::keys::ValueKeys;
use element_store::{ElementNo, FileNo, Node};
use expr_reading::Lead;
use link_model::View;
use link_walk::Marked;
use linker_base::NoMemory;
use std::alloc::Global;
use value_asking::{Meanings, lead};
use value_features::{Decider, decider};
use value_model::ValueKey;

/// Marks the key to which a node leads, if it is a name that needs one.
fn mark_node<M: Meanings>(
    alloc: Global,
    meanings: &M,
    view: &View,
    marks: &mut Marked<ValueKey>,
    node: &Node,
    file: FileNo,
    target: Option<ElementNo>,
) -> Result<(), NoMemory>
    requires { M.links meanings.now ≡ read_by view.now }
    ensures { OnOk result (marks.new ≡ marked_all same_value_key marks.old
        (led_by (M.links meanings.now) (M.library meanings.now) file target node.now)) }
{
    match node {
        Node::Named(reference) => match lead(alloc, meanings, view, file, target, *reference)? {
            Lead::Needs(key) => marks.mark(key),
            Lead::Known(_) => Ok(()),
        },
        _ => Ok(()),
    }
}

/// Marks the keys to which the names of an expression lead, read for a target.
fn mark_names<M: Meanings>(
    alloc: Global,
    meanings: &M,
    view: &View,
    marks: &mut Marked<ValueKey>,
    nodes: &[Node],
    file: FileNo,
    target: Option<ElementNo>,
) -> Result<(), NoMemory>
    requires { M.links meanings.now ≡ read_by view.now }
    ensures { OnOk result (marks.new ≡ marked_all same_value_key marks.old
        (flat_map (led_by (M.links meanings.now) (M.library meanings.now) file target) nodes.now)) }
{
    for node in nodes {
        mark_node(alloc, meanings, view, marks, node, file, target)?;
    }
    Ok(())
}

/// Marks the keys that a key may read.
fn mark_read<M: Meanings>(
    alloc: Global,
    meanings: &M,
    view: &View,
    marks: &mut Marked<ValueKey>,
    key: ValueKey,
) -> Result<(), NoMemory>
    requires { M.links meanings.now ≡ read_by view.now }
    ensures { OnOk result (marks.new ≡ marked_all same_value_key marks.old
        (may_read (M.links meanings.now) (M.library meanings.now) key)) }
{
    match meanings.meant(alloc, key.feature, key.target)? {
        None => Ok(()),
        Some(feature) => match decider(alloc, view, feature)? {
            None => Ok(()),
            Some(decider) => {
                let file = decider.feature.file;
                mark_names(
                    alloc,
                    meanings,
                    view,
                    marks,
                    decider.nodes,
                    file,
                    key.target,
                )
            }
        },
    }
}

/// Marks what the marked keys may read, and what that may read, and so on.
fn mark_all<M: Meanings>(
    alloc: Global,
    meanings: &M,
    view: &View,
    marks: &mut Marked<ValueKey>,
) -> Result<(), NoMemory>
    requires links { M.links meanings.now ≡ read_by view.now }
    requires begun { IsReached (M.links meanings.now) (M.library meanings.now)
        marks.old 0 marks.old }
    ensures { OnOk result (IsReachable (M.links meanings.now) (M.library meanings.now) marks.new
        × ((k : ValueKey) → IsMember marks.old k → IsMember marks.new k)) }
{
    for place in 0..usize::MAX {
        let keys = marks.as_slice();
        if place >= keys.len() {
            return Ok(());
        }
        let key = keys[place];
        mark_read(alloc, meanings, view, marks, key)?;
    }
    // So many keys would need more than memory holds.
    Err(NoMemory)
}

/// The keys in order, as a list of their own.
fn listed(alloc: Global, marks: &[ValueKey]) -> Result<ValueKeys, NoMemory>
    ensures { IfOk result (λ keys. keys ≡ marks.now) }
{
    let mut keys = ValueKeys::new(alloc);
    for key in marks {
        keys.push(*key)?;
    }
    Ok(keys)
}

/// The keys that can be read on the way to the value of a key, and the key itself, each once.
pub fn reachable<M: Meanings>(
    alloc: Global,
    meanings: &M,
    view: &View,
    key: ValueKey,
) -> Result<ValueKeys, NoMemory>
    requires links { M.links meanings.now ≡ read_by view.now }
    requires key { IsKey (M.links meanings.now) key }
    ensures member { IfOk result (λ keys. IsMember keys key) }
    ensures reachable { IfOk result (IsReachable (M.links meanings.now) (M.library meanings.now)) }
    ensures closed { IfOk result (AreValueKeys (M.links meanings.now) (M.library meanings.now)) }
{
    let mut marks = Marked::new(alloc);
    marks.mark(key)?;
    mark_all(alloc, meanings, view, &mut marks)?;
    listed(alloc, marks.as_slice())
}
