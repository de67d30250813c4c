ghost use Rattle.std.specs.Prelude.{◌≡◌, [], IfOk, OnOk, max, reverse};
ghost use Rattle.std.specs.List.{flat_map};
ghost use Rattle.std.specs.Option.{option_to_list};
ghost use Rattle.text_model.specs.Numbering.{deep_place, depths, depths_after, greatest, least, place_over};
ghost use Rattle.draft_limits.specs.Least.{deep_places, lesser, top_one, top_three, top_two};

use linker_base::NoMemory;
use std::alloc::Global;
use text_model::draft::{Draft, DraftExpr, DraftNode, What};

/// How many references a file may have.
const REFERENCES: usize = 262_144;

/// How deep an expression may be, counted in nodes from its top to its deepest operand.
const DEPTH: usize = 1_000;

/// The lesser of two places, in bytes from the start of the text. Where only one of them is a place, it is
/// that one, and where none is, it is `None`.
pub fn lesser(one: Option<u32>, other: Option<u32>) -> Option<u32>
    ensures { result ≡ lesser one other }
{
    match (one, other) {
        (Some(one), Some(other)) => Some(if other < one { other } else { one }),
        (Some(one), None) => Some(one),
        (None, other) => other,
    }
}

/// The least of places, in bytes from the start of the text, in any order. `None` means that there are none.
pub fn least(places: &[u32]) -> Option<u32>
    ensures { result ≡ least places.now }
{
    let mut found = None;
    for place in places {
        found = lesser(found, Some(*place));
    }
    found
}

/// The greatest of numbers.
fn greatest(numbers: &[usize]) -> usize
    ensures { result ≡ greatest numbers.now }
{
    let mut found = 0;
    for number in numbers {
        found = greater(found, *number);
    }
    found
}

/// The greater of two depths.
fn greater(one: usize, other: usize) -> usize
    ensures { result ≡ max one other }
{
    if one < other { other } else { one }
}

/// Takes the last depth, if there is one.
fn take_one(values: &mut Vec<usize>) -> usize
    ensures { top_one (reverse values.old.items) ≡ (result, reverse values.new.items) }
{
    match values.pop() {
        Some(last) => last,
        None => 0,
    }
}

/// Takes the last two depths, if there are two, and gives the greatest.
fn take_two(values: &mut Vec<usize>) -> usize
    ensures { top_two (reverse values.old.items) ≡ (result, reverse values.new.items) }
{
    if values.len() < 2 {
        return 0;
    }
    let second = take_one(values);
    let first = take_one(values);
    greater(first, second)
}

/// Takes the last three depths, if there are three, and gives the greatest.
fn take_three(values: &mut Vec<usize>) -> usize
    ensures { top_three (reverse values.old.items) ≡ (result, reverse values.new.items) }
{
    if values.len() < 3 {
        return 0;
    }
    let third = take_one(values);
    let second = take_one(values);
    let first = take_one(values);
    greater(first, greater(second, third))
}

/// The depths of the values that stand after a node, the last one last.
fn pass(values: &mut Vec<usize>, what: &What) -> Result<(), NoMemory>
    ensures { OnOk result (reverse values.new.items
        ≡ depths_after what.now (reverse values.old.items)) }
{
    let below = match what {
        What::Unary(_) => take_one(values),
        What::Binary(_) => take_two(values),
        What::If => take_three(values),
        _ => 0,
    };
    let Some(depth) = below.checked_add(1) else {
        return Err(NoMemory);
    };
    values.push(depth)?;
    Ok(())
}

/// The greatest depth of the values that nodes leave.
fn greatest_depth(alloc: Global, nodes: &[DraftNode]) -> Result<usize, NoMemory>
    ensures { IfOk result (λ depth. depth ≡ greatest (depths nodes.now [])) }
{
    let mut values = Vec::new(alloc);
    for node in nodes {
        pass(&mut values, &node.what)?;
    }
    Ok(greatest(&values))
}

/// The place of an expression that is too deep.
fn deep_place(alloc: Global, expr: &Option<DraftExpr>) -> Result<Option<u32>, NoMemory>
    ensures { IfOk result (λ place. option_to_list place ≡ deep_place expr.now) }
{
    match expr {
        None => Ok(None),
        Some(expr) => {
            if DEPTH < greatest_depth(alloc, expr.nodes.as_slice())? {
                Ok(Some(expr.start))
            } else {
                Ok(None)
            }
        }
    }
}

/// The lesser place of an expression of the draft that is too deep.
fn deep_in(alloc: Global, draft: &Draft) -> Result<Option<u32>, NoMemory>
    ensures { IfOk result (λ place. place ≡ least (deep_places draft.now)) }
{
    let value = deep_place(alloc, &draft.value)?;
    let result = deep_place(alloc, &draft.result)?;
    Ok(lesser(value, result))
}

/// The least place of an expression of the drafts, a value or a result, that is deeper than 1,000 nodes: where
/// its first token begins, in bytes. `None` means that none is too deep. The only refusal is want of memory.
pub fn deepest(alloc: Global, drafts: &[Draft]) -> Result<Option<u32>, NoMemory>
    ensures { IfOk result (λ place. place ≡ least (flat_map deep_places drafts.now)) }
{
    let mut found = None;
    for draft in drafts {
        found = lesser(found, deep_in(alloc, draft)?);
    }
    Ok(found)
}

/// The place of the first reference above the 262,144 that a file may have, by the order of the places in the
/// text, in bytes. `None` means that there are no more than that. Memory is taken for a sorted copy only where
/// there are more, and the only refusal is want of it.
pub fn place_over(alloc: Global, places: &[u32]) -> Result<Option<u32>, NoMemory>
    ensures { IfOk result (λ place. option_to_list place ≡ place_over 262144 places.now) }
{
    if places.len() <= REFERENCES {
        return Ok(None);
    }
    let mut sorted = Vec::from_slice(alloc, places)?;
    sorted.sort()?;
    Ok(sorted.get(REFERENCES).copied())
}
