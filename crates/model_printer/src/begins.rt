//! Where the parts of an expression begin.
ghost use Rattle.std.specs.Prelude.{◌≡◌, ◌<◌, ◌≤◌, length, IfOk};
ghost use Rattle.element_store.specs.Model.{Data};
ghost use Rattle.print_model.specs.Spelt.{HasTree};
ghost use Rattle.model_printer.specs.Parts.{AreBegins, BeginsAt, begin_before};

use element_store::{FileModel, Node};
use linker_base::NoMemory;
use std::alloc::Global;

/// Where the part begins that ends before this node.
pub(crate) fn begin_before(begins: &[usize], end: usize) -> usize
    requires some { 0 < end }
    requires within { end ≤ length begins.now }
    ensures { result ≡ begin_before begins.now end }
{
    begins[end - 1]
}

/// Where the part begins that the node of this number ends, by where those before it begin.
fn begin_at(model: &FileModel, nodes: &[Node], begins: &[usize], number: usize) -> usize
    requires tree { HasTree model.now nodes.now }
    requires begins { AreBegins model.now nodes.now begins.now }
    requires next { number ≡ length begins.now }
    requires within { number < length nodes.now }
    ensures { BeginsAt model.now nodes.now number result }
{
    match &nodes[number] {
        Node::Unary(_) => begin_before(begins, number),
        Node::Binary(_) => begin_before(begins, begin_before(begins, number)),
        Node::If => {
            let second = begin_before(begins, number);
            begin_before(begins, begin_before(begins, second))
        }
        _ => number,
    }
}

/// Where each part begins, by the number of the node that ends it.
pub(crate) fn begins(
    alloc: Global,
    model: &FileModel,
    nodes: &[Node],
) -> Result<Vec<usize>, NoMemory>
    requires { HasTree model.now nodes.now }
    ensures each { IfOk result (λ begins. length begins.items ≡ length nodes.now) }
    ensures begins { IfOk result (λ begins. AreBegins model.now nodes.now begins.items) }
{
    let mut begins = Vec::new(alloc);
    for number in 0..nodes.len() {
        let begin = begin_at(model, nodes, &begins, number);
        begins.push(begin)?;
    }
    Ok(begins)
}
