ghost use Rattle.std.specs.Prelude.{◌≡◌, ◌-◌, ◌<◌, ◌≤◌, ◌^◌, true, length, IfOk};
ghost use Rattle.element_store.specs.Expressions.{is_whole};
ghost use Rattle.expr_reading.specs.Positions.{BeginsAt, AreBegins, begin_before};

use element_store::Node;
use linker_base::NoMemory;
use std::alloc::Global;

/// Where the part begins that ends before this node.
pub(crate) fn begin_before(begins: &[u32], end: u32) -> u32
    requires some { 0 < end }
    requires within { end ≤ length begins.now }
    ensures { result ≡ begin_before begins.now end }
{
    begins[end as usize - 1]
}

/// Where the part begins that the node of this number ends, by where those before it begin.
fn begin_at(nodes: &[Node], begins: &[u32], number: u32) -> u32
    requires whole { is_whole nodes.now ≡ true }
    requires begins { AreBegins nodes.now begins.now }
    requires next { number ≡ length begins.now }
    requires within { number < length nodes.now }
    ensures { BeginsAt nodes.now number result }
{
    match &nodes[number as usize] {
        Node::Unary(_) => begin_before(begins, number),
        Node::Binary(_) => begin_before(begins, begin_before(begins, number)),
        Node::If => {
            let second = begin_before(begins, number);
            begin_before(begins, begin_before(begins, second))
        }
        _ => number,
    }
}

/// Where each part begins, by the number of the node that ends it.
pub(crate) fn begins(alloc: Global, nodes: &[Node]) -> Result<Vec<u32>, NoMemory>
    requires whole { is_whole nodes.now ≡ true }
    requires few { length nodes.now < 2 ^ 32 }
    ensures each { IfOk result (λ begins. length begins.items ≡ length nodes.now) }
    ensures begins { IfOk result (λ begins. AreBegins nodes.now begins.items) }
{
    let mut begins = Vec::new(alloc);
    for number in 0..nodes.len() as u32 {
        let begin = begin_at(nodes, &begins, number);
        begins.push(begin)?;
    }
    Ok(begins)
}
