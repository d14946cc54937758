// The node part of a pack, a count and for each node its values and its beliefs; and a chart, which is that part by
// itself.
ghost use Rattle.std.specs.Prelude.{◌≡◌, length};
ghost use Rattle.pack.specs.Reading.{mapped, many, told, whole};
ghost use Rattle.pack.specs.Number.{belief_at};
ghost use Rattle.pack.specs.Grammar.{node_at, nodes_at, in_chart};
ghost use Rattle.pack.specs.Refusals.{replied};
ghost use Rattle.pack.specs.Duties.Said.{said, shown, forget};
ghost use Rattle.pack.specs.Duties.Answer.{dims, values_at};

use crate::condition::check_item;
use crate::dimensions::Dimensions;
use crate::number::{read_belief, read_between};
use crate::part::check_many;
use crate::refusal::{Fault, Flaw, Refusal};

// A node's values, one for each fluent.
pub fn check_values(s: &[u8], at: usize, domains: &[u8]) -> Result<usize, Flaw>
    ensures { mapped forget (values_at domains.now s.now at) ≡ shown result }
{
    let mut n = at;
    for size in domains {
        n = check_item(s, n, usize::from(*size))?;
    }
    Ok(n)
}

// One of a node's beliefs.
pub fn check_belief(s: &[u8], at: usize, nodes: usize) -> Result<usize, Flaw>
    ensures { mapped forget (belief_at nodes s.now at) ≡ shown result }
{
    let (_, after) = read_belief(s, at, nodes)?;
    Ok(after)
}

// A node of so many: its values, then its beliefs, one for each character.
pub fn check_node<'a>(s: &[u8], at: usize, d: Dimensions<'a>, nodes: usize) -> Result<usize, Flaw>
    ensures { mapped forget (node_at (dims d.entry.characters d.entry.domains.now) nodes s.now at)
        ≡ shown result }
{
    let beliefs = check_values(s, at, d.domains)?;
    check_many(beliefs, d.characters, |n| check_belief(s, n, nodes))
}

// So many nodes.
pub fn check_rows<'a>(s: &[u8], at: usize, d: Dimensions<'a>, nodes: usize) -> Result<usize, Flaw>
    ensures { mapped forget
        (many (node_at (dims d.entry.characters d.entry.domains.now) nodes) nodes s.now at) ≡ shown result }
{
    check_many(at, nodes, |n| check_node(s, n, d, nodes))
}

// How many nodes there are, and the place after them.
pub fn check_nodes<'a>(s: &[u8], at: usize, d: Dimensions<'a>) -> Result<(usize, usize), Flaw>
    ensures { mapped length (nodes_at (dims d.entry.characters d.entry.domains.now) s.now at) ≡ said result }
{
    let (nodes, first) = read_between(s, at, 1, 33, Fault::Limit)?;
    let after = check_rows(s, first, d, nodes)?;
    Ok((nodes, after))
}

// How many nodes a chart has, which is all of the bytes.
pub fn check_chart<'a>(s: &[u8], d: Dimensions<'a>) -> Result<usize, Refusal>
    ensures { told length (in_chart (whole (nodes_at (dims d.entry.characters d.entry.domains.now)) s.now))
        ≡ replied result }
{
    let (nodes, after) = check_nodes(s, 0, d).map_err(Refusal::Chart)?;
    if after != s.len() {
        return Err(Refusal::Chart(Fault::After.at(after)));
    }
    Ok(nodes)
}
