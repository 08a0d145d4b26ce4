//! What is bound where an expression is read, and the tuples that a quantifier binds.

ghost use Rattle.std.specs.Prelude.{◌≡◌, ◌∷◌, ◌++◌, [], map, not, IfOk, OnOk};
ghost use Rattle.std.specs.List.{filter, flat_map, list_all};
ghost use Rattle.clf_tree.specs.Lists.{each_two, from_end, tuples};
ghost use Rattle.clf_tree.specs.Meaning.{tried};
ghost use Rattle.clf_tree.specs.Nodes.{same_node};

use clf_base::{List, NoMemory};
use clf_tree::Node;
use std::alloc::Global;

/// The node of `this`, and the nodes of the variables, the innermost last.
#[derive(Drop)]
pub struct Place {
    pub this: Option<Node>,
    pub bound: List<Node>,
}

/// The node of a variable, counted from the innermost.
pub fn bound_node(place: &Place, variable: u32) -> Option<Node>
    ensures { result ≡ from_end place.now.bound variable }
{
    match place.bound.as_slice().iter().rev().nth(variable as usize) {
        Some(node) => Some(*node),
        None => None,
    }
}

/// The place with further nodes bound.
pub fn with_bound(alloc: Global, place: &Place, nodes: &[Node]) -> Result<Place, NoMemory>
    ensures this { IfOk result (λ inner. inner.this ≡ place.now.this) }
    ensures bound { IfOk result (λ inner. inner.bound ≡ place.now.bound ++ nodes.now) }
{
    let mut bound = place.bound.copy(alloc)?;
    bound.extend(nodes)?;
    Ok(Place {
        this: place.this,
        bound,
    })
}

fn prepended(alloc: Global, first: Node, rest: &List<Node>) -> Result<List<Node>, NoMemory>
    ensures { IfOk result (λ ns. ns ≡ first ∷ rest.now) }
{
    let mut nodes = List::from_slice(alloc, &[first])?;
    nodes.extend(rest.as_slice())?;
    Ok(nodes)
}

fn add_prepended(
    alloc: Global,
    first: Node,
    rests: &[List<Node>],
    all: &mut List<List<Node>>,
) -> Result<(), NoMemory>
    ensures { OnOk result (all.new ≡ all.old ++ map (λ t. first ∷ t) rests.now) }
{
    for rest in rests {
        all.push(prepended(alloc, first, rest)?)?;
    }
    Ok(())
}

fn longer(alloc: Global, nodes: &[Node], rests: &[List<Node>]) -> Result<List<List<Node>>, NoMemory>
    ensures { IfOk result (λ all. all ≡ flat_map (λ x. map (λ t. x ∷ t) rests.now) nodes.now) }
{
    let mut all = List::new(alloc);
    for node in nodes {
        add_prepended(alloc, *node, rests, &mut all)?;
    }
    Ok(all)
}

fn empty_tuple(alloc: Global) -> Result<List<List<Node>>, NoMemory>
    ensures { IfOk result (λ all. all ≡ [] ∷ []) }
{
    let mut all = List::new(alloc);
    all.push(List::new(alloc))?;
    Ok(all)
}

fn tuples(alloc: Global, names: usize, nodes: &[Node]) -> Result<List<List<Node>>, NoMemory>
    ensures { IfOk result (λ all. all ≡ tuples names nodes.now) }
{
    let mut all = empty_tuple(alloc)?;
    for _name in 0..names {
        all = longer(alloc, nodes, all.as_slice())?;
    }
    Ok(all)
}

fn is_not_among(node: Node, others: &[Node]) -> bool
    ensures { result ≡ list_all (λ b. not (same_node node b)) others.now }
{
    others.iter().all(|other| node != *other)
}

fn are_apart(nodes: &[Node]) -> bool
    ensures { result ≡ each_two (λ a b. not (same_node a b)) nodes.now }
{
    for at in 0..nodes.len() {
        if !is_not_among(nodes[at], &nodes[at + 1..]) {
            return false;
        }
    }
    true
}

fn apart(alloc: Global, all: &[List<Node>]) -> Result<List<List<Node>>, NoMemory>
    ensures { IfOk result (λ found. found ≡ filter (each_two (λ a b. not (same_node a b))) all.now) }
{
    let mut found = List::new(alloc);
    for nodes in all {
        if are_apart(nodes.as_slice()) {
            found.push(nodes.copy(alloc)?)?;
        }
    }
    Ok(found)
}

/// The tuples of so many nodes that a quantifier tries; with `disj` those of pairwise different nodes.
pub fn tried(
    alloc: Global,
    disj: bool,
    names: usize,
    nodes: &[Node],
) -> Result<List<List<Node>>, NoMemory>
    ensures { IfOk result (λ all. all ≡ tried disj names nodes.now) }
{
    let all = tuples(alloc, names, nodes)?;
    if disj {
        return apart(alloc, all.as_slice());
    }
    Ok(all)
}
