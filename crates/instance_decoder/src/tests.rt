ghost use Rattle.std.specs.Prelude.{◌≡◌, [], ◌∷◌, IfOk};
ghost use Rattle.instance_decoder.specs.Worked.{plain, refers_to, clafers, scopes, node, wire, edge, layout, first_value, second_value, entries};
ghost use Rattle.instance_decoder.specs.Implied.{times, option_clafers, option_scopes, option_layout, option_entries};

use crate::{decode, pack};
use bool_circuit::Wire;
use clf_base::{List, NoMemory, Span};
use clf_tree::{
    Clafer, CoreModel, Entry, Instance, Interval, Node, Reference, Scopes, Target, Title,
};
use set_bits::{Edge, Layout, SlotBits};
use std::alloc::Global;
use std::test::Fail;

const HERE: Span = Span { line: 0, column: 0 };

// ---- a$0, b$1 under it with -2, and c$0 that refers to a$0

fn plain(alloc: Global, parent: Option<u32>, reference: Option<Reference>) -> Clafer
    ensures { result ≡ plain parent reference }
{
    Clafer {
        title: Title {
            name: List::new(alloc),
            at: HERE,
        },
        is_abstract: false,
        parent,
        above: None,
        group: Interval { low: 0, high: None },
        times: Interval { low: 0, high: None },
        reference,
    }
}

fn refers_to(to: Option<u32>) -> Reference
    ensures { result ≡ refers_to to }
{
    Reference {
        at: HERE,
        bag: true,
        to,
    }
}

fn clafers(alloc: Global) -> Result<List<Clafer>, NoMemory>
    ensures { IfOk result (λ r. r ≡ clafers) }
{
    let mut clafers = List::new(alloc);
    clafers.push(plain(alloc, None, None))?;
    clafers.push(plain(alloc, Some(0), Some(refers_to(None))))?;
    clafers.push(plain(alloc, None, Some(refers_to(Some(0)))))?;
    Ok(clafers)
}

fn scopes(alloc: Global) -> Result<Scopes, NoMemory>
    ensures { IfOk result (λ r. r ≡ scopes) }
{
    let of = List::from_slice(alloc, &[1, 2, 1])?;
    Ok(Scopes {
        of,
        low: -2,
        high: 1,
    })
}

fn node(clafer: u32, number: u32) -> Node
    ensures { result ≡ node clafer number }
{
    Node { clafer, number }
}

fn wire(number: u32) -> Wire
    ensures { result ≡ wire number }
{
    Wire { number }
}

fn edge(from: u32, to: u32, number: u32) -> Edge
    ensures { result ≡ edge from to number }
{
    Edge {
        from,
        to,
        here: wire(number),
    }
}

fn values(alloc: Global) -> Result<List<SlotBits>, NoMemory>
    ensures { IfOk result (λ r. r ≡ first_value ∷ second_value ∷ []) }
{
    let first = List::from_slice(alloc, &[wire(7), wire(8)])?;
    let second = List::from_slice(alloc, &[wire(9), wire(10)])?;
    let mut values = List::new(alloc);
    values.push(SlotBits {
        slot: 1,
        bits: first,
    })?;
    values.push(SlotBits {
        slot: 2,
        bits: second,
    })?;
    Ok(values)
}

fn slots(alloc: Global) -> Result<List<Node>, NoMemory>
    ensures { IfOk result (λ r. r ≡ layout.slots) }
{
    List::from_slice(alloc, &[node(0, 0), node(1, 0), node(1, 1), node(2, 0)])
}

fn live(alloc: Global) -> Result<List<Wire>, NoMemory>
    ensures { IfOk result (λ r. r ≡ layout.live) }
{
    List::from_slice(alloc, &[wire(0), wire(1), wire(2), wire(3)])
}

fn parents(alloc: Global) -> Result<List<Edge>, NoMemory>
    ensures { IfOk result (λ r. r ≡ layout.parents) }
{
    List::from_slice(alloc, &[edge(1, 0, 4), edge(2, 0, 5)])
}

fn targets(alloc: Global) -> Result<List<Edge>, NoMemory>
    ensures { IfOk result (λ r. r ≡ layout.targets) }
{
    List::from_slice(alloc, &[edge(3, 0, 6)])
}

fn layout(alloc: Global) -> Result<Layout, NoMemory>
    ensures { IfOk result (λ r. r ≡ layout) }
{
    let slots = slots(alloc)?;
    let live = live(alloc)?;
    let parents = parents(alloc)?;
    let targets = targets(alloc)?;
    let values = values(alloc)?;
    Ok(Layout {
        slots,
        live,
        parents,
        targets,
        values,
    })
}

#[test]
fn bits_show_nodes_parents_targets_and_integers(rt: HostRuntime) -> Result<(), Fail> {
    let alloc = rt.alloc();
    let clafers = clafers(alloc)?;
    let core = CoreModel {
        clafers,
        truths: List::new(alloc),
        goals: List::new(alloc),
    };
    let scopes = scopes(alloc)?;
    let layout = layout(alloc)?;
    let bits = [
        true, false, true, true, false, true, true, false, false, false, true,
    ];
    let instance = decode(alloc, &core, &scopes, &layout, &bits)?;
    assert_eq!(rt; instance.entries.len(), 3);
    let child = *instance.entries.get(1);
    assert_eq!(rt; child.node, node(1, 1));
    assert_eq!(rt; child.parent, Some(node(0, 0)));
    assert_eq!(rt; child.target, Some(Target::Int(-2)));
    let other = *instance.entries.get(2);
    assert_eq!(rt; other.parent, None);
    assert_eq!(rt; other.target, Some(Target::Node(node(0, 0))));
    Ok(())
}

fn entries(alloc: Global) -> Result<List<Entry>, NoMemory>
    ensures { IfOk result (λ r. r ≡ entries) }
{
    let first = Entry {
        node: node(0, 0),
        parent: None,
        target: None,
    };
    let second = Entry {
        node: node(1, 1),
        parent: Some(node(0, 0)),
        target: Some(Target::Int(-2)),
    };
    let third = Entry {
        node: node(2, 0),
        parent: None,
        target: Some(Target::Node(node(0, 0))),
    };
    List::from_slice(alloc, &[first, second, third])
}

fn instance(alloc: Global) -> Result<Instance, NoMemory>
    ensures { IfOk result (λ r. r.entries ≡ entries) }
{
    let entries = entries(alloc)?;
    Ok(Instance { entries })
}

#[test]
fn bits_of_integers_and_targets_are_decoded_again(rt: HostRuntime) -> Result<(), Fail> {
    let alloc = rt.alloc();
    let clafers = clafers(alloc)?;
    let core = CoreModel {
        clafers,
        truths: List::new(alloc),
        goals: List::new(alloc),
    };
    let scopes = scopes(alloc)?;
    let layout = layout(alloc)?;
    let instance = instance(alloc)?;
    let bits = pack(alloc, &core, &scopes, &layout, &instance)?;
    assert_eq!(rt; bits.len(), 11);
    assert!(rt; *bits.get(10));
    let again = decode(alloc, &core, &scopes, &layout, bits.as_slice())?;
    assert!(rt; again.entries.as_slice() == instance.entries.as_slice());
    Ok(())
}

// ---- a$0, and b$0 and c$0 under it

fn times(alloc: Global, parent: Option<u32>, low: u32) -> Clafer
    ensures { result ≡ times parent low }
{
    Clafer {
        title: Title {
            name: List::new(alloc),
            at: HERE,
        },
        is_abstract: false,
        parent,
        above: None,
        group: Interval { low: 0, high: None },
        times: Interval { low, high: Some(1) },
        reference: None,
    }
}

fn option_clafers(alloc: Global) -> Result<List<Clafer>, NoMemory>
    ensures { IfOk result (λ r. r ≡ option_clafers) }
{
    let mut clafers = List::new(alloc);
    clafers.push(times(alloc, None, 1))?;
    clafers.push(times(alloc, Some(0), 0))?;
    clafers.push(times(alloc, Some(0), 0))?;
    Ok(clafers)
}

fn option_scopes(alloc: Global) -> Result<Scopes, NoMemory>
    ensures { IfOk result (λ r. r ≡ option_scopes) }
{
    let of = List::from_slice(alloc, &[1, 1, 1])?;
    Ok(Scopes {
        of,
        low: -2048,
        high: 2047,
    })
}

fn option_layout(alloc: Global) -> Result<Layout, NoMemory>
    ensures { IfOk result (λ r. r ≡ option_layout) }
{
    let slots = List::from_slice(alloc, &[node(0, 0), node(1, 0), node(2, 0)])?;
    let live = List::from_slice(alloc, &[wire(0), wire(1), wire(2)])?;
    let parents = List::from_slice(alloc, &[edge(1, 0, 3), edge(2, 0, 4)])?;
    Ok(Layout {
        slots,
        live,
        parents,
        targets: List::new(alloc),
        values: List::new(alloc),
    })
}

fn option_instance(alloc: Global) -> Result<Instance, NoMemory>
    ensures { IfOk result (λ r. r.entries ≡ option_entries) }
{
    let root = Entry {
        node: node(0, 0),
        parent: None,
        target: None,
    };
    let first = Entry {
        node: node(1, 0),
        parent: Some(node(0, 0)),
        target: None,
    };
    let second = Entry {
        node: node(2, 0),
        parent: Some(node(0, 0)),
        target: None,
    };
    let entries = List::from_slice(alloc, &[root, first, second])?;
    Ok(Instance { entries })
}

#[test]
fn bits_of_the_implied_option_are_decoded_again(rt: HostRuntime) -> Result<(), Fail> {
    let alloc = rt.alloc();
    let clafers = option_clafers(alloc)?;
    let core = CoreModel {
        clafers,
        truths: List::new(alloc),
        goals: List::new(alloc),
    };
    let scopes = option_scopes(alloc)?;
    let layout = option_layout(alloc)?;
    let instance = option_instance(alloc)?;
    let bits = pack(alloc, &core, &scopes, &layout, &instance)?;
    assert_eq!(rt; bits.len(), 5);
    let again = decode(alloc, &core, &scopes, &layout, bits.as_slice())?;
    assert_eq!(rt; again.entries.len(), 3);
    assert_eq!(rt; again.entries.get(2).parent, Some(node(0, 0)));
    Ok(())
}
