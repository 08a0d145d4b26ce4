//! The weights of clafers.

ghost use Rattle.std.specs.Prelude.{◌≡◌, ◌<◌, false, not, max, length, map, sum, if◌then◌else◌};
ghost use Rattle.std.specs.Option.{option_map_or};
ghost use Rattle.clf_tree.specs.Hierarchy.{reference_of};
ghost use Rattle.clf_tree.specs.Lists.{numbers_below};
ghost use Rattle.int_widths.specs.Weight.{owner_room, target_room, target_slots, has_pairs, counted_to, is_any, is_single};
ghost use Rattle.model_weight.specs.Capped.{capped};
ghost use Rattle.model_weight.specs.Clafers as spec;

use crate::numbers::{plus, range_width, times};
use crate::rooms::Rooms;
use clf_base::List;
use clf_tree::{Clafer, Interval, reference_of};

/// How many instances can be the parent of an instance of a clafer.
#[tactic(auto, using(crate::proofs::Owners::owned))]
fn owner_room(rooms: &Rooms, clafer: u32) -> u64
    requires within { clafer < length rooms.now.clafers.now }
    ensures { result ≡ owner_room rooms.now.clafers.now rooms.now.scopes.now clafer }
{
    match rooms.clafers.get(clafer as usize).parent {
        Some(parent) => rooms.of(parent),
        None => 0,
    }
}

fn target_room(rooms: &Rooms, to: Option<u32>) -> u64
    ensures { result ≡ target_room rooms.now.clafers.now rooms.now.scopes.now to }
{
    match to {
        Some(target) => rooms.of(target),
        None => range_width(rooms.scopes),
    }
}

fn target_slots(rooms: &Rooms, clafer: u32) -> u64
    ensures { result ≡ target_slots rooms.now.clafers.now rooms.now.scopes.now clafer }
{
    match reference_of(rooms.clafers, clafer) {
        Some(reference) => target_room(rooms, reference.to),
        None => 0,
    }
}

fn is_single(times: Interval) -> bool
    ensures { result ≡ is_single times }
{
    match times.high {
        Some(high) => high == 0 || high == 1,
        None => false,
    }
}

fn is_any(times: Interval) -> bool
    ensures { result ≡ is_any times }
{
    times.low == 0 && times.high.is_none()
}

/// How far so many instances are counted.
fn counted_to(times: Interval, number: u64) -> u64
    ensures { result ≡ counted_to times number }
{
    match times.high {
        Some(high) => number.min(high as u64),
        None => number.min(times.low as u64),
    }
}

fn has_set(clafers: &List<Clafer>, clafer: u32) -> bool
    ensures { result ≡ option_map_or (λ r. not r.bag) (reference_of clafers.now clafer) false }
{
    match reference_of(clafers, clafer) {
        Some(reference) => !reference.bag,
        None => false,
    }
}

/// Whether two instances with one parent are compared.
fn has_pairs(rooms: &Rooms, clafer: u32, plan: &Clafer) -> bool
    ensures { result ≡ has_pairs rooms.now.clafers.now rooms.now.scopes.now clafer plan.now }
{
    if !has_set(rooms.clafers, clafer) {
        return false;
    }
    plan.parent.is_none() || !is_single(plan.times)
}

fn larger(a: u64, b: u64) -> u64
    ensures { result ≡ max a b }
{
    a.max(b)
}

/// A concrete clafer with so many instances, owners and targets.
fn concrete(instances: u64, owners: u64, targets: u64, has_pairs: bool, counted: u64) -> u64
    ensures { result ≡ spec.concrete instances owners targets has_pairs counted }
{
    let slots = plus(plus(owners, targets), 2);
    let each = plus(1, times(times(32, instances), slots));
    let number = times(
        times(times(8, larger(owners, 1)), instances),
        plus(counted, 1),
    );
    if has_pairs {
        let pairs = times(times(times(4, instances), instances), slots);
        return plus(plus(each, pairs), number);
    }
    plus(plus(each, 0), number)
}

fn concrete_weight(rooms: &Rooms, clafer: u32, plan: &Clafer) -> u64
    requires within { clafer < length rooms.now.clafers.now }
    ensures { result ≡ spec.light_concrete rooms.now.clafers.now rooms.now.scopes.now clafer plan.now }
{
    let most = rooms.scope_of(clafer);
    concrete(
        most,
        owner_room(rooms, clafer),
        target_slots(rooms, clafer),
        has_pairs(rooms, clafer, plan),
        counted_to(plan.times, most),
    )
}

fn counting(nodes: u64, counted: u64) -> u64
    ensures { result ≡ spec.counting nodes counted }
{
    times(times(8, nodes), plus(counted, 1))
}

fn counting_below(above: u64, nodes: u64, counted: u64) -> u64
    ensures { result ≡ spec.counting_below above nodes counted }
{
    times(times(times(8, above), nodes), plus(counted, 1))
}

fn abstract_weight(rooms: &Rooms, clafer: u32, plan: &Clafer) -> u64
    ensures { result ≡ spec.light_abstract rooms.now.clafers.now rooms.now.scopes.now clafer plan.now }
{
    if is_any(plan.times) {
        return 0;
    }
    let nodes = rooms.of(clafer);
    counting(nodes, counted_to(plan.times, nodes))
}

fn group_weight(rooms: &Rooms, clafer: u32, plan: &Clafer) -> u64
    ensures { result ≡ spec.light_group rooms.now.clafers.now rooms.now.scopes.now clafer plan.now }
{
    if is_any(plan.group) {
        return 0;
    }
    let below = rooms.below(clafer);
    counting_below(rooms.of(clafer), below, counted_to(plan.group, below))
}

fn own_weight(rooms: &Rooms, clafer: u32, plan: &Clafer) -> u64
    requires within { clafer < length rooms.now.clafers.now }
    ensures { result ≡ (if plan.now.is_abstract then spec.light_abstract rooms.now.clafers.now rooms.now.scopes.now clafer plan.now else spec.light_concrete rooms.now.clafers.now rooms.now.scopes.now clafer plan.now) }
{
    if plan.is_abstract {
        return abstract_weight(rooms, clafer, plan);
    }
    concrete_weight(rooms, clafer, plan)
}

/// What one clafer adds to the weight. It goes to the clafers above it.
fn clafer_weight(rooms: &Rooms, clafer: u32) -> u64
    requires within { clafer < length rooms.now.clafers.now }
    ensures { result ≡ spec.light_at rooms.now.clafers.now rooms.now.scopes.now clafer }
{
    let plan = rooms.clafers.get(clafer as usize);
    let own = own_weight(rooms, clafer, plan);
    plus(own, group_weight(rooms, clafer, plan))
}

/// What the clafers add to the weight. Each goes to those above it.
#[tactic(auto, using(crate::proofs::Totals::number_total))]
pub fn clafers_weight(rooms: &Rooms) -> u64
    ensures { result ≡ capped (sum (map (spec.light_at rooms.now.clafers.now rooms.now.scopes.now) (numbers_below (length rooms.now.clafers.now)))) }
{
    let mut total: u64 = 0;
    for clafer in 0..rooms.clafers.len() {
        total = plus(total, clafer_weight(rooms, clafer as u32));
    }
    total
}
