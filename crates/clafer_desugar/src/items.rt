//! What is refused of the items of a text: enums and goals below a clafer.

ghost use Rattle.std.specs.Prelude.{◌≡◌, false};
ghost use Rattle.refusal_order.specs.Order.{with_refusals};
ghost use Rattle.clafer_desugar.specs.Refusals.{item_refusals, declared_refusals, items_refusals};

use crate::clafers::refused_if;
use clf_base::{List, Refusal};
use clf_tree::{Declared, Item};

#[tactic(auto, using(crate::proofs::Joined::joined_steps))]
#[cycle(items)]
fn in_declared(mut first: Option<Refusal>, declared: &Declared) -> Option<Refusal>
    ensures { result ≡ with_refusals first (declared_refusals declared.now) }
{
    for item in declared.items.as_slice() {
        first = in_item(first, item, true);
    }
    first
}

#[tactic(auto, using(crate::proofs::Joined::joined_steps))]
#[cycle(items)]
fn in_item(first: Option<Refusal>, item: &Item, nested: bool) -> Option<Refusal>
    ensures { result ≡ with_refusals first (item_refusals item.now nested) }
{
    match item {
        Item::Clafer(declared) => in_declared(first, declared.get()),
        Item::Enum { at, .. } => refused_if(first, nested, 53, *at),
        Item::Constraint { .. } => first,
        Item::Goal { at, .. } => refused_if(first, nested, 53, *at),
    }
}

/// Goes on over the items of a text.
#[tactic(auto, using(crate::proofs::Joined::joined_steps))]
pub fn in_items(mut first: Option<Refusal>, items: &List<Item>) -> Option<Refusal>
    ensures { result ≡ with_refusals first (items_refusals items.now false) }
{
    for item in items.as_slice() {
        first = in_item(first, item, false);
    }
    first
}
