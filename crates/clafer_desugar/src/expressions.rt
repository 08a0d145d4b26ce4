//! What is refused of the expressions of a plain model: names that repeat among those of one quantifier.

ghost use Rattle.std.specs.Prelude.{◌≡◌, [], IfOk};
ghost use Rattle.refusal_order.specs.Order.{with_refusals};
ghost use Rattle.clf_tree.specs.Tree.{tree};
ghost use Rattle.clafer_desugar.specs.Refusals.{names_refusals, in_tree, rules_refusals, goals_refusals};

use crate::clafers::refused_if;
use clf_base::{List, NoMemory, Refusal};
use clf_tree::{Expr, Form, Goal, Rule, Title};
use std::alloc::Global;
use std::collections::HashSet;

// The names of a quantifier, each looked up once in a set of those before it.
#[tactic(auto, using(crate::proofs::Joined::joined_steps))]
fn in_names(
    alloc: Global,
    mut first: Option<Refusal>,
    names: &List<Title>,
) -> Result<Option<Refusal>, NoMemory>
    ensures { IfOk result (λ r. r ≡ with_refusals first (names_refusals [] names.now)) }
{
    let mut seen = HashSet::new(alloc);
    for title in names.as_slice() {
        let is_new = seen.insert(title.name.as_slice())?;
        first = refused_if(first, !is_new, 51, title.at);
    }
    Ok(first)
}

// Part by part, in the order of the text.
fn in_expr(alloc: Global, first: Option<Refusal>, expr: &Expr) -> Result<Option<Refusal>, NoMemory>
    ensures { IfOk result (λ r. r ≡ in_tree (tree expr.now) first) }
{
    match &expr.form {
        Form::Join(a, _)
        | Form::Step { of: a, .. }
        | Form::Parent(a)
        | Form::Dref(a)
        | Form::Not(a)
        | Form::Card(a)
        | Form::Sum(a)
        | Form::Neg(a)
        | Form::Some(a)
        | Form::No(a)
        | Form::One(a)
        | Form::Lone(a) => in_expr(alloc, first, a.get()),
        Form::Union(a, b)
        | Form::Minus(a, b)
        | Form::Meet(a, b)
        | Form::And(a, b)
        | Form::Or(a, b)
        | Form::Xor(a, b)
        | Form::Implies(a, b)
        | Form::Iff(a, b)
        | Form::Add(a, b)
        | Form::Sub(a, b)
        | Form::Mul(a, b)
        | Form::Less(a, b)
        | Form::LessEqual(a, b)
        | Form::Greater(a, b)
        | Form::GreaterEqual(a, b)
        | Form::Equal(a, b)
        | Form::In(a, b) => {
            let first = in_expr(alloc, first, a.get())?;
            in_expr(alloc, first, b.get())
        }
        Form::If(c, a, b) => {
            let first = in_expr(alloc, first, c.get())?;
            let first = in_expr(alloc, first, a.get())?;
            in_expr(alloc, first, b.get())
        }
        Form::Quant {
            names,
            over,
            body,
            ..
        } => {
            let first = in_names(alloc, first, names)?;
            let first = in_expr(alloc, first, over.get())?;
            in_expr(alloc, first, body.get())
        }
        _ => Ok(first),
    }
}

/// Goes on over the rules of a model.
#[tactic(auto, using(crate::proofs::Joined::joined_steps))]
pub fn in_rules(
    alloc: Global,
    mut first: Option<Refusal>,
    rules: &List<Rule>,
) -> Result<Option<Refusal>, NoMemory>
    ensures { IfOk result (λ r. r ≡ with_refusals first (rules_refusals rules.now)) }
{
    for rule in rules.as_slice() {
        first = in_expr(alloc, first, &rule.body)?;
    }
    Ok(first)
}

/// Goes on over the goals of a model.
#[tactic(auto, using(crate::proofs::Joined::joined_steps))]
pub fn in_goals(
    alloc: Global,
    mut first: Option<Refusal>,
    goals: &List<Goal>,
) -> Result<Option<Refusal>, NoMemory>
    ensures { IfOk result (λ r. r ≡ with_refusals first (goals_refusals goals.now)) }
{
    for goal in goals.as_slice() {
        first = in_expr(alloc, first, &goal.body)?;
    }
    Ok(first)
}
