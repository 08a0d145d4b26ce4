//! A model as one line: its clafers with their numbers, its constraints and its goals.

use clf_base::{Fault, List};
use clf_tree::{Clafer, Expr, Form, Model, Named, Reference, Title, Word};
use std::alloc::{AllocError, Global};
use std::fmt::Write;

fn show_bytes(out: &mut String, bytes: &List<u8>) -> Result<(), AllocError> {
    for byte in bytes.as_slice() {
        let letter = *byte as char;
        write!(out, "{letter}")?;
    }
    Ok(())
}

/// The sign or word of a form that has operands.
fn sign_of(form: &Form) -> &'static str {
    match form {
        Form::Union(_, _) => "++",
        Form::Minus(_, _) => "--",
        Form::Meet(_, _) => "**",
        Form::If(_, _, _) => "if",
        Form::Not(_) => "!",
        Form::And(_, _) => "&&",
        Form::Or(_, _) => "||",
        Form::Xor(_, _) => "xor",
        Form::Implies(_, _) => "=>",
        Form::Iff(_, _) => "<=>",
        Form::Card(_) => "#",
        Form::Sum(_) => "sum",
        Form::Neg(_) | Form::Sub(_, _) => "-",
        Form::Add(_, _) => "+",
        Form::Mul(_, _) => "*",
        Form::Less(_, _) => "<",
        Form::LessEqual(_, _) => "<=",
        Form::Greater(_, _) => ">",
        Form::GreaterEqual(_, _) => ">=",
        Form::Equal(_, _) => "=",
        Form::In(_, _) => "in",
        Form::Some(_) => "some",
        Form::No(_) => "no",
        Form::One(_) => "one",
        Form::Lone(_) => "lone",
        _ => "?",
    }
}

fn word_of(word: Word) -> &'static str {
    match word {
        Word::All => "all",
        Word::Some => "some",
        Word::No => "no",
        Word::One => "one",
        Word::Lone => "lone",
        _ => "?",
    }
}

/// The clafers that a step leads into: children, or children of the targets.
fn show_step(out: &mut String, into: &List<u32>, follow: bool) -> Result<(), AllocError> {
    let sign = if follow { "->" } else { "/" };
    write!(out, "{sign}")?;
    let mut separator = "";
    for number in into.as_slice() {
        write!(out, "{separator}{number}")?;
        separator = ",";
    }
    Ok(())
}

/// A quantifier, before its operands.
fn show_quantifier(
    out: &mut String,
    word: Word,
    disj: bool,
    names: &List<Title>,
) -> Result<(), AllocError> {
    let word = word_of(word);
    write!(out, "{word}")?;
    if disj {
        write!(out, " disj")?;
    }
    for title in names.as_slice() {
        write!(out, " ")?;
        show_bytes(out, &title.name)?;
    }
    Ok(())
}

/// An expression: what it is, with its operands behind it in parentheses, or before the steps that it takes.
fn show_expr(out: &mut String, expr: &Expr) -> Result<(), AllocError> {
    match &expr.form {
        Form::Literal(value) => write!(out, "{value}")?,
        Form::This => write!(out, "this")?,
        Form::Variable(number) => write!(out, "${number}")?,
        Form::Clafer(number) => write!(out, "@{number}")?,
        Form::Name(_) | Form::Join(_, _) => write!(out, "?")?,
        Form::Step { of, into, follow } => {
            show_expr(out, of.get())?;
            show_step(out, into, *follow)?;
        }
        Form::Parent(a) => {
            show_expr(out, a.get())?;
            write!(out, ".parent")?;
        }
        Form::Dref(a) => {
            show_expr(out, a.get())?;
            write!(out, ".dref")?;
        }
        Form::Not(a)
        | Form::Card(a)
        | Form::Sum(a)
        | Form::Neg(a)
        | Form::Some(a)
        | Form::No(a)
        | Form::One(a)
        | Form::Lone(a) => {
            let sign = sign_of(&expr.form);
            write!(out, "{sign}(")?;
            show_expr(out, a.get())?;
            write!(out, ")")?;
        }
        Form::Union(a, b)
        | Form::Minus(a, b)
        | Form::Meet(a, b)
        | Form::And(a, b)
        | Form::Or(a, b)
        | Form::Xor(a, b)
        | Form::Implies(a, b)
        | Form::Iff(a, b)
        | Form::Add(a, b)
        | Form::Sub(a, b)
        | Form::Mul(a, b)
        | Form::Less(a, b)
        | Form::LessEqual(a, b)
        | Form::Greater(a, b)
        | Form::GreaterEqual(a, b)
        | Form::Equal(a, b)
        | Form::In(a, b) => {
            let sign = sign_of(&expr.form);
            write!(out, "{sign}(")?;
            show_expr(out, a.get())?;
            write!(out, ", ")?;
            show_expr(out, b.get())?;
            write!(out, ")")?;
        }
        Form::If(a, b, c) => {
            write!(out, "if(")?;
            show_expr(out, a.get())?;
            write!(out, ", ")?;
            show_expr(out, b.get())?;
            write!(out, ", ")?;
            show_expr(out, c.get())?;
            write!(out, ")")?;
        }
        Form::Quant {
            word,
            disj,
            names,
            over,
            body,
        } => {
            show_quantifier(out, *word, *disj, names)?;
            write!(out, "(")?;
            show_expr(out, over.get())?;
            write!(out, ", ")?;
            show_expr(out, body.get())?;
            write!(out, ")")?;
        }
    }
    Ok(())
}

fn show_reference(out: &mut String, reference: Reference) -> Result<(), AllocError> {
    let arrow = if reference.bag { "->>" } else { "->" };
    match reference.to {
        Some(target) => write!(out, " {arrow} {target}")?,
        None => write!(out, " {arrow} int")?,
    }
    Ok(())
}

/// A clafer: its number and name, the clafer that it is declared in, its super, and what it refers to.
fn show_clafer(out: &mut String, number: usize, clafer: &Clafer) -> Result<(), AllocError> {
    write!(out, " ({number} ")?;
    show_bytes(out, &clafer.title.name)?;
    if let Some(parent) = clafer.parent {
        write!(out, " in {parent}")?;
    }
    if let Some(above) = clafer.above {
        write!(out, " : {above}")?;
    }
    if let Some(reference) = clafer.reference {
        show_reference(out, reference)?;
    }
    write!(out, ")")?;
    Ok(())
}

/// The constraints, each behind the number of its context.
fn show_rules(out: &mut String, model: &Model) -> Result<(), AllocError> {
    for rule in model.rules.as_slice() {
        write!(out, " [")?;
        if let Some(context) = rule.context {
            write!(out, "{context}: ")?;
        }
        show_expr(out, &rule.body)?;
        write!(out, "]")?;
    }
    Ok(())
}

fn show_goals(out: &mut String, model: &Model) -> Result<(), AllocError> {
    for goal in model.goals.as_slice() {
        let word = if goal.least { "min" } else { "max" };
        write!(out, " <<{word} ")?;
        show_expr(out, &goal.body)?;
        write!(out, ">>")?;
    }
    Ok(())
}

fn show_model(out: &mut String, model: &Model) -> Result<(), AllocError> {
    for (number, clafer) in model.clafers.as_slice().iter().enumerate() {
        show_clafer(out, number, clafer)?;
    }
    show_rules(out, model)?;
    show_goals(out, model)
}

/// A model in one line, or a refusal.
pub(crate) fn show(alloc: Global, outcome: &Result<Named, Fault>) -> Result<String, AllocError> {
    let mut out = String::new(alloc);
    match outcome {
        Ok(named) => show_model(&mut out, named.model())?,
        Err(Fault::Refused(refusal)) => {
            let (code, value) = (refusal.code, refusal.value);
            let (line, column) = (refusal.at.line, refusal.at.column);
            write!(out, " E0{code} {line}:{column} {value}")?;
        }
        Err(Fault::NoMemory) => write!(out, " no memory")?,
    }
    Ok(out)
}
