//! A module as one line: each node in parentheses, with its place.

use clf_base::{Fault, List, Span};
use clf_tree::{Declared, Expr, Form, Interval, Item, Module, Pointer, Title, Word};
use std::alloc::{AllocError, Global};
use std::fmt::Write;

/// A place behind what stands there.
fn show_at(out: &mut String, at: Span) -> Result<(), AllocError> {
    let (line, column) = (at.line, at.column);
    write!(out, "@{line}:{column}")?;
    Ok(())
}

fn show_bytes(out: &mut String, bytes: &List<u8>) -> Result<(), AllocError> {
    for byte in bytes.as_slice() {
        let letter = *byte as char;
        write!(out, "{letter}")?;
    }
    Ok(())
}

fn show_title(out: &mut String, title: &Title) -> Result<(), AllocError> {
    write!(out, " ")?;
    show_bytes(out, &title.name)?;
    show_at(out, title.at)
}

fn show_interval(out: &mut String, interval: &Interval) -> Result<(), AllocError> {
    let low = interval.low;
    match interval.high {
        Some(high) => write!(out, "{low}..{high}")?,
        None => write!(out, "{low}..*")?,
    }
    Ok(())
}

/// The sign or word of a form.
fn sign_of(form: &Form) -> &'static str {
    match form {
        Form::This => "this",
        Form::Parent(_) => "parent",
        Form::Dref(_) => "dref",
        Form::Union(_, _) => "++",
        Form::Minus(_, _) => "--",
        Form::Meet(_, _) => "**",
        Form::If(_, _, _) => "if",
        Form::Not(_) => "!",
        Form::And(_, _) => "&&",
        Form::Or(_, _) => "||",
        Form::Xor(_, _) => "xor",
        Form::Implies(_, _) => "=>",
        Form::Iff(_, _) => "<=>",
        Form::Card(_) => "#",
        Form::Sum(_) => "sum",
        Form::Neg(_) | Form::Sub(_, _) => "-",
        Form::Add(_, _) => "+",
        Form::Mul(_, _) => "*",
        Form::Less(_, _) => "<",
        Form::LessEqual(_, _) => "<=",
        Form::Greater(_, _) => ">",
        Form::GreaterEqual(_, _) => ">=",
        Form::Equal(_, _) => "=",
        Form::In(_, _) => "in",
        Form::Some(_) => "some",
        Form::No(_) => "no",
        Form::One(_) => "one",
        Form::Lone(_) => "lone",
        _ => "?",
    }
}

fn show_word(word: Word) -> &'static str {
    match word {
        Word::All => "all",
        Word::Some => "some",
        Word::No => "no",
        Word::One => "one",
        Word::Lone => "lone",
        _ => "?",
    }
}

/// What an expression is, before its operands.
fn show_leading(out: &mut String, expr: &Expr) -> Result<(), AllocError> {
    match &expr.form {
        Form::Literal(value) => write!(out, "{value}")?,
        Form::Name(name) => show_bytes(out, name)?,
        Form::Join(_, name) => {
            write!(out, ".")?;
            show_bytes(out, name)?;
        }
        Form::Quant {
            word,
            disj: true,
            names: _,
            over: _,
            body: _,
        } => {
            let word = show_word(*word);
            write!(out, "{word} disj")?;
        }
        Form::Quant {
            word,
            disj: false,
            names: _,
            over: _,
            body: _,
        } => {
            let word = show_word(*word);
            write!(out, "{word}")?;
        }
        form => {
            let sign = sign_of(form);
            write!(out, "{sign}")?;
        }
    }
    show_at(out, expr.at)
}

fn show_titles(out: &mut String, titles: &List<Title>) -> Result<(), AllocError> {
    for title in titles.as_slice() {
        show_title(out, title)?;
    }
    Ok(())
}

/// An expression: what it is, its place, and its operands.
fn show_expr(out: &mut String, expr: &Expr) -> Result<(), AllocError> {
    write!(out, " (")?;
    show_leading(out, expr)?;
    match &expr.form {
        Form::Join(a, _)
        | Form::Parent(a)
        | Form::Dref(a)
        | Form::Not(a)
        | Form::Card(a)
        | Form::Sum(a)
        | Form::Neg(a)
        | Form::Some(a)
        | Form::No(a)
        | Form::One(a)
        | Form::Lone(a) => show_expr(out, a.get())?,
        Form::Union(a, b)
        | Form::Minus(a, b)
        | Form::Meet(a, b)
        | Form::And(a, b)
        | Form::Or(a, b)
        | Form::Xor(a, b)
        | Form::Implies(a, b)
        | Form::Iff(a, b)
        | Form::Add(a, b)
        | Form::Sub(a, b)
        | Form::Mul(a, b)
        | Form::Less(a, b)
        | Form::LessEqual(a, b)
        | Form::Greater(a, b)
        | Form::GreaterEqual(a, b)
        | Form::Equal(a, b)
        | Form::In(a, b) => {
            show_expr(out, a.get())?;
            show_expr(out, b.get())?;
        }
        Form::If(a, b, c) => {
            show_expr(out, a.get())?;
            show_expr(out, b.get())?;
            show_expr(out, c.get())?;
        }
        Form::Quant {
            word: _,
            disj: _,
            names,
            over,
            body,
        } => {
            show_titles(out, names)?;
            show_expr(out, over.get())?;
            show_expr(out, body.get())?;
        }
        _ => {}
    }
    write!(out, ")")?;
    Ok(())
}

fn show_pointer(out: &mut String, pointer: &Pointer) -> Result<(), AllocError> {
    write!(out, " ->")?;
    if pointer.bag {
        write!(out, ">")?;
    }
    show_at(out, pointer.at)?;
    match &pointer.to {
        Some(title) => show_title(out, title),
        None => {
            write!(out, " int")?;
            Ok(())
        }
    }
}

/// The head of a clafer.
fn show_head(out: &mut String, declared: &Declared) -> Result<(), AllocError> {
    write!(out, " (clafer")?;
    show_at(out, declared.at)?;
    if declared.is_abstract {
        write!(out, " abstract")?;
    }
    if let Some(group) = &declared.group {
        write!(out, " group ")?;
        show_interval(out, group)?;
    }
    show_title(out, &declared.title)?;
    if let Some(above) = &declared.above {
        write!(out, " :")?;
        show_title(out, above)?;
    }
    if let Some(pointer) = &declared.reference {
        show_pointer(out, pointer)?;
    }
    if let Some(times) = &declared.times {
        write!(out, " times ")?;
        show_interval(out, times)?;
    }
    Ok(())
}

/// The expression of a clafer.
fn show_start(out: &mut String, declared: &Declared) -> Result<(), AllocError> {
    if let Some(start) = &declared.start {
        write!(out, " =")?;
        show_at(out, start.at)?;
        show_expr(out, &start.body)?;
    }
    Ok(())
}

fn show_parts(out: &mut String, parts: &List<Expr>) -> Result<(), AllocError> {
    for part in parts.as_slice() {
        show_expr(out, part)?;
    }
    Ok(())
}

/// An item that is no clafer.
fn show_leaf(out: &mut String, item: &Item) -> Result<(), AllocError> {
    match item {
        Item::Enum { at, title, members } => {
            write!(out, " (enum")?;
            show_at(out, *at)?;
            show_title(out, title)?;
            write!(out, " =")?;
            show_titles(out, members)?;
        }
        Item::Constraint { at, parts } => {
            write!(out, " (constraint")?;
            show_at(out, *at)?;
            show_parts(out, parts)?;
        }
        Item::Goal { at, least, body } => {
            let word = if *least { "min" } else { "max" };
            write!(out, " (goal {word}")?;
            show_at(out, *at)?;
            show_expr(out, body)?;
        }
        Item::Clafer(_) => {}
    }
    write!(out, ")")?;
    Ok(())
}

/// An item with those below it, so many levels deep.
fn show_item(out: &mut String, item: &Item, levels: u32) -> Result<(), AllocError> {
    let Item::Clafer(declared) = item else {
        return show_leaf(out, item);
    };
    let declared = declared.get();
    show_head(out, declared)?;
    show_start(out, declared)?;
    if levels > 0 {
        for inner in declared.items.as_slice() {
            show_item(out, inner, levels - 1)?;
        }
    }
    write!(out, ")")?;
    Ok(())
}

/// A module in one line, or a refusal.
pub(crate) fn show(alloc: Global, outcome: &Result<Module, Fault>) -> Result<String, AllocError> {
    let mut out = String::new(alloc);
    match outcome {
        Ok(module) => {
            for item in module.items.as_slice() {
                show_item(&mut out, item, 64)?;
            }
        }
        Err(Fault::Refused(refusal)) => {
            let (code, value) = (refusal.code, refusal.value);
            write!(out, " E0{code}")?;
            show_at(&mut out, refusal.at)?;
            write!(out, " {value}")?;
        }
        Err(Fault::NoMemory) => write!(out, " no memory")?,
    }
    Ok(out)
}
