//! Tells whether instances satisfy models, and what their goals come to; and times it on a large product line.
//!
//! Each line of the input is a model and the text of an instance with `@` between them, and `~` for a line's end. With an argument
//! the product line alone is timed.
#![tactic(auto)]

mod evaluating;
mod product_line;

use crate::evaluating::{Evaluation, evaluate, evaluate_texts};
use crate::product_line::{instance_of, model_of};
use clf_base::{Fault, List, NoMemory};
use clf_tree::Given;
use instance_text::read;
use model_reader::read_model;
use std::alloc::{AllocError, Global};
use std::io::BufRead;
use std::time::Instant;
use std::{env, io};

/// Why the program can't go on.
#[derive(Debug, Drop)]
enum Trouble {
    NoMemory,
    Outside(io::Error),
}

impl From<AllocError> for Trouble {
    fn from(_: AllocError) -> Trouble {
        Trouble::NoMemory
    }
}

impl From<NoMemory> for Trouble {
    fn from(_: NoMemory) -> Trouble {
        Trouble::NoMemory
    }
}

impl From<io::Error> for Trouble {
    fn from(error: io::Error) -> Trouble {
        Trouble::Outside(error)
    }
}

/// A text with its lines' ends put in.
fn unfolded(alloc: Global, text: &str) -> Result<Vec<u8>, AllocError> {
    let mut bytes = Vec::new(alloc);
    for byte in text.as_bytes() {
        bytes.push(if *byte == b'~' { b'\n' } else { *byte })?;
    }
    Ok(bytes)
}

/// No scopes, and a range of integers.
fn within(alloc: Global, low: i64, high: i64) -> Given {
    Given {
        scopes: List::new(alloc),
        default: 3,
        low,
        high,
    }
}

/// The values after one another.
fn told_values(alloc: Global, values: &[i128]) -> Result<String, AllocError> {
    let mut told = String::new(alloc);
    for value in values {
        let value = format!(in alloc; " {value}")?;
        told.push_str(value.as_str())?;
    }
    Ok(told)
}

fn told_evaluation(alloc: Global, evaluation: &Evaluation) -> Result<String, AllocError> {
    match evaluation {
        Evaluation::NoInstance => "no instance".to_string(alloc),
        Evaluation::Fails => "false".to_string(alloc),
        Evaluation::Meets(values) => {
            let values = told_values(alloc, values.as_slice())?;
            format!(in alloc; "true{values}")
        }
    }
}

/// What an instance is to a model, in words.
fn told(alloc: Global, model: &[u8], given: &Given, instance: &[u8]) -> Result<String, AllocError> {
    if model.len() > 1048576 {
        return "too long".to_string(alloc);
    }
    match evaluate_texts(alloc, model, given, instance) {
        Ok(evaluation) => told_evaluation(alloc, &evaluation),
        Err(Fault::Refused(refusal)) => {
            let code = refusal.code;
            let line = refusal.at.line;
            let column = refusal.at.column;
            format!(in alloc; "refused {code} at {line}:{column}")
        }
        Err(Fault::NoMemory) => "no memory".to_string(alloc),
    }
}

/// Tells of each model and instance of the input.
fn show_input(rt: &HostRuntime) -> Result<(), Trouble> {
    for line in rt.lines(rt.alloc()) {
        let line = line?;
        let Some((model, instance)) = line.as_str().split_once('@') else {
            continue;
        };
        let model = unfolded(rt.alloc(), model)?;
        let instance = unfolded(rt.alloc(), instance)?;
        let given = within(rt.alloc(), -32768, 32767);
        let outcome = told(rt.alloc(), model.as_slice(), &given, instance.as_slice())?;
        println!(rt; "{line}\n   {outcome}")?;
    }
    Ok(())
}

/// Times the reading of a product line and of its instance, and the values of its goals.
fn time_product_line(rt: &HostRuntime, features: u32) -> Result<(), Trouble> {
    let alloc = rt.alloc();
    let text = model_of(alloc, features)?;
    let shown = instance_of(alloc, features)?;
    if text.len() > 1048576 {
        return Ok(());
    }
    let start = Instant::now(rt)?;
    let Ok(found) = read_model(alloc, text.as_slice(), &within(alloc, -2048, 2047)) else {
        println!(rt; "{features} features: refused")?;
        return Ok(());
    };
    let reading = start.elapsed(rt)?.as_micros();
    let start = Instant::now(rt)?;
    let Some(instance) = read(alloc, found.model.model(), shown.as_slice())? else {
        println!(rt; "{features} features: no instance")?;
        return Ok(());
    };
    let finding = start.elapsed(rt)?.as_micros();
    let start = Instant::now(rt)?;
    let evaluation = evaluate(alloc, &found, &instance)?;
    let evaluating = start.elapsed(rt)?.as_micros();
    let outcome = told_evaluation(alloc, &evaluation)?;
    println!(rt;
        "{features} features: model read in {reading} us, instance in {finding} us; holds and vector in {evaluating} us: {outcome}"
    )?;
    Ok(())
}

/// Times product lines of several sizes.
fn time_product_lines(rt: &HostRuntime) -> Result<(), Trouble> {
    for features in [50, 100, 200, 400] {
        time_product_line(rt, features)?;
    }
    Ok(())
}

fn main(rt: HostRuntime) -> Result<(), Trouble> {
    if env::args(&rt)?.count() > 1 {
        return time_product_lines(&rt);
    }
    show_input(&rt)
}
