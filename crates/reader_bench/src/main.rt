//! Shows what is read of small texts: the weight of a model, or the first refusal. It times the way from bytes to a weight on longer
//! ones.
//!
//! Each line of the input is a text, with `~` for a line's end. Settings may stand before it and ` :: `, with `, ` between two:
//! `scope PATH=N`, `default N`, `low N`, `high N`. With an argument it times longer texts alone.
#![tactic(auto)]

mod settings;

use crate::settings::{nothing_given, settings};
use clf_base::{Fault, NoMemory, Refusal};
use clf_tree::Given;
use model_reader::{LIMIT, read_model};
use std::alloc::{AllocError, Global};
use std::io::BufRead;
use std::time::Instant;
use std::{env, io};

/// Why the program can't go on.
#[derive(Debug, Drop)]
enum Trouble {
    NoMemory,
    Outside(io::Error),
}

impl From<AllocError> for Trouble {
    fn from(_: AllocError) -> Trouble {
        Trouble::NoMemory
    }
}

impl From<NoMemory> for Trouble {
    fn from(_: NoMemory) -> Trouble {
        Trouble::NoMemory
    }
}

impl From<io::Error> for Trouble {
    fn from(error: io::Error) -> Trouble {
        Trouble::Outside(error)
    }
}

/// What is told of a text.
#[derive(Clone, Copy, Debug)]
enum Outcome {
    Weight(u64),
    Refused(Refusal),
    Nothing,
}

fn outcome_of(alloc: Global, text: &[u8], given: &Given) -> Outcome {
    if text.len() > LIMIT {
        return Outcome::Nothing;
    }
    match read_model(alloc, text, given) {
        Ok(read) => Outcome::Weight(read.weight),
        Err(Fault::Refused(refusal)) => Outcome::Refused(refusal),
        Err(Fault::NoMemory) => Outcome::Nothing,
    }
}

/// A line with its ends put in.
fn unfolded(alloc: Global, line: &str) -> Result<Vec<u8>, AllocError> {
    let mut text = Vec::new(alloc);
    for byte in line.as_bytes() {
        let byte = if *byte == b'~' { b'\n' } else { *byte };
        text.push(byte)?;
    }
    Ok(text)
}

fn shown(alloc: Global, told: Outcome) -> Result<String, AllocError> {
    match told {
        Outcome::Weight(weight) => format!(in alloc; "weight {weight}"),
        Outcome::Refused(refusal) => {
            let (code, line, column) = (refusal.code, refusal.at.line, refusal.at.column);
            let value = refusal.value;
            format!(in alloc; "E0{code} {line}:{column} {value}")
        }
        Outcome::Nothing => Ok(String::new(alloc)),
    }
}

/// What is told of a line of the input.
fn shown_line(alloc: Global, line: &str) -> Result<String, Trouble> {
    let (words, text) = match line.split_once(" :: ") {
        Some((words, text)) => (words, text),
        None => ("", line),
    };
    let given = settings(alloc, words)?;
    let text = unfolded(alloc, text)?;
    let told = outcome_of(alloc, text.as_slice(), &given);
    Ok(shown(alloc, told)?)
}

/// Shows each text of the input.
fn show_input(rt: &HostRuntime) -> Result<(), Trouble> {
    for line in rt.lines(rt.alloc()) {
        let line = line?;
        let shown = shown_line(rt.alloc(), line.as_str())?;
        println!(rt; "{line}\n    {shown}")?;
    }
    Ok(())
}

/// An optional feature with a cost and a constraint, so many times, each with a number of its own.
fn features(alloc: Global, times: usize) -> Result<Vec<u8>, AllocError> {
    let mut text = Vec::new(alloc);
    text.extend_from_slice(b"abstract Part\n    cost -> int\n")?;
    for number in 0..times {
        let feature = format!(in alloc; "f{number} : Part ?\n    [ cost = 3 ]\n")?;
        text.extend_from_slice(feature.as_bytes())?;
    }
    Ok(text)
}

/// Times the reading of texts of more and more features.
fn time_long_texts(rt: &HostRuntime) -> Result<(), Trouble> {
    let given = nothing_given(rt.alloc());
    for times in [125, 250, 500] {
        let text = features(rt.alloc(), times)?;
        let start = Instant::now(rt)?;
        let told = outcome_of(rt.alloc(), text.as_slice(), &given);
        let micros = start.elapsed(rt)?.as_micros();
        let bytes = text.len();
        let shown = shown(rt.alloc(), told)?;
        println!(rt; "{bytes} bytes in {micros} us: {shown}")?;
    }
    Ok(())
}

fn main(rt: HostRuntime) -> Result<(), Trouble> {
    if env::args(&rt)?.count() > 1 {
        return time_long_texts(&rt);
    }
    show_input(&rt)
}
