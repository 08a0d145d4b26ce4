//! Tells how many wires the shape of models takes, and tries it on small ones at all bits.
//!
//! It begins with typical models. Then each line of the input is a name and the text of a small model with ` :: ` between them, and `~`
//! for a line's end; its integers are from -1 to 1, and without an upper bound a clafer has two instances at most. The program goes through all
//! lists of bits of such a model, and tells at how many of them they show an instance of the right shape, and at how many the wire, or the
//! instance that is decoded, is another than what is found by reading the bits one by one. Its status is 1 where there is one. With an
//! argument it tells how long typical models take.
#![tactic(auto)]

mod comparing;
mod encoding;
mod telling;
mod typical;

use crate::comparing::{Comparison, compare};
use crate::encoding::{Encoded, encode};
use crate::typical::{Sample, typical};
use clf_base::{Fault, List, NoMemory};
use clf_tree::Given;
use model_reader::{LIMIT, Read, read_model};
use std::alloc::{AllocError, Global};
use std::io::BufRead;
use std::time::Instant;
use std::{env, io};

/// Why the program can't go on.
#[derive(Debug, Drop)]
enum Trouble {
    NoMemory,
    Outside(io::Error),
    /// At some bits the wire or the decoded instance is wrong.
    Differs,
}

impl From<AllocError> for Trouble {
    fn from(_: AllocError) -> Trouble {
        Trouble::NoMemory
    }
}

impl From<NoMemory> for Trouble {
    fn from(_: NoMemory) -> Trouble {
        Trouble::NoMemory
    }
}

impl From<io::Error> for Trouble {
    fn from(error: io::Error) -> Trouble {
        Trouble::Outside(error)
    }
}

/// A text with its lines' ends put in.
fn unfolded(alloc: Global, text: &str) -> Result<Vec<u8>, AllocError> {
    let mut bytes = Vec::new(alloc);
    for byte in text.as_bytes() {
        bytes.push(if *byte == b'~' { b'\n' } else { *byte })?;
    }
    Ok(bytes)
}

/// No scopes, a scope for clafers without an upper bound, and a range of integers.
fn given(alloc: Global, default: u64, low: i64, high: i64) -> Given {
    Given {
        scopes: List::new(alloc),
        default,
        low,
        high,
    }
}

/// The model of a text, if it is one.
fn model_of(alloc: Global, text: &[u8], given: &Given) -> Result<Option<Read>, NoMemory> {
    if text.len() > LIMIT {
        return Ok(None);
    }
    match read_model(alloc, text, given) {
        Ok(read) => Ok(Some(read)),
        Err(Fault::Refused(_)) => Ok(None),
        Err(Fault::NoMemory) => Err(NoMemory),
    }
}

/// Tells the numbers of inputs and wires of a model's shape.
fn show_wires(rt: &HostRuntime, name: &str, read: &Read) -> Result<(), Trouble> {
    let encoded = encode(rt.alloc(), read)?;
    let weight = read.weight;
    let inputs = encoded.circuit.inputs();
    let wires = encoded.added;
    println!(rt; "{name}: weight {weight}, {inputs} inputs, {wires} wires of shape")?;
    Ok(())
}

/// Tells the wires of each typical model.
fn show_typical(rt: &HostRuntime) -> Result<(), Trouble> {
    let given = given(rt.alloc(), 3, -128, 127);
    for sample in typical(rt.alloc())? {
        let name = sample.name;
        match model_of(rt.alloc(), sample.text.as_slice(), &given)? {
            Some(read) => show_wires(rt, name, &read)?,
            None => println!(rt; "{name}: no model")?,
        }
    }
    Ok(())
}

/// What is told of a small model. Its wire is wrong where something differs.
fn show_comparison(rt: &HostRuntime, name: &str, read: &Read) -> Result<(), Trouble> {
    let encoded = encode(rt.alloc(), read)?;
    let Some(found) = compare(rt.alloc(), &encoded)? else {
        println!(rt; "{name}: too many bits")?;
        return Ok(());
    };
    let Comparison {
        lists,
        right,
        differences,
    } = found;
    println!(rt; "{name}: lists of bits {lists}, right {right}, differences {differences}")?;
    if differences > 0 {
        return Err(Trouble::Differs);
    }
    Ok(())
}

/// Tells of each model of the input.
fn show_input(rt: &HostRuntime) -> Result<(), Trouble> {
    for line in rt.lines(rt.alloc()) {
        let line = line?;
        let Some((name, text)) = line.as_str().split_once(" :: ") else {
            continue;
        };
        let text = unfolded(rt.alloc(), text)?;
        let given = given(rt.alloc(), 2, -1, 1);
        match model_of(rt.alloc(), text.as_slice(), &given)? {
            Some(read) => show_comparison(rt, name, &read)?,
            None => println!(rt; "{name}: no model")?,
        }
    }
    Ok(())
}

/// Tells how long the layout and the shape of a model take.
fn time_shape(rt: &HostRuntime, name: &str, read: &Read) -> Result<(), Trouble> {
    let start = Instant::now(rt)?;
    let encoded = encode(rt.alloc(), read)?;
    let micros = start.elapsed(rt)?.as_micros();
    let inputs = encoded.circuit.inputs();
    let wires = encoded.added;
    println!(rt; "{name}: {inputs} inputs and {wires} wires of shape in {micros} us")?;
    Ok(())
}

/// Times each typical model.
fn time_typical(rt: &HostRuntime) -> Result<(), Trouble> {
    let given = given(rt.alloc(), 3, -128, 127);
    for sample in typical(rt.alloc())? {
        if let Some(read) = model_of(rt.alloc(), sample.text.as_slice(), &given)? {
            time_shape(rt, sample.name, &read)?;
        }
    }
    Ok(())
}

fn main(rt: HostRuntime) -> Result<(), Trouble> {
    if env::args(&rt)?.count() > 1 {
        return time_typical(&rt);
    }
    show_typical(&rt)?;
    show_input(&rt)
}
