//! Shows what the names of small texts mean, and times the way from bytes to a model with its names looked up on longer ones.
//!
//! Each line of the input is a text, with `~` for a line's end. With an argument it times longer texts alone.
#![tactic(auto)]

mod reading;
mod showing;

use crate::reading::read;
use crate::showing::show;
use clf_base::Fault;
use std::alloc::{AllocError, Global};
use std::io::BufRead;
use std::time::Instant;
use std::{env, io};

/// Why the program can't go on.
#[derive(Debug, Drop)]
enum Trouble {
    NoMemory,
    Outside(io::Error),
}

impl From<AllocError> for Trouble {
    fn from(_: AllocError) -> Trouble {
        Trouble::NoMemory
    }
}

impl From<io::Error> for Trouble {
    fn from(error: io::Error) -> Trouble {
        Trouble::Outside(error)
    }
}

/// A line with its ends put in.
fn unfolded(alloc: Global, line: &str) -> Result<Vec<u8>, AllocError> {
    let mut text = Vec::new(alloc);
    for byte in line.as_bytes() {
        let byte = if *byte == b'~' { b'\n' } else { *byte };
        text.push(byte)?;
    }
    Ok(text)
}

/// Shows the model of a text.
fn shown(alloc: Global, text: &[u8]) -> Result<String, AllocError> {
    if text.len() > 1048576 {
        return Ok(String::new(alloc));
    }
    let outcome = read(alloc, text);
    show(alloc, &outcome)
}

/// Shows each text of the input.
fn show_input(rt: &HostRuntime) -> Result<(), Trouble> {
    for line in rt.lines(rt.alloc()) {
        let line = line?;
        let text = unfolded(rt.alloc(), line.as_str())?;
        let model = shown(rt.alloc(), text.as_slice())?;
        println!(rt; "{line}\n   {model}")?;
    }
    Ok(())
}

/// How many clafers the model of a text has, or a refusal.
fn counted(alloc: Global, text: &[u8]) -> Result<String, AllocError> {
    if text.len() > 1048576 {
        return Ok(String::new(alloc));
    }
    match read(alloc, text) {
        Ok(named) => {
            let count = named.model().clafers.len();
            Ok(format!(in alloc; " {count} clafers")?)
        }
        other => show(alloc, &other),
    }
}

/// A feature with two parts and a constraint, so many times, each with a number of its own.
fn features(alloc: Global, times: usize) -> Result<Vec<u8>, AllocError> {
    let mut text = Vec::new(alloc);
    text.extend_from_slice(b"abstract Part\n    cost -> int\n")?;
    for number in 0..times {
        let feature = format!(in alloc;
            "f{number} : Part ?\n    lens ?\n    [ lens => cost = 3 ]\n"
        )?;
        text.extend_from_slice(feature.as_bytes())?;
    }
    Ok(text)
}

/// Times the reading of texts of more and more features.
fn time_long_texts(rt: &HostRuntime) -> Result<(), Trouble> {
    for times in [250, 500, 1000, 2000, 4000] {
        let text = features(rt.alloc(), times)?;
        let start = Instant::now(rt)?;
        let model = counted(rt.alloc(), text.as_slice())?;
        let micros = start.elapsed(rt)?.as_micros();
        let bytes = text.len();
        println!(rt; "{bytes} bytes in {micros} us:{model}")?;
    }
    Ok(())
}

fn main(rt: HostRuntime) -> Result<(), Trouble> {
    if env::args(&rt)?.count() > 1 {
        return time_long_texts(&rt);
    }
    show_input(&rt)
}
