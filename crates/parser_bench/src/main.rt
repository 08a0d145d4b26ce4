//! Shows the modules of small texts, and times the way from bytes to a module on long ones.
//!
//! Each line of the input is a text, with `~` for a line's end and `^` for CR. With an argument it times long texts alone.
#![tactic(auto)]

mod reading;
mod showing;

use crate::reading::read;
use crate::showing::show;
use clf_base::Fault;
use std::alloc::{AllocError, Global};
use std::io::BufRead;
use std::time::Instant;
use std::{env, io};

/// Why the program can't go on.
#[derive(Debug, Drop)]
enum Trouble {
    NoMemory,
    Outside(io::Error),
}

impl From<AllocError> for Trouble {
    fn from(_: AllocError) -> Trouble {
        Trouble::NoMemory
    }
}

impl From<io::Error> for Trouble {
    fn from(error: io::Error) -> Trouble {
        Trouble::Outside(error)
    }
}

/// A piece so many times.
fn repeated(alloc: Global, piece: &[u8], times: usize) -> Result<Vec<u8>, AllocError> {
    let mut text = Vec::new(alloc);
    for _ in 0..times {
        text.extend_from_slice(piece)?;
    }
    Ok(text)
}

/// A line with its ends and CR put in.
fn unfolded(alloc: Global, line: &str) -> Result<Vec<u8>, AllocError> {
    let mut text = Vec::new(alloc);
    for byte in line.as_bytes() {
        let byte = match *byte {
            b'~' => b'\n',
            b'^' => b'\r',
            other => other,
        };
        text.push(byte)?;
    }
    Ok(text)
}

/// Shows the module of a text.
fn shown(alloc: Global, text: &[u8]) -> Result<String, AllocError> {
    if text.len() > 1048576 {
        return Ok(String::new(alloc));
    }
    let outcome = read(alloc, text);
    show(alloc, &outcome)
}

/// Texts of a begin, a piece again and again, a middle, another piece as often, and an end.
#[derive(Drop)]
struct Shape {
    what: &'static str,
    begin: &'static [u8],
    piece: &'static [u8],
    middle: &'static [u8],
    other: &'static [u8],
    end: &'static [u8],
}

/// The text of a shape with so many pieces.
fn text_of(alloc: Global, shape: &Shape, times: usize) -> Result<Vec<u8>, AllocError> {
    let mut text = Vec::new(alloc);
    text.extend_from_slice(shape.begin)?;
    let pieces = repeated(alloc, shape.piece, times)?;
    text.extend_from_slice(pieces.as_slice())?;
    text.extend_from_slice(shape.middle)?;
    let others = repeated(alloc, shape.other, times)?;
    text.extend_from_slice(others.as_slice())?;
    text.extend_from_slice(shape.end)?;
    Ok(text)
}

/// How many items a text has, or a refusal.
fn counted(alloc: Global, text: &[u8]) -> Result<String, AllocError> {
    if text.len() > 1048576 {
        return Ok(String::new(alloc));
    }
    match read(alloc, text) {
        Ok(module) => {
            let count = module.items.len();
            Ok(format!(in alloc; " {count} items")?)
        }
        other => show(alloc, &other),
    }
}

/// Shows each text of the input.
fn show_input(rt: &HostRuntime) -> Result<(), Trouble> {
    for line in rt.lines(rt.alloc()) {
        let line = line?;
        let text = unfolded(rt.alloc(), line.as_str())?;
        let module = shown(rt.alloc(), text.as_slice())?;
        println!(rt; "{line}\n   {module}")?;
    }
    Ok(())
}

/// Shows what the texts of a shape have with these numbers of pieces.
fn show_shape(rt: &HostRuntime, shape: &Shape, counts: [usize; 2]) -> Result<(), Trouble> {
    for count in counts {
        let text = text_of(rt.alloc(), shape, count)?;
        let module = counted(rt.alloc(), text.as_slice())?;
        let what = shape.what;
        println!(rt; "{count} {what}:{module}")?;
    }
    Ok(())
}

/// Shows texts at the limit of open brackets and blocks, and past it.
fn show_depths(rt: &HostRuntime) -> Result<(), Trouble> {
    let parentheses = Shape {
        what: "parentheses in a bracket",
        begin: b"[",
        piece: b"(",
        middle: b"a",
        other: b")",
        end: b"]",
    };
    show_shape(rt, &parentheses, [63, 64])?;
    let blocks = Shape {
        what: "blocks",
        begin: b"",
        piece: b"a{",
        middle: b"",
        other: b"}",
        end: b"",
    };
    show_shape(rt, &blocks, [64, 65])?;
    let brackets = Shape {
        what: "blocks round a bracket",
        begin: b"",
        piece: b"a{",
        middle: b"[a]",
        other: b"}",
        end: b"",
    };
    show_shape(rt, &brackets, [63, 64])
}

/// A shape with nothing behind its pieces but an end.
fn row(
    what: &'static str,
    begin: &'static [u8],
    piece: &'static [u8],
    end: &'static [u8],
) -> Shape {
    Shape {
        what,
        begin,
        piece,
        middle: b"",
        other: b"",
        end,
    }
}

/// Shows texts at the limit of tokens between two marks, and past it.
fn show_rows(rt: &HostRuntime) -> Result<(), Trouble> {
    let sum = row("operators behind a minus", b"[ - a", b" + a", b" ]");
    show_shape(rt, &sum, [499, 500])?;
    let members = row("members behind one", b"enum a = b", b" | b", b"");
    show_shape(rt, &members, [498, 499])?;
    let names = row("names in a line", b"", b"a ", b"");
    show_shape(rt, &names, [1000, 1001])?;
    let lines = row("lines of a name", b"", b"a\n", b"");
    show_shape(rt, &lines, [1000, 1001])
}

/// Times texts of nearly the greatest length.
fn time_long_texts(rt: &HostRuntime) -> Result<(), Trouble> {
    let pieces: [(&[u8], usize); 3] = [
        (
            b"abstract Part\n    cost -> int\n    gain -> int\nlens : Part ?\n    [ cost = 3 ]\n    [ gain = 4 ]\n",
            11155,
        ),
        (
            b"abstract xor a : b ->> c 2..* = d + 1 { [ !(a.b = c) && d => (some x ; y : e.f | x != y) ] }\n",
            11275,
        ),
        (
            b"[ a <=> b || c && !d xor e.parent.dref + 3 * #f - sum g = h ** i ]\n",
            15650,
        ),
    ];
    for (piece, times) in pieces {
        let text = repeated(rt.alloc(), piece, times)?;
        let start = Instant::now(rt)?;
        let module = counted(rt.alloc(), text.as_slice())?;
        let micros = start.elapsed(rt)?.as_micros();
        let bytes = text.len();
        println!(rt; "{bytes} bytes in {micros} us:{module}")?;
    }
    Ok(())
}

fn main(rt: HostRuntime) -> Result<(), Trouble> {
    if env::args(&rt)?.count() > 1 {
        return time_long_texts(&rt);
    }
    show_input(&rt)?;
    show_depths(&rt)?;
    show_rows(&rt)
}
