//! Searches the fronts of typical models, and tells how many questions a point takes, and what the last question rests on.
//!
//! Of each typical model it looks for a few points, with a small budget for each question. Then each line of the input is a name and the
//! text of a small model with ` :: ` between them, and `~` for a line's end. The front of each such model is searched by two guides, which
//! have to find the same, and what closes it goes to a new checker. The status is 1 where something is wrong.
//!
//! With the word `time` only the typical models are searched, for their whole fronts, and the times are told too; a number behind it takes
//! only that model, from 0 on.
#![tactic(auto)]

mod checking;
mod comparing;
mod measure;
mod reading;
mod typical;

use crate::comparing::{Guides, compare};
use crate::measure::{Ask, BUDGET, Count, Last, Measured, Times, count_of, measure};
use crate::reading::model_of;
use crate::typical::{Sample, typical};
use anyhow::{Result, ensure};
use clf_tree::Point;
use search_guide::Guide;
use std::env;
use std::io::BufRead;

/// How many points are searched of a typical model where no times are told.
const FEW_POINTS: u32 = 3;

/// How many clauses a question may take then.
const SMALL_BUDGET: u64 = 100_000;

/// Tells of a search.
fn show_count(rt: &HostRuntime, name: &str, count: Count) -> Result<()> {
    let Count {
        ended,
        points,
        questions,
    } = count;
    let tenths = (questions.saturating_mul(10)).checked_div(points as u64);
    print!(rt; "{name}: points {points}, {ended}; questions {questions}")?;
    if let Some(tenths) = tenths {
        let (whole, tenth) = (tenths / 10, tenths % 10);
        print!(rt; ", {whole}.{tenth} a point")?;
    }
    println!(rt; "")?;
    Ok(())
}

/// Tells of the last question of a search.
fn show_last(rt: &HostRuntime, last: Last) -> Result<()> {
    let Last {
        wires,
        clauses,
        chains,
        steps,
        is_right,
    } = last;
    println!(rt;
        "  the last question: {wires} wires, {clauses} clauses, {chains} chains of {steps} steps, right {is_right}"
    )?;
    Ok(())
}

/// Tells how long a search took.
fn show_times(rt: &HostRuntime, measured: Measured) -> Result<()> {
    let all = measured.all;
    let each = all.checked_div(measured.count.questions).unwrap_or(0);
    println!(rt; "  {all} us, {each} us a question")?;
    if let Some(times) = measured.times {
        let Times {
            encoding,
            searching,
            checking,
        } = times;
        println!(rt;
            "  the last question: encode {encoding} us, search {searching} us, check {checking} us"
        )?;
    }
    Ok(())
}

/// Tells of a sample, with its times if wanted.
fn show_sample(rt: &HostRuntime, sample: &Sample, ask: Ask<'_>) -> Result<()> {
    let name = sample.name;
    let Some(read) = model_of(rt.alloc(), sample.text.as_slice())? else {
        println!(rt; "{name}: no model")?;
        return Ok(());
    };
    let measured = measure(rt, &read, ask)?;
    show_count(rt, name, measured.count)?;
    if let Some(last) = measured.last {
        show_last(rt, last)?;
    }
    if ask.is_timed {
        show_times(rt, measured)?;
    }
    Ok(())
}

/// Tells of some samples.
fn show_samples(rt: &HostRuntime, samples: &[Sample], ask: Ask<'_>) -> Result<()> {
    for sample in samples {
        show_sample(rt, sample, ask)?;
    }
    Ok(())
}

/// Tells of typical models with their times: of all of them, or of the one whose number the word is.
fn time_samples(rt: &HostRuntime, guide: &Guide, word: Option<String>) -> Result<()> {
    let ask = Ask {
        guide,
        most: 1024,
        budget: BUDGET,
        is_timed: true,
    };
    let samples = typical(rt.alloc())?;
    let Some(word) = word else {
        return show_samples(rt, samples.as_slice(), ask);
    };
    let number = word.parse::<usize>()?;
    ensure!(number < samples.len(), "no such model");
    show_sample(rt, &samples[number], ask)
}

/// Tells the vector of a point.
fn show_vector(rt: &HostRuntime, values: &[i128]) -> Result<()> {
    print!(rt; " (")?;
    for (at, value) in values.iter().enumerate() {
        let value = *value;
        if at > 0 {
            print!(rt; " ")?;
        }
        print!(rt; "{value}")?;
    }
    print!(rt; ")")?;
    Ok(())
}

/// Tells the vectors of points.
fn show_vectors(rt: &HostRuntime, points: &[Point]) -> Result<()> {
    if points.is_empty() {
        return Ok(());
    }
    print!(rt; " ")?;
    for point in points {
        show_vector(rt, point.vector.values.as_slice())?;
    }
    println!(rt; "")?;
    Ok(())
}

/// Tells of a line of the input.
fn show_line(rt: &HostRuntime, guides: Guides<'_>, name: &str, lines: &str) -> Result<()> {
    let Some(compared) = compare(rt.alloc(), guides, lines)? else {
        println!(rt; "{name}: no model")?;
        return Ok(());
    };
    show_count(rt, name, count_of(&compared.searched))?;
    let questions = compared.other.questions;
    let Count { ended, points, .. } = compared.early;
    println!(rt;
        "  by the other guide questions {questions}; with a budget of 1 points {points}, {ended}"
    )?;
    show_vectors(rt, compared.searched.front.points.as_slice())
}

/// Tells of each line of the input.
fn show_input(rt: &HostRuntime, guides: Guides<'_>) -> Result<()> {
    for line in rt.lines(rt.alloc()) {
        let line = line?;
        if let Some((name, lines)) = line.as_str().split_once(" :: ") {
            show_line(rt, guides, name, lines)?;
        }
    }
    Ok(())
}

fn main(rt: HostRuntime) -> Result<()> {
    let alloc = rt.alloc();
    let first = Guide::new(Box::new(alloc, |_seed: u64, _turn: u64, _n: u32| 0)?);
    let last = Guide::new(Box::new(alloc, |_seed: u64, _turn: u64, n: u32| n.saturating_sub(1))?);
    let mut words = env::args(&rt)?.skip(1);
    if words.next().is_some() {
        return time_samples(&rt, &first, words.next());
    }
    let ask = Ask {
        guide: &first,
        most: FEW_POINTS,
        budget: SMALL_BUDGET,
        is_timed: false,
    };
    let samples = typical(alloc)?;
    show_samples(&rt, samples.as_slice(), ask)?;
    let guides = Guides {
        first: &first,
        last: &last,
    };
    show_input(&rt, guides)
}
