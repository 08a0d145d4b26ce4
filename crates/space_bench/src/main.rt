//! Asks for an instance of typical models, and tells how large the question is, and what the answer rests on.
//!
//! Then each line of the input is a name and the text of a small model with ` :: ` between them, and `~` for a line's end; a constraint is
//! a line of its own. Each such model is asked by two guides, which have to find the same. Each choice of its constraints is asked twice,
//! by the clauses and parts of the whole model, and by a text that has the chosen constraints alone. What an answer rests on goes to a
//! new checker. The status is 1 where something is wrong.
//!
//! With the word `time` only the typical models are asked, and the times are told too; a number behind it takes only that model, from 0 on.
#![tactic(auto)]

mod asking;
mod choices;
mod comparing;
mod measure;
mod reading;
mod typical;

use crate::comparing::{Compared, Guides, compare};
use crate::measure::{Measured, Size, measure};
use crate::reading::model_of;
use crate::typical::{Sample, typical};
use anyhow::{Result, ensure};
use model_reader::Read;
use search_guide::Guide;
use std::env;
use std::io::BufRead;

/// How many clauses a search may learn.
const BUDGET: u64 = 1_000_000_000;

/// How many clauses it may learn of a typical model where no times are told.
const SMALL_BUDGET: u64 = 300;

/// Tells of a typical model.
fn show_measured(
    rt: &HostRuntime,
    name: &str,
    read: &Read,
    guide: &Guide,
    budget: u64,
) -> Result<Measured> {
    let weight = read.weight;
    let measured = measure(rt, read, guide, budget)?;
    let Size {
        inputs,
        wires,
        clauses,
        parts,
    } = measured.size;
    let outcome = measured.outcome;
    println!(rt;
        "{name}: weight {weight}, {parts} parts, {inputs} inputs, {wires} wires, {clauses} clauses; {outcome}"
    )?;
    Ok(measured)
}

fn show_times(rt: &HostRuntime, measured: &Measured) -> Result<()> {
    let encoding = measured.encoding;
    let checking = measured.checking;
    let searching = measured.asking.saturating_sub(checking);
    println!(rt; "  encode {encoding} us, search {searching} us, check {checking} us")?;
    Ok(())
}

/// Tells of a sample, with its times if wanted.
fn show_sample(rt: &HostRuntime, sample: &Sample, guide: &Guide, is_timed: bool) -> Result<()> {
    let name = sample.name;
    let Some(read) = model_of(rt.alloc(), sample.text.as_slice())? else {
        println!(rt; "{name}: no model")?;
        return Ok(());
    };
    let budget = if is_timed { BUDGET } else { SMALL_BUDGET };
    let measured = show_measured(rt, name, &read, guide, budget)?;
    if is_timed {
        show_times(rt, &measured)?;
    }
    Ok(())
}

/// Tells of some samples.
fn show_samples(rt: &HostRuntime, samples: &[Sample], guide: &Guide, is_timed: bool) -> Result<()> {
    for sample in samples {
        show_sample(rt, sample, guide, is_timed)?;
    }
    Ok(())
}

/// Tells of typical models with their times: of all of them, or of the one whose number the word is.
fn time_samples(rt: &HostRuntime, guide: &Guide, word: Option<String>) -> Result<()> {
    let samples = typical(rt.alloc())?;
    let Some(word) = word else {
        return show_samples(rt, samples.as_slice(), guide, true);
    };
    let number = word.parse::<usize>()?;
    ensure!(number < samples.len(), "no such model");
    show_sample(rt, &samples[number], guide, true)
}

/// Tells of a line of the input.
fn show_line(rt: &HostRuntime, guides: &Guides<'_>, name: &str, lines: &str) -> Result<()> {
    let Some(compared) = compare(rt.alloc(), guides, lines)? else {
        println!(rt; "{name}: no model")?;
        return Ok(());
    };
    let Compared {
        kind,
        early,
        choices,
        right,
    } = compared;
    println!(rt;
        "{name}: {kind}, with a budget of 1 {early}; choices {choices}, with an instance {right}"
    )?;
    Ok(())
}

/// Tells of each line of the input.
fn show_input(rt: &HostRuntime, guides: &Guides<'_>) -> Result<()> {
    for line in rt.lines(rt.alloc()) {
        let line = line?;
        if let Some((name, lines)) = line.as_str().split_once(" :: ") {
            show_line(rt, guides, name, lines)?;
        }
    }
    Ok(())
}

fn main(rt: HostRuntime) -> Result<()> {
    let alloc = rt.alloc();
    let first = Guide::new(Box::new(alloc, |_seed: u64, _turn: u64, _n: u32| 0)?);
    let last = Guide::new(Box::new(alloc, |_seed: u64, _turn: u64, n: u32| n.saturating_sub(1))?);
    let mut words = env::args(&rt)?.skip(1);
    if words.next().is_some() {
        return time_samples(&rt, &first, words.next());
    }
    let samples = typical(alloc)?;
    show_samples(&rt, samples.as_slice(), &first, false)?;
    let guides = Guides {
        first: &first,
        last: &last,
    };
    show_input(&rt, &guides)
}
