//! Times the solver. Without an argument the questions are small, and what is printed is always the same; with the argument
//! `time` they are large, and the times come too; with `clauses` the clauses of the large ones are printed, in the form that
//! other solvers read. A number behind the word takes only that large question.
#![tactic(auto)]

mod dimacs;
mod drawn;
mod making;
mod measure;
mod pigeons;
mod question;

use anyhow::{Result, ensure};
use dimacs::print_clauses;
use measure::{Outcome, measure};
use question::Question;
use search_guide::Guide;
use std::env;

const SMALL: [Question; 4] = [
    Question::Pigeons { holes: 3 },
    Question::Pigeons { holes: 4 },
    Question::Drawn {
        variables: 20,
        seed: 1,
    },
    Question::Drawn {
        variables: 20,
        seed: 2,
    },
];

const LARGE: [Question; 11] = [
    Question::Pigeons { holes: 4 },
    Question::Pigeons { holes: 5 },
    Question::Pigeons { holes: 6 },
    Question::Pigeons { holes: 7 },
    Question::Pigeons { holes: 8 },
    Question::Drawn {
        variables: 50,
        seed: 1,
    },
    Question::Drawn {
        variables: 50,
        seed: 2,
    },
    Question::Drawn {
        variables: 100,
        seed: 1,
    },
    Question::Drawn {
        variables: 100,
        seed: 2,
    },
    Question::Drawn {
        variables: 150,
        seed: 1,
    },
    Question::Drawn {
        variables: 150,
        seed: 2,
    },
];

/// Asks all questions, under a guide with a name.
fn ask_under(
    rt: &HostRuntime,
    name: &str,
    guide: &Guide,
    questions: &[Question],
    is_timed: bool,
) -> Result<()> {
    for question in questions {
        let outcome = measure(rt, &question.clauses(rt.alloc())?, guide)?;
        println!(rt; "{question}, {name}: {outcome}")?;
        if is_timed {
            print_times(rt, &outcome)?;
        }
    }
    Ok(())
}

fn print_times(rt: &HostRuntime, outcome: &Outcome) -> Result<()> {
    let searching = outcome.searching;
    let checking = outcome.checking;
    let a_second = outcome.conflicts_a_second();
    println!(rt; "  search {searching} us, checker {checking} us, {a_second} conflicts a second")?;
    Ok(())
}

/// The large questions, or only the one whose number the word is, from 0 on.
fn large(word: Option<String>) -> Result<&'static [Question]> {
    let Some(word) = word else {
        return Ok(&LARGE);
    };
    let number = word.parse::<usize>()?;
    ensure!(number < LARGE.len(), "no such question");
    Ok(&LARGE[number..=number])
}

fn main(rt: HostRuntime) -> Result<()> {
    let mut words = env::args(&rt)?.skip(1);
    let Some(word) = words.next() else {
        return ask(&rt, &SMALL, false);
    };
    let questions = large(words.next())?;
    if word.as_str() == "clauses" {
        return print_all(&rt, questions);
    }
    ask(&rt, questions, true)
}

/// Asks all questions, under a guide that answers 0 and one that answers the last number.
fn ask(rt: &HostRuntime, questions: &[Question], is_timed: bool) -> Result<()> {
    let alloc = rt.alloc();
    let first = Guide::new(Box::new(alloc, |_seed: u64, _turn: u64, _n: u32| 0)?);
    ask_under(rt, "first", &first, questions, is_timed)?;
    let last = Guide::new(Box::new(alloc, |_seed: u64, _turn: u64, n: u32| n.saturating_sub(1))?);
    ask_under(rt, "last", &last, questions, is_timed)
}

/// Prints the clauses of each question.
fn print_all(rt: &HostRuntime, questions: &[Question]) -> Result<()> {
    for question in questions {
        print_clauses(rt, &question.clauses(rt.alloc())?)?;
    }
    Ok(())
}
