//! Choices among the constraints of a model: by its clauses and parts, and by its text.

ghost use Rattle.std.specs.Prelude.{◌≡◌, [], ◌∷◌, ◌++◌, map, slice_index_or, false, IfOk, OnOk, if◌then◌else◌};
ghost use Rattle.clause_store.specs.Literals.{IsAscending};
ghost use Rattle.question_space.specs.Choices.{chosen};
ghost use Rattle.question_space.specs.Posing.{but_last, unit};

use anyhow::{Result, ensure};
use clause_store::{Clause, Clauses, Literal};
use std::alloc::{AllocError, Global};

/// So many flags, which a number spells, behind one that is true.
pub fn flags_of(alloc: Global, number: u32, count: usize) -> Result<Vec<bool>, AllocError> {
    let mut flags = Vec::new(alloc);
    flags.push(true)?;
    let mut rest = number;
    for _ in 0..count {
        flags.push(rest % 2 == 1)?;
        rest /= 2;
    }
    Ok(flags)
}

// Whether a part is chosen.
fn is_chosen(flags: &[bool], part: usize) -> bool
    ensures { result ≡ slice_index_or flags.now part false }
{
    match flags.get(part) {
        Some(flag) => *flag,
        None => false,
    }
}

fn is_constraint(line: &str) -> bool {
    line.trim_start().starts_with('[')
}

/// How many of the lines with `~` between them are constraints.
pub fn constraints(lines: &str) -> usize {
    let mut count: usize = 0;
    for line in lines.split('~') {
        if is_constraint(line) {
            count = count.wrapping_add(1);
        }
    }
    count
}

/// The text of lines with `~` between them, of its constraints the chosen ones alone. The first flag is not that of a constraint.
pub fn chosen_text(alloc: Global, lines: &str, flags: &[bool]) -> Result<Vec<u8>, AllocError> {
    let mut text = Vec::new(alloc);
    let mut part: usize = 0;
    for line in lines.split('~') {
        if is_constraint(line) {
            part = part.wrapping_add(1);
            if !is_chosen(flags, part) {
                continue;
            }
        }
        text.extend_from_slice(line.as_bytes())?;
        text.push(b'\n')?;
    }
    Ok(text)
}

// Adds a clause.
fn say(alloc: Global, clauses: &mut Clauses, literals: &[Literal]) -> Result<()>
    requires { IsAscending literals.now }
    ensures { OnOk result (clauses.new.clauses ≡ clauses.old.clauses ++ literals.now ∷ []) }
{
    ensure!(clauses.len() < 1_000_000, "too many clauses");
    clauses.push(Clause::from_slice(alloc, literals)?)?;
    Ok(())
}

// All clauses but the last.
fn all_but_last(alloc: Global, clauses: &Clauses) -> Result<Clauses>
    ensures { IfOk result (λ kept. kept.clauses ≡ but_last clauses.now.clauses) }
{
    let mut kept = Clauses::new(alloc);
    for at in 0..clauses.len().saturating_sub(1) {
        say(alloc, &mut kept, clauses.get(at).literals())?;
    }
    Ok(kept)
}

// Adds the clause of a part, if the part is chosen.
fn say_part(alloc: Global, clauses: &mut Clauses, part: Literal, is_chosen: bool) -> Result<()>
    ensures { OnOk result (clauses.new.clauses ≡ clauses.old.clauses ++ (if is_chosen then unit part ∷ [] else [])) }
{
    if !is_chosen {
        return Ok(());
    }
    say(alloc, clauses, &[part])?;
    Ok(())
}

/// All clauses but the last, and behind them the chosen parts, each as a clause.
pub fn chosen_clauses(
    alloc: Global,
    clauses: &Clauses,
    parts: &[Literal],
    flags: &[bool],
) -> Result<Clauses>
    ensures { IfOk result (λ c. c.clauses ≡ but_last clauses.now.clauses ++ map unit (chosen flags.now parts.now)) }
{
    let mut kept = all_but_last(alloc, clauses)?;
    for (at, part) in parts.iter().enumerate() {
        say_part(alloc, &mut kept, *part, is_chosen(flags, at))?;
    }
    Ok(kept)
}
