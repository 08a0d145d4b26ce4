//! Times the checker on derivations that are made by fixed rules. Without an argument they are small,
//! and what is printed is always the same; with an argument `time` they are large, and the times come too.
#![tactic(auto)]

mod implications;
mod making;
mod pigeons;

use anyhow::Result;
use implications::{Shape, implications};
use making::Made;
use pigeons::pigeons;
use proof_checker::Checker;
use std::env;
use std::time::Instant;

/// Checks a derivation, and prints how many chains and steps it has.
fn check(rt: &HostRuntime, name: &str, made: &Made, is_timed: bool) -> Result<()> {
    let mut checker = Checker::open(rt.alloc(), made.clauses.variables())?;
    let start = Instant::now(rt)?;
    let is_accepted = checker.accepts(&made.clauses, &made.derivation);
    let micros = start.elapsed(rt)?.as_micros();
    let chains = made.derivation.chains.len();
    let steps = made.steps;
    println!(rt; "{name}: {chains} chains, {steps} steps, accepted {is_accepted}")?;
    if is_timed {
        let literals = made.literals;
        let bytes = made.bytes() / steps.max(1);
        let a_second = u128::from(steps).wrapping_mul(1_000_000) / micros.max(1);
        let read = u128::from(literals).wrapping_mul(1_000_000) / micros.max(1);
        println!(rt;
            "  {micros} microseconds, {a_second} steps a second, {read} literals a second, {bytes} bytes a step"
        )?;
    }
    Ok(())
}

fn main(rt: HostRuntime) -> Result<()> {
    let is_timed = env::args(&rt)?.count() > 1;
    let alloc = rt.alloc();
    let holes = if is_timed { 15 } else { 4 };
    check(&rt, "pigeonhole", &pigeons(alloc, holes)?, is_timed)?;
    let near = if is_timed {
        Shape::near()
    } else {
        Shape::small()
    };
    check(
        &rt,
        "short clauses nearby",
        &implications(alloc, &near)?,
        is_timed,
    )?;
    let far = if is_timed {
        Shape::far()
    } else {
        Shape::small()
    };
    check(
        &rt,
        "short clauses far apart",
        &implications(alloc, &far)?,
        is_timed,
    )?;
    let long = if is_timed {
        Shape::long()
    } else {
        Shape::small_long()
    };
    check(&rt, "long clauses", &implications(alloc, &long)?, is_timed)?;
    Ok(())
}
