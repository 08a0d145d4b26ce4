//! Typical models.

use std::alloc::{AllocError, Global};

/// The text of a model, and what it is called.
#[derive(Drop)]
pub struct Sample {
    pub name: &'static str,
    pub text: Vec<u8>,
}

/// Features in a block of a product line.
const BLOCK: u32 = 10;

/// Adds a feature with a cost and a gain, which its number decides.
fn add_feature(
    alloc: Global,
    text: &mut Vec<u8>,
    indent: &str,
    number: u32,
) -> Result<(), AllocError> {
    let cost = number.wrapping_mul(7) % 9 + 1;
    let gain = number.wrapping_mul(5) % 8 + 1;
    let feature = format!(in alloc;
        "{indent}f{number} ?\n{indent}    cost : Cost = {cost}\n{indent}    gain : Gain = {gain}\n"
    )?;
    text.extend_from_slice(feature.as_bytes())
}

/// Adds a group of features, the first of which has the group.
fn add_group(
    alloc: Global,
    text: &mut Vec<u8>,
    kind: &str,
    first: u32,
    members: u32,
) -> Result<(), AllocError> {
    let head = format!(in alloc; "        {kind} f{first}\n")?;
    text.extend_from_slice(head.as_bytes())?;
    for member in 1..=members {
        add_feature(alloc, text, "            ", first.wrapping_add(member))?;
    }
    Ok(())
}

/// Adds a block of ten features: an optional one with two groups. Some option of it needs a feature of the next block, if there is one.
fn add_block(
    alloc: Global,
    text: &mut Vec<u8>,
    first: u32,
    is_last: bool,
) -> Result<(), AllocError> {
    add_feature(alloc, text, "    ", first)?;
    add_group(alloc, text, "or", first.wrapping_add(1), 3)?;
    add_group(alloc, text, "xor", first.wrapping_add(5), 4)?;
    if is_last {
        return Ok(());
    }
    let option = first.wrapping_add(2);
    let needed = first.wrapping_add(BLOCK + 6);
    let rule = format!(in alloc; "    [ f{option} => f{needed} ]\n")?;
    text.extend_from_slice(rule.as_bytes())
}

/// A product line of ten features a block, each but the groups with a cost and a gain: a least gain of all together at a greatest cost.
fn product_line(alloc: Global, blocks: u32, gain: u32, budget: u32) -> Result<Vec<u8>, AllocError> {
    let mut text = Vec::new(alloc);
    text.extend_from_slice(b"abstract Cost -> int\nabstract Gain -> int\nline\n")?;
    for block in 0..blocks {
        let is_last = block.wrapping_add(1) == blocks;
        add_block(alloc, &mut text, block.wrapping_mul(BLOCK), is_last)?;
    }
    let bounds = format!(in alloc; "[ sum Gain >= {gain} ]\n[ sum Cost <= {budget} ]\n")?;
    text.extend_from_slice(bounds.as_bytes())?;
    Ok(text)
}

/// Adds nodes with a rate, which their number decides.
fn add_nodes(alloc: Global, text: &mut Vec<u8>, nodes: u32) -> Result<(), AllocError> {
    for number in 0..nodes {
        let rate = number.wrapping_mul(3) % 5 + 1;
        let node = format!(in alloc; "node{number} : Node\n    [ rate = {rate} ]\n")?;
        text.extend_from_slice(node.as_bytes())?;
    }
    Ok(())
}

/// Adds tasks, each but the first on another node than the one before it and than the one of half its number.
fn add_tasks(alloc: Global, text: &mut Vec<u8>, tasks: u32) -> Result<(), AllocError> {
    text.extend_from_slice(b"task0 : Task\n")?;
    for number in 1..tasks {
        let before = number - 1;
        let half = number / 2;
        let task = format!(in alloc;
            "task{number} : Task\n[ task{number}.on.dref != task{before}.on.dref ]\n[ task{number}.on.dref != task{half}.on.dref ]\n"
        )?;
        text.extend_from_slice(task.as_bytes())?;
    }
    Ok(())
}

/// Adds a bound of the tasks' rates, each times a number from 1 to 3.
fn add_load(alloc: Global, text: &mut Vec<u8>, tasks: u32, most: u32) -> Result<(), AllocError> {
    text.extend_from_slice(b"[ task0.on.dref.rate")?;
    for number in 1..tasks {
        let times = number % 3 + 1;
        let load = format!(in alloc; " + {times} * task{number}.on.dref.rate")?;
        text.extend_from_slice(load.as_bytes())?;
    }
    let end = format!(in alloc; " <= {most} ]\n")?;
    text.extend_from_slice(end.as_bytes())
}

/// Tasks on nodes, with a bound of their loads.
fn tasks_on_nodes(alloc: Global, tasks: u32, nodes: u32, most: u32) -> Result<Vec<u8>, AllocError> {
    let mut text = Vec::new(alloc);
    text.extend_from_slice(b"abstract Node\n    rate -> int\nabstract Task\n    on -> Node\n")?;
    add_nodes(alloc, &mut text, nodes)?;
    add_tasks(alloc, &mut text, tasks)?;
    add_load(alloc, &mut text, tasks, most)?;
    Ok(text)
}

/// Whether two exams are at different times, the first of them below the second.
fn are_apart(first: u32, second: u32) -> bool {
    second.wrapping_sub(first) <= 3 || first.wrapping_mul(second) % 7 == 3
}

/// Adds an exam, and at which earlier ones it is not.
fn add_exam(alloc: Global, text: &mut Vec<u8>, number: u32) -> Result<(), AllocError> {
    let exam = format!(in alloc; "exam{number} : Exam\n")?;
    text.extend_from_slice(exam.as_bytes())?;
    for earlier in 0..number {
        if are_apart(earlier, number) {
            let rule = format!(in alloc; "[ exam{number}.at.dref != exam{earlier}.at.dref ]\n")?;
            text.extend_from_slice(rule.as_bytes())?;
        }
    }
    Ok(())
}

/// Exams in slots, some of them not at the same time.
fn exams_in_slots(alloc: Global, exams: u32, slots: u32) -> Result<Vec<u8>, AllocError> {
    let mut text = Vec::new(alloc);
    let head = format!(in alloc; "slot {slots}\nabstract Exam\n    at -> slot\n")?;
    text.extend_from_slice(head.as_bytes())?;
    for number in 0..exams {
        add_exam(alloc, &mut text, number)?;
    }
    Ok(text)
}

/// Pigeons in holes, no two in one.
fn pigeons_in_holes(alloc: Global, pigeons: u32, holes: u32) -> Result<Vec<u8>, AllocError> {
    let mut text = Vec::new(alloc);
    let lines = format!(in alloc;
        "hole {holes}\npigeon ->> hole {pigeons}\n[ all disj p; q : pigeon | p.dref != q.dref ]\n"
    )?;
    text.extend_from_slice(lines.as_bytes())?;
    Ok(text)
}

fn add(samples: &mut Vec<Sample>, name: &'static str, text: Vec<u8>) -> Result<(), AllocError> {
    samples.push(Sample { name, text })?;
    Ok(())
}

/// The models of which sizes and times are told.
pub fn typical(alloc: Global) -> Result<Vec<Sample>, AllocError> {
    let mut samples = Vec::new(alloc);
    add(&mut samples, "40 features", product_line(alloc, 4, 40, 60)?)?;
    add(
        &mut samples,
        "100 features",
        product_line(alloc, 10, 100, 140)?,
    )?;
    add(
        &mut samples,
        "400 features",
        product_line(alloc, 40, 400, 600)?,
    )?;
    add(
        &mut samples,
        "16 tasks on 8 nodes",
        tasks_on_nodes(alloc, 16, 8, 70)?,
    )?;
    add(
        &mut samples,
        "30 exams in 8 slots",
        exams_in_slots(alloc, 30, 8)?,
    )?;
    add(
        &mut samples,
        "30 exams in 3 slots",
        exams_in_slots(alloc, 30, 3)?,
    )?;
    add(
        &mut samples,
        "8 pigeons in 7 holes",
        pigeons_in_holes(alloc, 8, 7)?,
    )?;
    Ok(samples)
}
