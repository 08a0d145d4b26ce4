//! Typical models with goals.

use std::alloc::{AllocError, Global};

/// The text of a model, and what it is called.
#[derive(Drop)]
pub struct Sample {
    pub name: &'static str,
    pub text: Vec<u8>,
}

/// Features in a block of a product line.
const BLOCK: u32 = 10;

fn add(alloc: Global, text: &mut Vec<u8>, line: &str) -> Result<(), AllocError> {
    text.extend_from_slice(line.as_bytes())
}

/// Adds a feature with a cost, a gain and a load, which its number decides.
fn add_priced(alloc: Global, text: &mut Vec<u8>, number: u32) -> Result<(), AllocError> {
    let square = number.wrapping_mul(number) % 11 + 1;
    let cost = square;
    let gain = square.wrapping_add(number.wrapping_mul(3) % 5);
    let load = number.wrapping_mul(7) % 6 + 1;
    let indent = "            ";
    let feature = format!(in alloc;
        "{indent}f{number}\n{indent}    cost : Cost = {cost}\n{indent}    gain : Gain = {gain}\n{indent}    load : Load = {load}\n"
    )?;
    text.extend_from_slice(feature.as_bytes())
}

/// Adds an optional feature of a block.
fn add_option(alloc: Global, text: &mut Vec<u8>, number: u32) -> Result<(), AllocError> {
    let line = format!(in alloc; "        f{number} ?\n")?;
    text.extend_from_slice(line.as_bytes())
}

/// Adds a choice of one of three features: in priced blocks with attributes, else without.
fn add_choice(
    alloc: Global,
    text: &mut Vec<u8>,
    first: u32,
    is_priced: bool,
) -> Result<(), AllocError> {
    let head = format!(in alloc; "        xor f{first}\n")?;
    text.extend_from_slice(head.as_bytes())?;
    for member in 1..4u32 {
        let number = first.wrapping_add(member);
        if is_priced {
            add_priced(alloc, text, number)?;
        } else {
            let line = format!(in alloc; "            f{number}\n")?;
            text.extend_from_slice(line.as_bytes())?;
        }
    }
    Ok(())
}

/// Adds a block of ten features: itself, an alternative of three, and five options. An option needs one of the next block.
fn add_block(
    alloc: Global,
    text: &mut Vec<u8>,
    first: u32,
    is_priced: bool,
    is_last: bool,
) -> Result<(), AllocError> {
    let head = format!(in alloc; "    f{first}\n")?;
    text.extend_from_slice(head.as_bytes())?;
    add_choice(alloc, text, first.wrapping_add(1), is_priced)?;
    for option in 5..10u32 {
        add_option(alloc, text, first.wrapping_add(option))?;
    }
    let (a, b, c) = (
        first.wrapping_add(2),
        first.wrapping_add(5),
        first.wrapping_add(6),
    );
    let rule = format!(in alloc; "    [ f{a} => f{b} ]\n    [ f{b} => !f{c} ]\n")?;
    text.extend_from_slice(rule.as_bytes())?;
    if is_last {
        return Ok(());
    }
    let (option, needed) = (first.wrapping_add(5), first.wrapping_add(BLOCK + 6));
    let rule = format!(in alloc; "    [ f{option} => f{needed} ]\n")?;
    text.extend_from_slice(rule.as_bytes())
}

/// A product line of ten features a block. In the first blocks the alternatives have costs, gains and loads: the least cost, the greatest
/// gain, and with three goals the least load are wanted.
fn product_line(
    alloc: Global,
    blocks: u32,
    priced: u32,
    goals: u32,
) -> Result<Vec<u8>, AllocError> {
    let mut text = Vec::new(alloc);
    add(
        alloc,
        &mut text,
        "abstract Cost -> int\nabstract Gain -> int\nabstract Load -> int\nline\n",
    )?;
    for block in 0..blocks {
        let is_last = block.wrapping_add(1) == blocks;
        add_block(
            alloc,
            &mut text,
            block.wrapping_mul(BLOCK),
            block < priced,
            is_last,
        )?;
    }
    add(alloc, &mut text, "<< min sum Cost >>\n<< max sum Gain >>\n")?;
    if goals > 2 {
        add(alloc, &mut text, "<< min sum Load >>\n")?;
    }
    Ok(text)
}

/// Adds nodes with a rate and a price, which their number decides.
fn add_nodes(alloc: Global, text: &mut Vec<u8>, nodes: u32) -> Result<(), AllocError> {
    for number in 0..nodes {
        let rate = number.wrapping_mul(3) % 5 + 1;
        let price = 9u32.wrapping_sub(number.wrapping_mul(2) % 7);
        let node = format!(in alloc;
            "node{number} : Node\n    [ rate = {rate} ]\n    [ price = {price} ]\n"
        )?;
        text.extend_from_slice(node.as_bytes())?;
    }
    Ok(())
}

/// Adds tasks, each but the first on another node than the one before it.
fn add_tasks(alloc: Global, text: &mut Vec<u8>, tasks: u32) -> Result<(), AllocError> {
    add(alloc, text, "task0 : Task\n")?;
    for number in 1..tasks {
        let before = number - 1;
        let task = format!(in alloc;
            "task{number} : Task\n[ task{number}.on.dref != task{before}.on.dref ]\n"
        )?;
        text.extend_from_slice(task.as_bytes())?;
    }
    Ok(())
}

/// Adds the load of all tasks as a goal, each times a number from 1 to 3.
fn add_load(alloc: Global, text: &mut Vec<u8>, tasks: u32) -> Result<(), AllocError> {
    add(alloc, text, "<< min task0.on.dref.rate")?;
    for number in 1..tasks {
        let times = number % 3 + 1;
        let load = format!(in alloc; " + {times} * task{number}.on.dref.rate")?;
        text.extend_from_slice(load.as_bytes())?;
    }
    add(alloc, text, " >>\n")
}

/// Tasks on nodes: the least load, the least price of the nodes that are used, and the fewest of them.
fn tasks_on_nodes(alloc: Global, tasks: u32, nodes: u32) -> Result<Vec<u8>, AllocError> {
    let mut text = Vec::new(alloc);
    add(
        alloc,
        &mut text,
        "abstract Node\n    rate -> int\n    price -> int\nabstract Task\n    on -> Node\n",
    )?;
    add_nodes(alloc, &mut text, nodes)?;
    add_tasks(alloc, &mut text, tasks)?;
    add_load(alloc, &mut text, tasks)?;
    add(
        alloc,
        &mut text,
        "<< min sum Task.on.dref.price >>\n<< min #Task.on.dref >>\n",
    )?;
    Ok(text)
}

fn keep(samples: &mut Vec<Sample>, name: &'static str, text: Vec<u8>) -> Result<(), AllocError> {
    samples.push(Sample { name, text })?;
    Ok(())
}

/// Adds the product lines.
fn add_lines(alloc: Global, samples: &mut Vec<Sample>) -> Result<(), AllocError> {
    keep(
        samples,
        "50 features, two goals",
        product_line(alloc, 5, 5, 2)?,
    )?;
    keep(
        samples,
        "50 features, three goals",
        product_line(alloc, 5, 5, 3)?,
    )?;
    keep(
        samples,
        "100 features, two goals",
        product_line(alloc, 10, 7, 2)?,
    )?;
    keep(
        samples,
        "100 features, three goals",
        product_line(alloc, 10, 6, 3)?,
    )?;
    keep(
        samples,
        "400 features, two goals",
        product_line(alloc, 40, 8, 2)?,
    )?;
    keep(
        samples,
        "400 features, three goals",
        product_line(alloc, 40, 6, 3)?,
    )?;
    Ok(())
}

/// The models whose fronts are searched.
pub fn typical(alloc: Global) -> Result<Vec<Sample>, AllocError> {
    let mut samples = Vec::new(alloc);
    add_lines(alloc, &mut samples)?;
    keep(
        &mut samples,
        "8 tasks on 6 nodes, three goals",
        tasks_on_nodes(alloc, 8, 6)?,
    )?;
    keep(
        &mut samples,
        "12 tasks on 8 nodes, three goals",
        tasks_on_nodes(alloc, 12, 8)?,
    )?;
    Ok(samples)
}
