//! Generated models: one for each number, whose front grows by a power of two with each block of eight features.
#![tactic(auto)]

ghost use Rattle.std.specs.Prelude.{◌≡◌, ◌++◌, ◌+◌, ◌-◌, ◌/◌, ◌^◌, ◌≤◌, ◌<◌, codes, decimal, IfOk, OnOk};
ghost use Rattle.std.specs.List.{flat_map, filter};
ghost use Rattle.model_generator.specs.Generated as spec;

use clf_base::{List, NoMemory};
use itoa::Buffer;
use std::alloc::Global;

fn push_number(text: &mut List<u8>, number: u32) -> Result<(), NoMemory>
    ensures { OnOk result (text.new ≡ text.old ++ decimal number) }
{
    let mut buffer = Buffer::new();
    text.extend(buffer.format(number).as_bytes())?;
    Ok(())
}

/// A line of an optional feature.
fn push_optional(text: &mut List<u8>, feature: u32) -> Result<(), NoMemory>
    ensures { OnOk result (text.new ≡ text.old ++ spec.optional_line feature) }
{
    text.extend(b"    f")?;
    push_number(text, feature)?;
    text.extend(b" ?\n")?;
    Ok(())
}

/// A line that says that a feature needs the first of its block.
fn push_implied(text: &mut List<u8>, feature: u32) -> Result<(), NoMemory>
    ensures { OnOk result (text.new ≡ text.old ++ spec.implied_line feature) }
{
    text.extend(b"    [ f")?;
    push_number(text, feature)?;
    text.extend(b" => f")?;
    push_number(text, feature / 8 * 8)?;
    text.extend(b" ]\n")?;
    Ok(())
}

fn push_features(text: &mut List<u8>, number: u32) -> Result<(), NoMemory>
    ensures { OnOk result (text.new ≡ text.old ++ flat_map spec.optional_line (spec.numbers_below number)) }
{
    for feature in 0..number {
        push_optional(text, feature)?;
    }
    Ok(())
}

/// Whether a feature needs the first of its block.
fn is_implied(feature: u32) -> bool
    ensures { result ≡ spec.is_implied feature }
{
    feature % 8 != 0
}

fn push_needs(text: &mut List<u8>, number: u32) -> Result<(), NoMemory>
    ensures { OnOk result (text.new ≡ text.old ++ flat_map spec.implied_line (filter spec.is_implied (spec.numbers_below number))) }
{
    for feature in 0..number {
        if is_implied(feature) {
            push_implied(text, feature)?;
        }
    }
    Ok(())
}

/// The first feature of a block, by the block's power of two.
fn push_term(text: &mut List<u8>, block: u32) -> Result<(), NoMemory>
    requires { block < 10 }
    ensures { OnOk result (text.new ≡ text.old ++ spec.term block) }
{
    text.extend(b"#line.f")?;
    push_number(text, block * 8)?;
    text.extend(b" * ")?;
    push_number(text, 1_u32 << block)?;
    Ok(())
}

/// The terms of the blocks up to this one.
fn push_terms(text: &mut List<u8>, last: u32) -> Result<(), NoMemory>
    requires { last < 10 }
    ensures { OnOk result (text.new ≡ text.old ++ spec.terms last) }
{
    push_term(text, 0)?;
    for block in 0..last {
        text.extend(b" + ")?;
        push_term(text, block + 1)?;
    }
    Ok(())
}

/// A goal on the sum of all terms.
fn push_goal(text: &mut List<u8>, way: &[u8], last: u32) -> Result<(), NoMemory>
    requires { last < 10 }
    ensures { OnOk result (text.new ≡ text.old ++ spec.goal_line way.now last) }
{
    text.extend(b"<< ")?;
    text.extend(way)?;
    text.extend(b" ")?;
    push_terms(text, last)?;
    text.extend(b" >>\n")?;
    Ok(())
}

/// The text of the generated model of a number.
///
/// It has this many optional features in blocks of eight. All but the first of a block need that one, which counts as the block's power
/// of two. This sum is to be least and to be greatest at once, so each of its values is a point of the front.
pub fn generate(alloc: Global, number: u32) -> Result<List<u8>, NoMemory>
    requires some { 1 ≤ number }
    requires most { number ≤ 80 }
    ensures { IfOk result (λ text. text ≡ spec.generated number) }
{
    let last = (number - 1) / 8;
    let mut text = List::from_slice(alloc, b"line\n")?;
    push_features(&mut text, number)?;
    push_needs(&mut text, number)?;
    push_goal(&mut text, b"min", last)?;
    push_goal(&mut text, b"max", last)?;
    Ok(text)
}
