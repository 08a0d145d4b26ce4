//! The points of a front, and how the search for it ended.

ghost use Rattle.std.specs.Prelude.{◌≡◌, ◌++◌, codes, length, OnOk};
ghost use Rattle.std.specs.List.{flat_map};
ghost use Rattle.std.specs.Fmt.{signed_decimal};
ghost use Rattle.clf_tree.specs.declared.vector.FrontEnd.TheVariants as ends;
ghost use Rattle.front_report.specs.Points as spec;

use clf_base::{List, NoMemory};
use clf_tree::{Front, FrontEnd, Model, Point};
use instance_text::show;
use itoa::Buffer;
use std::alloc::Global;

fn push_value(text: &mut List<u8>, value: i128) -> Result<(), NoMemory>
    ensures { OnOk result (text.new ≡ text.old ++ (codes " " ++ signed_decimal value)) }
{
    let mut buffer = Buffer::new();
    text.extend(b" ")?;
    text.extend(buffer.format(value).as_bytes())?;
    Ok(())
}

fn push_each(text: &mut List<u8>, values: &[i128]) -> Result<(), NoMemory>
    ensures { OnOk result (text.new ≡ text.old ++ flat_map (λ z. codes " " ++ signed_decimal z) values.now) }
{
    for value in values {
        push_value(text, *value)?;
    }
    Ok(())
}

/// Writes a line of a word and values, each after a blank.
pub(crate) fn push_values(text: &mut List<u8>, word: &[u8], values: &[i128]) -> Result<(), NoMemory>
    ensures { OnOk result (text.new ≡ text.old ++ spec.values_line word.now values.now) }
{
    text.extend(word)?;
    push_each(text, values)?;
    text.extend(b"\n")?;
    Ok(())
}

/// Writes the line of a vector: `point` and its values. Where memory is wanting, a part of it may stand there.
pub fn push_vector(text: &mut List<u8>, values: &[i128]) -> Result<(), NoMemory>
    ensures { OnOk result (text.new ≡ text.old ++ spec.vector_line values.now) }
{
    push_values(text, b"point", values)
}

/// Writes the line of a vector, then the trees of the instance that has it. At a time it takes memory for one point's trees.
pub(crate) fn push_point(
    alloc: Global,
    text: &mut List<u8>,
    model: &Model,
    point: &Point,
) -> Result<(), NoMemory>
    ensures { OnOk result (text.new ≡ text.old ++ spec.point_lines model.now point.now) }
{
    let trees = show(alloc, model, &point.witness)?;
    push_vector(text, point.vector.values.as_slice())?;
    text.extend(trees.as_slice())?;
    Ok(())
}

fn push_points(
    alloc: Global,
    text: &mut List<u8>,
    model: &Model,
    points: &[Point],
) -> Result<(), NoMemory>
    ensures { OnOk result (text.new ≡ text.old ++ flat_map (spec.point_lines model.now) points.now) }
{
    for point in points {
        push_point(alloc, text, model, point)?;
    }
    Ok(())
}

/// Writes a line of a word and a number.
pub(crate) fn push_counted(text: &mut List<u8>, word: &[u8], count: u64) -> Result<(), NoMemory>
    ensures { OnOk result (text.new ≡ text.old ++ spec.counted word.now count) }
{
    let mut buffer = Buffer::new();
    text.extend(word)?;
    text.extend(buffer.format(count).as_bytes())?;
    text.extend(b"\n")?;
    Ok(())
}

/// Writes the line of claims. Where memory is wanting, a part of it may stand there.
pub fn push_claims(text: &mut List<u8>, claims: u64) -> Result<(), NoMemory>
    ensures { OnOk result (text.new ≡ text.old ++ spec.claims_line claims) }
{
    push_counted(text, b"claims ", claims)
}

/// Writes how the search for a front ended, and with how many points.
pub(crate) fn push_ended(text: &mut List<u8>, front: &Front) -> Result<(), NoMemory>
    ensures { OnOk result (text.new ≡ text.old ++ spec.ended_line front.now.ended (length front.now.points)) }
{
    let count = front.points.len();
    match &front.ended {
        FrontEnd::Finished => push_finished(text, count),
        FrontEnd::Spent => push_counted(text, b"unfinished E100 ", count as u64),
        FrontEnd::Full(_) => push_counted(text, b"unfinished E101 ", count as u64),
    }
}

fn push_finished(text: &mut List<u8>, count: usize) -> Result<(), NoMemory>
    ensures { OnOk result (text.new ≡ text.old ++ spec.ended_line ends.Finished count) }
{
    if count == 0 {
        text.extend(b"no instance\n")
    } else {
        push_counted(text, b"front ", count as u64)
    }
}

/// Writes how the search for a front ended, its points, and the claims.
pub(crate) fn push_front(
    alloc: Global,
    text: &mut List<u8>,
    model: &Model,
    front: &Front,
) -> Result<(), NoMemory>
    ensures { OnOk result (text.new ≡ text.old ++ spec.front_lines model.now front.now) }
{
    push_ended(text, front)?;
    push_points(alloc, text, model, front.points.as_slice())?;
    push_claims(text, front.claims)?;
    Ok(())
}
