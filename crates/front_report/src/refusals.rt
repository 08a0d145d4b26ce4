//! The lines that tell refusals.

ghost use Rattle.std.specs.Prelude.{◌≡◌, ◌==◌, ◌+◌, ◌%◌, ◌++◌, [], IfOk, OnOk};
ghost use Rattle.std.specs.Option.{option_map_or};
ghost use Rattle.std.specs.Map.{lookup};
ghost use Rattle.front_report.specs.Refusals as spec;

use clf_base::{List, NoMemory, Refusal, Span};
use itoa::Buffer;
use std::alloc::Global;

/// What is wrong, by its code.
pub static REASONS: [(u16, &[u8]); 37] = [
    (10, b"text too long"),
    (11, b"text is not UTF-8"),
    (20, b"no token"),
    (21, b"comment is not closed"),
    (22, b"literal too large"),
    (30, b"column of no open block"),
    (40, b"unexpected token"),
    (41, b"nested too deep"),
    (42, b"word is left out"),
    (50, b"low bound above high"),
    (51, b"name used twice"),
    (52, b"abstract clafer is nested"),
    (53, b"only at top level"),
    (60, b"super is not abstract"),
    (61, b"inheritance cycle"),
    (62, b"name not found"),
    (63, b"name is ambiguous"),
    (64, b"clafer contains itself"),
    (65, b"second reference"),
    (66, b"no such node"),
    (67, b"target not found"),
    (68, b"inherited name used again"),
    (70, b"truth value expected"),
    (71, b"integer expected"),
    (72, b"nodes expected"),
    (73, b"no integer target"),
    (74, b"operands share no clafer"),
    (75, b"no single reference"),
    (80, b"scope of unknown clafer"),
    (81, b"scope of abstract clafer"),
    (82, b"scope given twice"),
    (83, b"scope above 256"),
    (84, b"scopes above 2048"),
    (85, b"integer range refused"),
    (90, b"integer interval too wide"),
    (91, b"model too heavy"),
    (92, b"too many goals"),
];

/// The text of the first entry with this code.
fn find(table: &[(u16, &'static [u8])], code: u16) -> &'static [u8]
    ensures { result.now ≡ option_map_or (λ text. text.now) (lookup (λ other. other == code) table.now) [] }
{
    for (other, text) in table {
        if *other == code {
            return *text;
        }
    }
    b""
}

/// What is wrong, by its code.
#[tactic(auto, using(crate::proofs::Reasons::reasons_are_told), unfolding(crate::specs::Refusals::reason))]
fn reason(code: u16) -> &'static [u8]
    ensures { result.now ≡ spec.reason code }
{
    find(&REASONS, code)
}

/// The last digit of a number.
fn digit(number: u16) -> u8
    ensures { result ≡ 48 + number % 10 }
{
    b'0' + (number % 10) as u8
}

/// A code below 1000 in three digits.
fn push_code(text: &mut List<u8>, code: u16) -> Result<(), NoMemory>
    ensures { OnOk result (text.new ≡ text.old ++ spec.three_digits code) }
{
    text.push(digit(code / 100))?;
    text.push(digit(code / 10))?;
    text.push(digit(code))?;
    Ok(())
}

/// Writes a line and a column of a text, as `3:5`. Where memory is wanting, a part of it may stand there.
pub fn push_place(text: &mut List<u8>, at: Span) -> Result<(), NoMemory>
    ensures { OnOk result (text.new ≡ text.old ++ spec.place_text at) }
{
    let mut buffer = Buffer::new();
    text.extend(buffer.format(at.line).as_bytes())?;
    text.extend(b":")?;
    text.extend(buffer.format(at.column).as_bytes())?;
    Ok(())
}

/// The line that tells a refusal: its code, place and value, and what is wrong. A code that no refusal has is told without a reason.
#[tactic(auto, unfolding(crate::specs::Refusals::error_line))]
pub fn refusal(alloc: Global, refusal: Refusal) -> Result<List<u8>, NoMemory>
    ensures { IfOk result (λ line. line ≡ spec.error_line refusal) }
{
    let mut buffer = Buffer::new();
    let mut line = List::from_slice(alloc, b"error E")?;
    push_code(&mut line, refusal.code)?;
    line.extend(b" ")?;
    push_place(&mut line, refusal.at)?;
    line.extend(b" ")?;
    line.extend(buffer.format(refusal.value).as_bytes())?;
    line.extend(b" ")?;
    line.extend(reason(refusal.code))?;
    line.extend(b"\n")?;
    Ok(line)
}

/// A refusal at no place.
pub fn nowhere(code: u16, value: u64) -> Refusal
    ensures { result ≡ spec.nowhere code value }
{
    Refusal {
        code,
        at: Span { line: 0, column: 0 },
        value,
    }
}
