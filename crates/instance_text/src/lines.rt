//! The lines of a text.

ghost use Rattle.std.specs.Prelude.{◌≡◌, ◌<◌, ◌≤◌, ◌+◌, ◌==◌, ◌||◌, length, drop, map, not, bytes_eq, IfOk, IfSome};
ghost use Rattle.std.specs.Option.{option_map};
ghost use Rattle.std.specs.List.{prefix_len};
ghost use Rattle.std.specs.Char.{is_ascii_digit};
ghost use Rattle.instance_text.specs.Reading as spec;

use crate::numbers::{digits, integer, number};
use clf_base::{List, NoMemory};
use clf_tree::{Node, Target};
use std::alloc::Global;

/// A line: how deep it stands, its node and what that refers to.
#[derive(Clone, Copy, Debug, PartialEq, Eq)]
pub struct Line {
    pub depth: usize,
    pub node: Node,
    pub target: Option<Target>,
}

fn blanks(text: &[u8]) -> usize
    ensures blanks { result ≡ prefix_len (λ b. b == 32) text.now }
    ensures within { result ≤ length text.now }
{
    text.iter().take_while(|byte| **byte == b' ').count()
}

/// How many bytes stand before the first `$`.
fn name_length(text: &[u8]) -> usize
    ensures name { result ≡ prefix_len (λ b. not (b == 36)) text.now }
    ensures within { result ≤ length text.now }
{
    text.iter().take_while(|byte| **byte != b'$').count()
}

/// The first clafer that is shown so. It goes over the clafers.
#[tactic(auto, unfolding(crate::specs::Reading::clafer_from))]
fn clafer_named(names: &[List<u8>], name: &[u8]) -> Option<u32>
    ensures { result ≡ spec.clafer_named names.now name.now }
{
    for clafer in 0..names.len() {
        if names[clafer].as_slice() == name {
            if clafer >= 1 << 32 {
                return None;
            }
            return Some(clafer as u32);
        }
    }
    None
}

#[tactic(auto, unfolding(crate::specs::Reading::numbered))]
fn numbered(clafer: u32, used: usize, number: Option<u64>) -> Option<(Node, usize)>
    ensures exact { result ≡ spec.numbered clafer used number }
    ensures within { IfSome result (λ r. r.1 ≡ used) }
{
    let number = number?;
    if number >= 1 << 32 {
        return None;
    }
    Some((
        Node {
            clafer,
            number: number as u32,
        },
        used,
    ))
}

#[tactic(auto, unfolding(crate::specs::Reading::node_with))]
fn node_with(text: &[u8], name: usize, clafer: u32) -> Option<(Node, usize)>
    requires { name < length text.now }
    ensures exact { result ≡ spec.node_with text.now name clafer }
    ensures within { IfSome result (λ r. r.1 ≤ length text.now) }
{
    let rest = &text[name + 1..];
    let length = digits(rest);
    numbered(clafer, name + 1 + length, number(&rest[..length]))
}

/// A node, and how many bytes it takes.
#[tactic(auto, unfolding(crate::specs::Reading::node_at))]
fn node_at(names: &[List<u8>], text: &[u8]) -> Option<(Node, usize)>
    ensures exact { result ≡ spec.node_at names.now text.now }
    ensures within { IfSome result (λ r. r.1 ≤ length text.now) }
{
    let name = name_length(text);
    if name >= text.len() {
        return None;
    }
    let clafer = clafer_named(names, &text[..name])?;
    node_with(text, name, clafer)
}

fn integer_digits(text: &[u8]) -> usize
    ensures digits { result ≡ prefix_len (λ b. is_ascii_digit b || (b == 45)) text.now }
    ensures within { result ≤ length text.now }
{
    text.iter()
        .take_while(|byte| byte.is_ascii_digit() || **byte == b'-')
        .count()
}

/// What a node refers to, and how many bytes that takes.
#[tactic(auto, unfolding(crate::specs::Reading::target_at))]
fn target_at(names: &[List<u8>], text: &[u8]) -> Option<(Option<Target>, usize)>
    ensures exact { result ≡ spec.target_at names.now text.now }
    ensures within { IfSome result (λ r. r.1 ≤ length text.now) }
{
    if text.starts_with(b" = ") {
        let rest = &text[3..];
        let length = integer_digits(rest);
        let value = integer(&rest[..length])?;
        return Some((Some(Target::Int(value)), 3 + length));
    }
    if text.starts_with(b" -> ") {
        let (node, used) = node_at(names, &text[4..])?;
        return Some((Some(Target::Node(node)), 4 + used));
    }
    Some((None, 0))
}

#[tactic(auto, unfolding(crate::specs::Reading::line_end))]
fn line_end(text: &[u8], used: usize, line: Line) -> Option<(Line, usize)>
    ensures exact { result ≡ spec.line_end text.now used line }
    ensures within { IfSome result (λ r. r.1 ≤ length text.now) }
{
    if used >= text.len() || text[used] != b'\n' {
        return None;
    }
    Some((line, used + 1))
}

#[tactic(auto, unfolding(crate::specs::Reading::line_with))]
fn line_with(
    names: &[List<u8>],
    text: &[u8],
    blanks: usize,
    node: Node,
    used: usize,
) -> Option<(Line, usize)>
    requires { blanks + used ≤ length text.now }
    ensures exact { result ≡ spec.line_with names.now text.now blanks (node, used) }
    ensures within { IfSome result (λ r. r.1 ≤ length text.now) }
{
    let (target, more) = target_at(names, &text[blanks + used..])?;
    line_end(
        text,
        blanks + used + more,
        Line {
            depth: blanks / 2,
            node,
            target,
        },
    )
}

/// A line, and how many bytes it takes.
#[tactic(auto, unfolding(crate::specs::Reading::line_read))]
fn line_read(names: &[List<u8>], text: &[u8]) -> Option<(Line, usize)>
    ensures exact { result ≡ spec.line_read names.now text.now }
    ensures within { IfSome result (λ r. r.1 ≤ length text.now) }
{
    let blanks = blanks(text);
    let (node, used) = node_at(names, &text[blanks..])?;
    line_with(names, text, blanks, node, used)
}

fn rest_of(text: &[u8], used: usize) -> &[u8]
    requires { used ≤ length text.now }
    ensures { result.now ≡ drop used text.now }
{
    &text[used..]
}

/// The lines of a text, if it is one of lines.
pub(crate) fn lines_read(
    alloc: Global,
    names: &[List<u8>],
    text: &[u8],
) -> Result<Option<Vec<Line>>, NoMemory>
    ensures { IfOk result (λ found. option_map (λ ls. ls.items) found ≡ spec.lines_read (length text.now) names.now text.now) }
{
    let mut lines = Vec::new(alloc);
    let mut rest = text;
    for _turn in 0..text.len() {
        if rest.is_empty() {
            return Ok(Some(lines));
        }
        match line_read(names, rest) {
            None => return Ok(None),
            Some((line, used)) => {
                lines.push(line)?;
                rest = rest_of(rest, used);
            }
        }
    }
    if rest.is_empty() {
        Ok(Some(lines))
    } else {
        Ok(None)
    }
}
