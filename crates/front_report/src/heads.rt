//! The head of each report: the table of scopes and the range of integers.

ghost use Rattle.std.specs.Prelude.{◌≡◌, ◌++◌, not, count_by, IfOk, OnOk};
ghost use Rattle.clf_tree.specs.Nodes as nodes;
ghost use Rattle.clf_tree.specs.Hierarchy as hierarchy;
ghost use Rattle.front_report.specs.Head as spec;

use clf_base::{List, NoMemory};
use clf_tree::{Clafer, Scopes};
use instance_text::push_path;
use itoa::Buffer;
use std::alloc::Global;

fn is_concrete(clafers: &[Clafer], clafer: usize) -> bool
    ensures { result ≡ hierarchy.is_concrete clafers.now clafer }
{
    match clafers.get(clafer) {
        Some(found) => !found.is_abstract,
        None => false,
    }
}

fn scope_of(scopes: &Scopes, clafer: usize) -> u32
    ensures { result ≡ nodes.scope_of scopes.now clafer }
{
    match scopes.of.as_slice().get(clafer) {
        Some(scope) => *scope,
        None => 0,
    }
}

/// A line of the table of scopes: the path of a clafer and its scope.
fn push_scope(
    text: &mut List<u8>,
    clafers: &[Clafer],
    scopes: &Scopes,
    clafer: usize,
) -> Result<(), NoMemory>
    ensures { OnOk result (text.new ≡ text.old ++ spec.scope_line clafers.now scopes.now clafer) }
{
    let mut buffer = Buffer::new();
    push_path(text, clafers, clafers.len(), clafer)?;
    text.extend(b" ")?;
    text.extend(buffer.format(scope_of(scopes, clafer)).as_bytes())?;
    text.extend(b"\n")?;
    Ok(())
}

/// The lines of all concrete clafers.
fn push_scopes(text: &mut List<u8>, clafers: &[Clafer], scopes: &Scopes) -> Result<(), NoMemory>
    ensures { OnOk result (text.new ≡ text.old ++ spec.scope_lines clafers.now scopes.now) }
{
    for clafer in 0..clafers.len() {
        if is_concrete(clafers, clafer) {
            push_scope(text, clafers, scopes, clafer)?;
        }
    }
    Ok(())
}

/// The range of integers.
fn push_range(text: &mut List<u8>, scopes: &Scopes) -> Result<(), NoMemory>
    ensures { OnOk result (text.new ≡ text.old ++ spec.range_line scopes.now) }
{
    let mut buffer = Buffer::new();
    text.extend(b"ints ")?;
    text.extend(buffer.format(scopes.low).as_bytes())?;
    text.extend(b"..")?;
    text.extend(buffer.format(scopes.high).as_bytes())?;
    text.extend(b"\n")?;
    Ok(())
}

/// How many clafers are concrete.
fn concrete_count(clafers: &[Clafer]) -> usize
    ensures { result ≡ count_by (λ k. not k.is_abstract) clafers.now }
{
    clafers.iter().filter(|clafer| !clafer.is_abstract).count()
}

/// The number of scopes.
fn push_count(text: &mut List<u8>, clafers: &[Clafer]) -> Result<(), NoMemory>
    ensures { OnOk result (text.new ≡ text.old ++ spec.count_line clafers.now) }
{
    let mut buffer = Buffer::new();
    text.extend(b"scopes ")?;
    text.extend(buffer.format(concrete_count(clafers)).as_bytes())?;
    text.extend(b"\n")?;
    Ok(())
}

/// What stands at the head of each report: how many clafers are concrete, a line for each of them with its path and its scope, and the
/// range of integers.
pub fn head(alloc: Global, clafers: &[Clafer], scopes: &Scopes) -> Result<List<u8>, NoMemory>
    ensures { IfOk result (λ text. text ≡ spec.head clafers.now scopes.now) }
{
    let mut text = List::new(alloc);
    push_count(&mut text, clafers)?;
    push_scopes(&mut text, clafers, scopes)?;
    push_range(&mut text, scopes)?;
    Ok(text)
}
