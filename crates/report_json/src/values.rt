//! The parts of a report as values of JSON, and their texts.

ghost use Rattle.std.specs.Prelude.{◌≡◌, ◌++◌, false, IfOk, OnOk};
ghost use Rattle.std.specs.Fmt.{signed_decimal};
ghost use Rattle.std.specs.Option.{option_map_or};
ghost use Rattle.std.specs.Str.{IsAscii};
ghost use Rattle.json.specs.Print.{quoted};
ghost use Rattle.serde_json.specs.Data.{null, string};
ghost use Rattle.serde_json.specs.View.{view};
ghost use Rattle.serde_json.specs.Written.{has_float, compact_text};
ghost use Rattle.clf_tree.specs.Nodes as nodes;
ghost use Rattle.report_json.specs.Data as spec;
ghost use Rattle.report_json.specs.Json.{entry_json, value_json, scope_json, HaveNames};

use clf_base::{List, NoMemory};
use clf_tree::{Clafer, Entry, Node, Scopes, Target};
use instance_text::{push_node, push_path};
use itoa::Buffer;
use serde_json::{Value, json};
use std::alloc::{AllocError, Global};

fn as_text(bytes: &[u8]) -> &str
    requires { IsAscii bytes.now }
    ensures { result.now ≡ bytes.now }
{
    match std::str::from_utf8(bytes) {
        Ok(text) => text,
        Err(_) => unreachable!(),
    }
}

/// A text as a value.
fn text_value(alloc: Global, bytes: &[u8]) -> Result<Value, NoMemory>
    requires { IsAscii bytes.now }
    ensures { IfOk result (λ value. view value ≡ string bytes.now) }
{
    let text = String::from_str(alloc, as_text(bytes))?;
    Ok(Value::String(text))
}

/// Writes a value that has no float.
fn push_value(alloc: Global, text: &mut List<u8>, value: &Value) -> Result<(), NoMemory>
    requires { has_float (view value.now) ≡ false }
    ensures { OnOk result (text.new ≡ text.old ++ compact_text (view value.now)) }
{
    let bytes = value.to_vec(alloc)?;
    text.extend(bytes.as_slice())?;
    Ok(())
}

/// Writes a text in quotes.
pub(crate) fn push_text(alloc: Global, text: &mut List<u8>, bytes: &[u8]) -> Result<(), NoMemory>
    requires { IsAscii bytes.now }
    ensures { OnOk result (text.new ≡ text.old ++ quoted bytes.now) }
{
    let value = text_value(alloc, bytes)?;
    push_value(alloc, text, &value)?;
    Ok(())
}

/// Writes a value of a goal, as a text.
pub(crate) fn push_integer(alloc: Global, text: &mut List<u8>, value: i128) -> Result<(), NoMemory>
    ensures { OnOk result (text.new ≡ text.old ++ value_json value) }
{
    let mut buffer = Buffer::new();
    let digits = buffer.format(value);
    push_text(alloc, text, digits.as_bytes())
}

/// The name of a node.
fn node_value(alloc: Global, clafers: &[Clafer], node: Node) -> Result<Value, NoMemory>
    requires { HaveNames clafers.now }
    ensures { IfOk result (λ value. view value ≡ spec.node_data clafers.now node) }
{
    let mut name = List::new(alloc);
    push_node(&mut name, clafers, node)?;
    let value = text_value(alloc, name.as_slice())?;
    Ok(value)
}

fn parent_value(alloc: Global, clafers: &[Clafer], parent: Option<Node>) -> Result<Value, NoMemory>
    requires { HaveNames clafers.now }
    ensures { IfOk result (λ value. view value ≡ option_map_or (spec.node_data clafers.now) parent null) }
{
    match parent {
        Some(node) => node_value(alloc, clafers, node),
        None => Ok(Value::Null),
    }
}

fn target_value(
    alloc: Global,
    clafers: &[Clafer],
    target: Option<Target>,
) -> Result<Value, NoMemory>
    requires { HaveNames clafers.now }
    ensures { IfOk result (λ value. view value ≡ option_map_or (spec.target_data clafers.now) target null) }
{
    match target {
        Some(Target::Int(value)) => Ok(Value::from(value)),
        Some(Target::Node(node)) => node_value(alloc, clafers, node),
        None => Ok(Value::Null),
    }
}

fn node_object(
    alloc: Global,
    name: Value,
    parent: Value,
    target: Value,
) -> Result<Value, AllocError>
    ensures { IfOk result (λ value. view value ≡ spec.object_of_node (view name) (view parent) (view target)) }
{
    json!(in alloc; {"name": name, "parent": parent, "target": target})
}

/// A node with its parent and its target.
fn entry_value(alloc: Global, clafers: &[Clafer], entry: &Entry) -> Result<Value, NoMemory>
    requires { HaveNames clafers.now }
    ensures { IfOk result (λ value. view value ≡ spec.entry_data clafers.now entry.now) }
{
    let name = node_value(alloc, clafers, entry.node)?;
    let parent = parent_value(alloc, clafers, entry.parent)?;
    let target = target_value(alloc, clafers, entry.target)?;
    let value = node_object(alloc, name, parent, target)?;
    Ok(value)
}

/// Writes a node with its parent and its target.
pub(crate) fn push_entry(
    alloc: Global,
    text: &mut List<u8>,
    clafers: &[Clafer],
    entry: &Entry,
) -> Result<(), NoMemory>
    requires { HaveNames clafers.now }
    ensures { OnOk result (text.new ≡ text.old ++ entry_json clafers.now entry.now) }
{
    let value = entry_value(alloc, clafers, entry)?;
    push_value(alloc, text, &value)?;
    Ok(())
}

fn scope_of(scopes: &Scopes, clafer: usize) -> u32
    ensures { result ≡ nodes.scope_of scopes.now clafer }
{
    match scopes.of.as_slice().get(clafer) {
        Some(scope) => *scope,
        None => 0,
    }
}

fn scope_pair(alloc: Global, path: Value, scope: u32) -> Result<Value, AllocError>
    ensures { IfOk result (λ value. view value ≡ spec.pair_of_scope (view path) scope) }
{
    json!(in alloc; [path, scope])
}

/// The path of a clafer and its scope.
fn scope_value(
    alloc: Global,
    clafers: &[Clafer],
    scopes: &Scopes,
    clafer: usize,
) -> Result<Value, NoMemory>
    requires { HaveNames clafers.now }
    ensures { IfOk result (λ value. view value ≡ spec.scope_data clafers.now scopes.now clafer) }
{
    let mut path = List::new(alloc);
    push_path(&mut path, clafers, clafers.len(), clafer)?;
    let path = text_value(alloc, path.as_slice())?;
    let value = scope_pair(alloc, path, scope_of(scopes, clafer))?;
    Ok(value)
}

/// Writes the path of a clafer and its scope.
pub(crate) fn push_scope(
    alloc: Global,
    text: &mut List<u8>,
    clafers: &[Clafer],
    scopes: &Scopes,
    clafer: usize,
) -> Result<(), NoMemory>
    requires { HaveNames clafers.now }
    ensures { OnOk result (text.new ≡ text.old ++ scope_json clafers.now scopes.now clafer) }
{
    let value = scope_value(alloc, clafers, scopes, clafer)?;
    push_value(alloc, text, &value)?;
    Ok(())
}
