//! Which clafer a path names.

ghost use Rattle.std.specs.Prelude.{◌≡◌, ◌++◌, ◌<◌, ◌^◌, List, ℕ, false, bytes_eq, length, codes};
ghost use Rattle.std.specs.Option.{option_map_or};
ghost use Rattle.clf_tree.specs.Hierarchy.{parent_of};
ghost use Rattle.scope_table.specs.Paths as spec;

use clf_tree::Clafer;

fn name_of(clafers: &[Clafer], clafer: usize) -> &[u8]
    ensures { result.now ≡ spec.name_of clafers.now clafer }
{
    match clafers.get(clafer) {
        Some(found) => found.title.name.as_slice(),
        None => &[],
    }
}

fn parent_of(clafers: &[Clafer], clafer: usize) -> Option<u32>
    ensures { result ≡ parent_of clafers.now clafer }
{
    match clafers.get(clafer) {
        Some(found) => found.parent,
        None => None,
    }
}

/// What stands before an ending.
fn before<'a>(text: &'a [u8], ending: &[u8]) -> Option<&'a [u8]>
    ensures { (q : List ℕ) → bytes_eq text.now (q ++ ending.now) ≡ option_map_or (λ t. bytes_eq t.now q) result false }
{
    text.strip_suffix(ending)
}

/// The path of the parent, where a text ends in `.` and this name.
fn above<'a>(text: &'a [u8], name: &[u8]) -> Option<&'a [u8]>
    ensures { (q : List ℕ) → bytes_eq text.now ((q ++ codes ".") ++ name.now) ≡ option_map_or (λ t. bytes_eq t.now q) result false }
{
    match before(text, name) {
        Some(rest) => before(rest, b"."),
        None => None,
    }
}

/// Whether a text is the path of a clafer. The last names are compared first.
fn is_path(clafers: &[Clafer], steps: usize, text: &[u8], clafer: usize) -> bool
    ensures { result ≡ bytes_eq text.now (spec.path_within clafers.now steps clafer) }
{
    if steps == 0 {
        return text.is_empty();
    }
    match parent_of(clafers, clafer) {
        None => text == name_of(clafers, clafer),
        Some(parent) => match above(text, name_of(clafers, clafer)) {
            Some(rest) => is_path(clafers, steps - 1, rest, parent as usize),
            None => false,
        },
    }
}

/// The clafer that a path names. It goes over the clafers, of which nearly all differ in the last name.
pub fn named_by(clafers: &[Clafer], path: &[u8]) -> Option<u32>
    requires few { length clafers.now < 2 ^ 32 }
    ensures { result ≡ spec.named_by clafers.now path.now }
{
    for clafer in 0..clafers.len() {
        if is_path(clafers, clafers.len(), path, clafer) {
            return Some(clafer as u32);
        }
    }
    None
}
