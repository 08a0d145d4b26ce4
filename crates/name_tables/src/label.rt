//! What is known of the shortest ways to the clafers of a name.

ghost use Rattle.std.specs.Prelude.{◌≡◌};
ghost use Rattle.name_tables.specs.Labels as spec;

/// The shortest ways by which clafers of a name are reached: their steps, the clafer that all of them lead to, if it is one, and
/// the first clafer in the model that one of them goes to.
#[derive(Clone, Copy, Debug, PartialEq, Eq)]
pub struct Label {
    pub steps: u32,
    pub only: Option<u32>,
    pub next: u32,
}

/// A clafer below which a name is reached, and the clafer that all shortest ways lead to, if it is one.
#[derive(Clone, Copy, Debug, PartialEq, Eq)]
pub struct Nearby {
    pub clafer: u32,
    pub only: Option<u32>,
}

fn same(a: Option<u32>, b: Option<u32>) -> Option<u32>
    ensures { result ≡ spec.same a b }
{
    match a {
        Some(d) => match b {
            Some(e) => { if d == e { Some(d) } else { None } }
            None => None,
        },
        None => None,
    }
}

/// The shorter ones of two kinds of ways, or both where they are equally long.
pub fn shorter(a: Label, b: Label) -> Label
    ensures { result ≡ spec.shorter a b }
{
    if a.steps < b.steps {
        return a;
    }
    if b.steps < a.steps {
        return b;
    }
    Label {
        steps: a.steps,
        only: same(a.only, b.only),
        next: a.next.min(b.next),
    }
}

/// The shorter ones of two kinds of ways, where there are any.
pub fn shortest(a: Option<Label>, b: Option<Label>) -> Option<Label>
    ensures { result ≡ spec.shortest a b }
{
    match b {
        None => a,
        Some(more) => match a {
            None => Some(more),
            Some(known) => Some(shorter(known, more)),
        },
    }
}
