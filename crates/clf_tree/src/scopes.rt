//! How many instances each clafer may have, and the range of integers.

use clf_base::List;

/// The greatest number of instances of each clafer, 0 for an abstract one, and the range of integer targets.
#[derive(Debug, Drop)]
pub struct Scopes {
    pub of: List<u32>,
    pub low: i64,
    pub high: i64,
}

/// A scope that the user gives: a path of names joined by `.`, and the greatest number of instances of its clafer.
#[derive(Debug, Drop)]
pub struct GivenScope {
    pub path: List<u8>,
    pub most: u64,
}

/// What the user gives: scopes in their order, the scope of a clafer that has no upper bound, and the range of integers.
#[derive(Debug, Drop)]
pub struct Given {
    pub scopes: List<GivenScope>,
    pub default: u64,
    pub low: i64,
    pub high: i64,
}
