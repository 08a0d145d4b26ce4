//! The head of a clafer while it is read: all before its `=` and its block.

use clf_base::Span;
use clf_tree::{Interval, Pointer, Title};

/// How far a head is read before the clafer's name.
#[derive(Clone, Copy)]
pub enum Front {
    /// `abstract`.
    Abstract,
    /// The low bound of a group.
    Low(u32),
    /// The low bound of a group, and `..`.
    Dots(u32),
    /// A group.
    Grouped(Interval),
}

/// What stands before a clafer's name, at the place of its first token.
#[derive(Clone, Copy)]
pub struct Lead {
    pub at: Span,
    pub is_abstract: bool,
    pub front: Front,
}

/// The head of a clafer, as far as it is read.
#[derive(Drop)]
pub struct Head {
    pub at: Span,
    pub is_abstract: bool,
    pub group: Option<Interval>,
    pub title: Title,
    pub above: Option<Title>,
    pub reference: Option<Pointer>,
    pub times: Option<Interval>,
}

/// What of a head was read last.
#[derive(Clone, Copy)]
pub enum Stage {
    /// The name.
    Titled,
    /// `:`.
    Colon,
    /// The super.
    Above,
    /// `->` or `->>`, with its place, and whether it is `->>`.
    Arrow(Span, bool),
    /// The target.
    Target,
    /// A number, which is the multiplicity or its low bound.
    Low(u32),
    /// The low bound of the multiplicity, and `..`.
    Dots(u32),
    /// The multiplicity.
    Times,
}
