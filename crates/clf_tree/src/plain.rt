//! A model in the order of its text, with every default filled in and the names as they are written.

use crate::model::{Goal, Rule};
use crate::module::{Interval, Pointer};
use crate::token::Title;
use clf_base::{List, Span};

/// A clafer whose super and target are still names. It begins at `at`, and its parent is the number of the clafer that it is
/// declared under.
#[derive(Debug, Drop)]
pub struct PlainClafer {
    pub at: Span,
    pub title: Title,
    pub is_abstract: bool,
    pub parent: Option<u32>,
    pub above: Option<Title>,
    pub group: Interval,
    pub times: Interval,
    pub reference: Option<Pointer>,
}

/// A model before look-up: its expressions still hold names.
#[derive(Drop)]
pub struct Plain {
    pub clafers: List<PlainClafer>,
    pub rules: List<Rule>,
    pub goals: List<Goal>,
}
