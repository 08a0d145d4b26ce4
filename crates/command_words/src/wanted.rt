//! What is asked for.

/// What is asked for: one instance, or the front.
#[derive(Clone, Copy, Debug)]
pub enum Wanted {
    One,
    Front,
}
