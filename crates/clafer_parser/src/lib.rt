//! The module that laid tokens spell, or the first place at which one is refused.
#![tactic(auto)]

mod laws;
mod limits;
mod reading;

pub use laws::tokens_have_one_answer;
pub use reading::parse;
