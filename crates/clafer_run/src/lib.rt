//! The top call: words and a model text in, a report and a status out.
#![tactic(auto)]

mod answer;
mod ending;
mod fronts;
mod input;
mod instances;
mod output;
mod reply;
mod reports;
mod respond;
mod top_call;

pub use command_words::{Request, words_of};
pub use ending::Ending;
pub use model_reader::LIMIT;
pub use top_call::run;

#[cfg(test)]
mod tests;
