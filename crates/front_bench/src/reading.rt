//! Reading models.

use clf_base::{Fault, List, NoMemory};
use clf_tree::Given;
use model_reader::{LIMIT, Read, read_model};
use std::alloc::Global;

/// The model of a text, if it is one, with no scopes and the range of integers that users have.
pub fn model_of(alloc: Global, text: &[u8]) -> Result<Option<Read>, NoMemory> {
    if text.len() > LIMIT {
        return Ok(None);
    }
    let given = Given {
        scopes: List::new(alloc),
        default: 3,
        low: -2048,
        high: 2047,
    };
    match read_model(alloc, text, &given) {
        Ok(read) => Ok(Some(read)),
        Err(Fault::Refused(_)) => Ok(None),
        Err(Fault::NoMemory) => Err(NoMemory),
    }
}
