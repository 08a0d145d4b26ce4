//! A product line of optional features with attributes, constraints and sums, and an instance of it.

use std::alloc::{AllocError, Global};

/// The cost of a feature.
fn cost(number: u32) -> u32 {
    number % 40 + 1
}

/// The features of one kind. One of ten has a constraint.
fn push_features(
    alloc: Global,
    text: &mut Vec<u8>,
    kind: &str,
    attribute: &str,
    features: u32,
) -> Result<(), AllocError> {
    for number in 0..features {
        let feature = format!(in alloc; "{kind}{number} : {kind} ?\n")?;
        text.extend_from_slice(feature.as_bytes())?;
        if number % 10 == 0 {
            let cost = cost(number);
            let constraint = format!(in alloc; "    [ {attribute} = {cost} ]\n")?;
            text.extend_from_slice(constraint.as_bytes())?;
        }
    }
    Ok(())
}

/// The model: half of the features are parts with a cost, half are units with a gain.
pub(crate) fn model_of(alloc: Global, features: u32) -> Result<Vec<u8>, AllocError> {
    let mut text = Vec::new(alloc);
    text.extend_from_slice(b"abstract part\n    cost -> int\nabstract unit\n    gain -> int\n")?;
    push_features(alloc, &mut text, "part", "cost", features / 2)?;
    push_features(alloc, &mut text, "unit", "gain", features / 2)?;
    text.extend_from_slice(
        b"[ sum part.cost < 30000 ]\n<< min sum part.cost >>\n<< max sum unit.gain >>\n",
    )?;
    Ok(text)
}

/// The trees of the features of one kind.
fn push_trees(
    alloc: Global,
    text: &mut Vec<u8>,
    kind: &str,
    attribute: &str,
    features: u32,
) -> Result<(), AllocError> {
    for number in 0..features {
        let cost = cost(number);
        let tree = format!(in alloc; "{kind}{number}$0\n  {attribute}${number} = {cost}\n")?;
        text.extend_from_slice(tree.as_bytes())?;
    }
    Ok(())
}

/// The instance that has all features.
pub(crate) fn instance_of(alloc: Global, features: u32) -> Result<Vec<u8>, AllocError> {
    let mut text = Vec::new(alloc);
    push_trees(alloc, &mut text, "part", "cost", features / 2)?;
    push_trees(alloc, &mut text, "unit", "gain", features / 2)?;
    Ok(text)
}
