//! Typical models.

use std::alloc::{AllocError, Global};

/// The text of a model, and what it is called.
#[derive(Drop)]
pub(crate) struct Sample {
    pub(crate) name: &'static str,
    pub(crate) text: Vec<u8>,
}

fn of_text(alloc: Global, name: &'static str, text: &[u8]) -> Result<Sample, AllocError> {
    Ok(Sample {
        name,
        text: text.to_vec(alloc)?,
    })
}

/// A phone with so many optional features.
fn features(alloc: Global, features: u32) -> Result<Vec<u8>, AllocError> {
    let mut text = Vec::new(alloc);
    text.extend_from_slice(b"phone\n")?;
    for number in 0..features {
        let feature = format!(in alloc; "    feature{number} ?\n")?;
        text.extend_from_slice(feature.as_bytes())?;
    }
    Ok(text)
}

/// So many parts, each with three attributes that they inherit.
fn parts(alloc: Global, parts: u32) -> Result<Vec<u8>, AllocError> {
    let mut text = Vec::new(alloc);
    text.extend_from_slice(b"abstract Part\n    cost -> int\n    gain -> int\n    size -> int\n")?;
    for number in 0..parts {
        let part = format!(in alloc; "part{number} : Part\n")?;
        text.extend_from_slice(part.as_bytes())?;
    }
    Ok(text)
}

/// The models of which the wires are told.
pub(crate) fn typical(alloc: Global) -> Result<Vec<Sample>, AllocError> {
    let mut samples = Vec::new(alloc);
    samples.push(Sample {
        name: "200 optional features",
        text: features(alloc, 200)?,
    })?;
    samples.push(of_text(
        alloc,
        "16 tasks on 8 nodes, as a bag",
        b"node 8\ntask ->> node 16\n",
    )?)?;
    samples.push(of_text(
        alloc,
        "16 tasks on 8 nodes, as a set",
        b"node 8\ntask -> node 16\n",
    )?)?;
    samples.push(Sample {
        name: "92 parts with three attributes",
        text: parts(alloc, 92)?,
    })?;
    samples.push(of_text(
        alloc,
        "8 tasks in each of 4 boxes on 16 nodes, as sets",
        b"node 16\nbox 4\n    task -> node 8\n",
    )?)?;
    Ok(samples)
}
