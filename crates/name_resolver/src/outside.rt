//! What a name means from a clafer: below it, below its declaring parents outwards, or at top level.

ghost use Rattle.name_resolver.specs.Meaning.{MeansOne, MeansThere};

use crate::steps::Meant;

/// What is found of a name: nothing, several clafers that are equally near, or what it means.
#[derive(Debug, Drop)]
pub enum Found {
    Nothing,
    Several,
    Means(Meant),
}

/// From each context a name means one thing, which is what the function of the definitions gives.
pub fn means_one()
    ensures { MeansOne }
{}

/// The clafers of what a name means are of the model.
pub fn means_there()
    ensures { MeansThere }
{}
