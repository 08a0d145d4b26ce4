//! The law of isomorphic instances: what a model says of an instance doesn't depend on the numbers of its nodes.
#![tactic(auto)]

ghost use Rattle.isomorphic_instances.specs.Agree.{IsomorphicAgree};

/// Of two isomorphic instances both satisfy a model or neither does, and their vectors of goals are equal.
///
/// Each node that the first instance names, as an entry, a parent or a target, has a number below the scope of its clafer.
pub fn isomorphic_agree()
    ensures { IsomorphicAgree }
{}
