//! Vectors of goals, questions about them, and fronts.

use crate::instance::Instance;
use clf_base::List;

/// The values of the goals, in their order.
#[derive(Debug, Drop)]
pub struct Vector {
    pub values: List<i128>,
}

/// For each goal in order, whether it is to be least; else it is to be greatest.
#[derive(Debug, Drop)]
pub struct Ways {
    pub least: List<bool>,
}

/// Asks for a vector that is better somewhere than each one of `found`, and that dominates the one to improve.
#[derive(Debug, Drop)]
pub struct Question {
    pub found: List<Vector>,
    pub improve: Option<Vector>,
}

/// A vector with an instance that has it.
#[derive(Drop)]
pub struct Point {
    pub vector: Vector,
    pub witness: Instance,
}

/// How the search for a front ended: all points were found; the budget of a question was spent; or there are more points
/// than were asked for, with an instance of a further one.
#[derive(Drop)]
pub enum FrontEnd {
    Finished,
    Spent,
    Full(Instance),
}

/// Points of a front in order, how the search ended, and how many questions were shown to have no answer.
#[derive(Drop)]
pub struct Front {
    pub points: List<Point>,
    pub ended: FrontEnd,
    pub claims: u64,
}
