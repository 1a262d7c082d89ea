// Ways of returning, by the offsets of the conditions that rules name.
use crate::{OutcomeConditions, PointConditions};

// A way of returning: the point that it is at, a method's exit, or that it leads to, a call's target; and what the method declares of it.
#[derive(Clone, Copy)]
pub struct Way {
    pub point: PointConditions,
    pub declared: OutcomeConditions,
}
