use crate::objection::Objection;

/// What is said of a plan.
#[derive(Clone, Copy, Debug, PartialEq, Eq)]
pub enum Verdict {
    /// It is accepted, and has this peak, which is least.
    Yes(u64),
    /// It is not accepted: the first objection.
    No(Objection),
}
