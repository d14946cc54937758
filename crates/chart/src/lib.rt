// The chart layer: states of nested belief, written as charts. What its public calls promise stands in specs/; here is
// what Compare hands back of a difference.
#![tactic(auto)]

pub mod bytes;
pub mod call;
pub mod compare;
pub mod merge;
pub mod numbering;
pub mod out;
pub mod pairs;
pub mod partition;
pub mod pass;
pub mod query;
pub mod start;
pub mod values;

// Where two states differ, as Compare hands it back: the length of the chain to the difference, and the fluent that
// differs there.
#[derive(Clone, Copy, Debug, PartialEq, Eq)]
pub struct Difference {
    pub length: usize,
    pub fluent: usize,
}
