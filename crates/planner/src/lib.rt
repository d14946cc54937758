// The planner layer: explanations and endings. What it promises stands in specs/; here is what Search hands back of
// an ending.
#![tactic(auto)]

pub mod belief;
pub mod bound;
pub mod cell;
pub mod entry;
pub mod explain;
pub mod intern;
pub mod known;
pub mod limits;
pub mod prune;
pub mod range;
pub mod reach;
pub mod regions;
pub mod search;
pub mod steps;
pub mod verdict;
pub mod who;

// An ending, as Search hands it back: how many actions its list has, and the author's utility ("worth") at the start
// and at the list's end.
#[derive(Clone, Copy, Debug, PartialEq, Eq)]
pub struct Ending {
    pub length: usize,
    pub before: usize,
    pub after: usize,
}
