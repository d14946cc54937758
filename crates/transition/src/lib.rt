// The transition layer: what actions and triggers make of a state, in slots of the work buffer. What Step promises
// stands in specs/; its call is in play.
#![tactic(auto)]

pub mod act;
pub mod cause;
pub mod change;
pub mod fire;
pub mod play;
pub mod regions;
pub mod round;
pub mod settle;
pub mod stage;
pub mod step;
