// The pack layer: the bytes of a story pack are read or refused, and the places of its parts are found.
// What each function reads is said by a parser: see pack/specs/Grammar.antt. What is in which module:
#![tactic(auto)]

pub mod action; // actions, with the places of their parts
pub mod condition; // conditions, checked
pub mod contents; // a whole pack
pub mod copy; // nodes copied into a table
pub mod dimensions; // characters, fluents and domain sizes
pub mod effect; // effects and consenters, checked
pub mod effects; // the walk over effects where they stand
pub mod head; // the domain sizes of a head
pub mod judge; // conditions and utilities judged in place
pub mod node; // nodes, as a pack or a chart has them, and a whole chart
pub mod number; // numbers, and numbers with their limits
pub mod part; // parts of one kind, one after the other
pub mod places; // where the places of its parts stand among those that are marked
pub mod plain; // tests with one byte a number, passed over at once
pub mod reader; // a reader that holds the bytes and a position, and hands out numbers and parts
pub mod refusal; // why something is refused, with its number and place
pub mod table; // a table of states in a buffer, and where a chain leads
pub mod test; // a test taken apart where it stands
pub mod trigger; // triggers, with the places of their parts
pub mod utility; // rules, checked, with their places
pub mod write; // effects written in place, and consenters
