// Where the places of a pack's parts stand among those that are marked. Those of the actions come first, nine for each:
// condition, effects, consenters, and an observation condition for each character. Behind them are those of the
// triggers, two for each, and of the utilities, one for each.
//
// A place has 16 bits: no accepted pack has more than 8,192 bytes, and what is read within them ends within them. All
// are set to 0 before they are marked, and each line of cache beside the work buffer costs time.

// How many places there are for an action; its condition is the first of them, and these are its effects, its
// consenters and the first character's observation condition.
pub const ACTION: usize = 9;

pub const EFFECTS: usize = 1;

pub const CONSENTERS: usize = 2;

pub const OBSERVED: usize = 3;

// How many there are for a trigger: its condition, and its effects.
pub const TRIGGER: usize = 2;

// The condition of the first trigger, and its effects.
pub const TRIGGERS: usize = 288;

pub const TRIGGER_EFFECTS: usize = 289;

// The author's utility, and the first character's.
pub const UTILITIES: usize = 320;

pub const CHARACTER_UTILITIES: usize = 321;

// How many places there are.
pub const PLACES: usize = 327;
