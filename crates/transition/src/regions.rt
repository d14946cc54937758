// Where tables stand in the work buffer: in slots from its start on, and behind them, while a stage of Step is made.
//
// A stage reads a table below its scratch, writes upwards, and copies the merged rows down into a slot. Nothing below
// the slot and nothing between it and the scratch changes, so a search keeps its stack in the slots.
use chart::values::Regions;

// A slot has room for the count of the largest table and its rows.
pub const SLOT: usize = 961;

// The rows of the table in the second slot stand behind their count.
pub const SECOND_ROWS: usize = SLOT + 1;

// The numbers and keys of what happens.
pub const NUMBERS: usize = 40304;

// The rows that are made of it.
pub const MADE: usize = 40756;

// The classes of a level of them, the classes so far, and the first row of each.
pub const LEVEL: usize = 47508;

pub const CLASSES: usize = 47736;

pub const FIRSTS: usize = 47964;

// Where these three stand, for a partition.
pub const PARTITION: Regions = Regions {
    level: LEVEL,
    classes: CLASSES,
    firsts: FIRSTS,
};

// The rows, one of each class.
pub const MERGED: usize = 48192;
