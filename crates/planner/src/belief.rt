// Where what a character believes stands: a row of the table that it is believed in or, once there was no room for all
// that is known, the first row of a table of its own in the slot behind. So what is found out of a belief is known
// wherever it is held, and not in one state alone.
ghost use Rattle.std.specs.Prelude.{◌+◌, ◌<◌, get_or};
ghost use Rattle.planner.specs.Inner.Explain.{Held, Free, LaysBelief, PlacesBelief};

use crate::intern::{has_overflowed, table_in};
use crate::limits::Context;
use crate::regions::SLOTS;
use chart::bytes::copy_part;
use chart::pass::copy_reachable;
use transition::regions::{MADE, NUMBERS};

// A row of the table in a slot.
#[derive(Clone, Copy)]
pub struct Row {
    pub slot: usize,
    pub row: usize,
}

// Lays what a row of the table in a slot means out in the next slot, as its first row, with all that it reaches.
pub fn lay_belief(work: &mut [u8], p: Context, slot: usize, row: usize)
    requires { Held p work.old slot × (row < get_or work.old slot 0) × Free p slot 2 }
    ensures { LaysBelief p slot row work.old work.new }
{
    let t = table_in(work, p, slot);
    let nodes = copy_reachable(work, t, NUMBERS, MADE, row);
    let next = slot + p.stride;
    work[next] = nodes as u8;
    copy_part(work, MADE, next + 1, nodes * (p.fluents + p.characters));
    work[p.memory + (next + 1) % SLOTS] = 0;
}

// Where what c believes in the state in a slot stands.
pub fn place_belief(work: &mut [u8], p: Context, slot: usize, c: usize) -> Row
    requires { Held p work.old slot × (c < p.characters) × Free p slot 2 }
    ensures { PlacesBelief p slot c work.old work.new result.slot result.row }
{
    let row = usize::from(work[slot + 1 + p.fluents + c]);
    if has_overflowed(work, p) {
        lay_belief(work, p, slot, row);
        return Row {
            slot: slot + p.stride,
            row: 0,
        };
    }
    Row { slot, row }
}
