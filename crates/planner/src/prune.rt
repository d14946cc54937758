// Pruning: which actions are worth a try in a state, before a step is made.
//
// No step is made for an action whose condition fails, nor for a last one after which no rule above some utility could
// hold: its effects are written into a copy of the state's own values, and the triggers widen these to ranges.
ghost use Rattle.std.specs.Prelude.{◌≡◌, false};
ghost use Rattle.planner.specs.Inner.Who.{rules_of};
ghost use Rattle.planner.specs.Inner.Look.{Tryable, Hopeless};

use crate::limits::Context;
use crate::range::{could_exceed, widen_by_triggers};
use crate::who::{Who, rules_of};
use pack::copy::copy_bytes;
use pack::judge::holds;
use pack::places::{ACTION, EFFECTS, UTILITIES};
use pack::table::Table;
use pack::write::write_effects;

// For whose utility actions are tried, how many more may follow, and above which utility they are to lead.
#[derive(Clone, Copy)]
pub struct Hope {
    pub whose: Who,
    pub left: usize,
    pub base: usize,
}

// Whether action x, as the last one, could leave a utility above base of what is in row 0.
pub fn could_leave(
    pack: &[u8],
    places: &[u16],
    p: Context,
    work: &[u8],
    t: Table,
    x: usize,
    h: Hope,
) -> bool
    requires { Tryable pack.now places.now p.triggers x work.now t (rules_of h.whose) }
    ensures { result ≡ false
        → Hopeless pack.now places.now p.triggers x work.now t (rules_of h.whose)
        0 h.base }
{
    let mut lows = [0u8; 24];
    copy_bytes(work, t.rows, &mut lows, 0, t.fluents, 0);
    let effects = places[ACTION * x + EFFECTS] as usize;
    write_effects(pack, effects, 0, &mut lows, 0, t.fluents);
    let mut highs = lows;
    widen_by_triggers(pack, places, p.triggers, &mut lows, &mut highs);
    let rules = places[UTILITIES + rules_of(h.whose)] as usize;
    could_exceed(pack, rules, &lows, &highs, h.base)
}

// Whether action x is worth a try in row 0: its condition holds, and where it is the last one it could leave a utility
// above base.
#[inline(always)]
pub fn promising(
    pack: &[u8],
    places: &[u16],
    p: Context,
    work: &[u8],
    t: Table,
    x: usize,
    h: Hope,
) -> bool
    requires { Tryable pack.now places.now p.triggers x work.now t (rules_of h.whose) }
    ensures { result ≡ false
        → Hopeless pack.now places.now p.triggers x work.now t (rules_of h.whose)
        h.left h.base }
{
    if !holds(pack, places[ACTION * x] as usize, work, t, 0) {
        return false;
    }
    0 < h.left || could_leave(pack, places, p, work, t, x, h)
}
