// How far a state is from a utility: whether one above another could be had within so many actions.
//
// A relaxed plan, level by level: by the state's own values the actions that could be played first, by what these write
// besides those that could then be played, and so on. What one of them writes stays in range, and consenters are not
// asked, so where no rule above could hold even so no list of so many actions leads there, and no step is made. Of a
// pack of a season's size the author's lists are looked for from the length on after which one could (`first_length`).
ghost use Rattle.std.specs.Prelude.{◌≡◌, false, ◌<◌};
ghost use Rattle.planner.specs.Inner.Who.{rules_of};
ghost use Rattle.planner.specs.Inner.Look.{Ranged};
ghost use Rattle.planner.specs.Inner.Levels.{ActionThere, ActionWidened, Levelable, LevelWidened};
ghost use Rattle.planner.specs.Inner.Levels.{Reckoned, OutOfReach, Nearest};

use crate::intern::is_large;
use crate::limits::Context;
use crate::prune::Hope;
use crate::range::{could_exceed, could_hold, widen, widen_by_triggers};
use crate::who::rules_of;
use pack::copy::copy_bytes;
use pack::places::{ACTION, EFFECTS, UTILITIES};

// Widens the ranges by the effects of an action, where its condition could hold by other ranges, from lower to upper.
pub fn widen_action(
    pack: &[u8],
    places: &[u16],
    x: usize,
    lower: &[u8],
    upper: &[u8],
    lows: &mut [u8],
    highs: &mut [u8],
)
    requires { ActionThere pack.now places.now x × Ranged lower.now upper.now
        × Ranged lows.old highs.old }
    ensures { ActionWidened pack.now places.now x lower.now
        upper.now lows.old highs.old lows.new highs.new }
{
    let condition = places[ACTION * x] as usize;
    if !could_hold(pack, condition, lower, upper) {
        return;
    }
    let effects = places[ACTION * x + EFFECTS] as usize;
    widen(pack, effects, lows, highs);
}

// By the effects of all actions that are there.
pub fn widen_level(
    pack: &[u8],
    places: &[u16],
    actions: usize,
    lower: &[u8],
    upper: &[u8],
    lows: &mut [u8],
    highs: &mut [u8],
)
    requires { Levelable pack.now places.now actions × Ranged lower.now upper.now
        × Ranged lows.old highs.old }
    ensures { LevelWidened pack.now places.now actions lower.now
        upper.now lows.old highs.old lows.new highs.new }
{
    for x in 0..actions {
        widen_action(pack, places, x, lower, upper, lows, highs);
    }
}

// After how many actions a utility above another could be had, from the state in a slot; one more than may follow where
// it could be had after none of those.
pub fn nearest(pack: &[u8], places: &[u16], p: Context, work: &[u8], slot: usize, h: Hope) -> usize
    requires { Reckoned pack.now places.now p work.now slot (rules_of h.whose) × (h.left < 256) }
    ensures { Nearest pack.now places.now p work.now slot (rules_of h.whose) h.left
        h.base result }
{
    let rules = places[UTILITIES + rules_of(h.whose)] as usize;
    let mut lows = [0u8; 24];
    copy_bytes(work, slot + 1, &mut lows, 0, p.fluents, 0);
    let mut highs = lows;
    widen_by_triggers(pack, places, p.triggers, &mut lows, &mut highs);
    for i in 0..h.left {
        if could_exceed(pack, rules, &lows, &highs, h.base) {
            return i;
        }
        let lower = lows;
        let upper = highs;
        widen_level(
            pack, places, p.actions, &lower, &upper, &mut lows, &mut highs,
        );
    }
    if could_exceed(pack, rules, &lows, &highs, h.base) {
        h.left
    } else {
        h.left + 1
    }
}

// Whether a utility above another could be had within so many actions from the state in a slot. Each last action is
// looked at by itself (`promising`), so of fewer than two nothing is reckoned, and of a search that is small.
pub fn within_reach(
    pack: &[u8],
    places: &[u16],
    p: Context,
    work: &[u8],
    slot: usize,
    h: Hope,
) -> bool
    requires { Reckoned pack.now places.now p work.now slot (rules_of h.whose) × (h.left < 256) }
    ensures { result ≡ false
        → OutOfReach pack.now places.now p work.now slot (rules_of h.whose) h.left
        h.base }
{
    h.left < 2 || !is_large(work, p) || nearest(pack, places, p, work, slot, h) <= h.left
}
