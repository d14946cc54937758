// What no list of actions can exceed. A utility is 0 or a rule's, so where no rule is above what is to be exceeded
// there is nothing to look for.
//
// A bound before the search: a character's goal is set by the belief that an explanation begins with and stays the same
// to its end, as the author's does from the start, so it is asked once for each, before anything is recalled or tried.
ghost use Rattle.std.specs.Prelude.{ℕ, ◌+◌, ◌<◌, ◌≡◌};
ghost use Rattle.pack.specs.Grammar.{rules_at};
ghost use Rattle.pack.specs.Duties.Judge.{Readable, Tells};
ghost use Rattle.planner.specs.Inner.Lists.{slot_table};
ghost use Rattle.planner.specs.Inner.Explain.{Staged, Free};
ghost use Rattle.planner.specs.Inner.Bound.{exceeds, NoReason};

use crate::entry::Deed;
use crate::intern::{is_large, table_in};
use crate::limits::Context;
use pack::judge::{after_condition, holds, utility};
use pack::number::read_number;
use pack::places::{ACTION, CHARACTER_UTILITIES};

// Whether some rule, of those at a place, is above base.
// `could_exceed` asks besides whether the rule could hold; one function of a closure for that would say it no shorter.
pub fn can_exceed(pack: &[u8], at: usize, base: usize) -> bool
    requires { Readable rules_at pack.now at }
    ensures { Tells rules_at (exceeds base) pack.now at result }
{
    let mut n = at + 1;
    let count = usize::from(pack[at]);
    for i in 0..count {
        let Ok((value, next)) = read_number(pack, after_condition(pack, n)) else {
            return false;
        };
        if base < value {
            return true;
        }
        n = next;
    }
    false
}

// Whether a deed's character can have no reason for its action in the state in a slot: the action's condition fails in
// what the character believes, or no rule of the character is above what that belief is worth to it.
pub fn pointless(pack: &[u8], places: &[u16], p: Context, work: &[u8], slot: usize, d: Deed) -> bool
    requires { Staged pack.now places.now p work.now (slot_table p work.now slot) (slot + p.stride)
        × (d.who < p.characters) × (d.action < p.actions) × Free p slot 1 }
    ensures { NoReason pack.now places.now p slot work.now d.who
        d.action result }
{
    if !is_large(work, p) {
        return false;
    }
    let q = usize::from(work[slot + 1 + p.fluents + d.who]);
    let t = table_in(work, p, slot);
    if !holds(pack, places[ACTION * d.action] as usize, work, t, q) {
        return true;
    }
    let rules = places[CHARACTER_UTILITIES + d.who] as usize;
    let base = utility(pack, rules, work, t, q);
    !can_exceed(pack, rules, base)
}
