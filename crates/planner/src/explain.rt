// Explanations: whether a character has a reason of their own for an action. A state is row 0 of the table in a slot of
// the work buffer; the slots behind it are free.
//
// In the slots stand the state asked about, one for each action of the author's list, and one for the belief and each
// action of each explanation within it, at most 8 + 7 x 3 more. A belief is a row of the table that it is believed in;
// once there was no room for all that is known, it is laid out as a table of its own.
ghost use Rattle.std.specs.Prelude.{◌≡◌, true, false, suc, ◌+◌, ◌*◌, ◌<◌, ◌≤◌, get_or};
ghost use Rattle.planner.specs.Ending.{Explained};
ghost use Rattle.planner.specs.Inner.Lists.{slot_table, Other, Above, AboveBy, AboveBySome, Agreed};
ghost use Rattle.planner.specs.Inner.Explain.{Prepared, Foreseeing, Free, Answers, AnswersOf};
ghost use Rattle.planner.specs.Inner.Lists.{ExplainedBy};

use crate::belief::place_belief;
use crate::bound::pointless;
use crate::entry::{Deed, Goal, deed_key, goal_key, recall, remember_worth};
use crate::intern::table_in;
use crate::known::{Known, known_of, mark_of};
use crate::limits::{Context, Nesting};
use crate::prune::{Hope, promising};
use crate::reach::within_reach;
use crate::steps::{known_step, steps_made};
use crate::who::Who;
use pack::judge::utility;
use pack::places::{ACTION, CHARACTER_UTILITIES, CONSENTERS};
use pack::write::{consenter, consenters};

// A character, its goal, and how many more actions may lead to it.
#[derive(Clone, Copy)]
pub struct Quest {
    pub who: usize,
    pub goal: Goal,
    pub left: usize,
}

// Whether a deed is explained: not where there can be no reason for it, else by what is believed.
#[cycle(explaining)]
pub fn explained(
    pack: &[u8],
    places: &[u16],
    p: Context,
    work: &mut [u8],
    slot: usize,
    d: Deed,
) -> bool
    requires { Prepared pack.now places.now p work.old (slot_table p work.old slot) (slot + p.stride)
        × (d.who < p.characters) × (d.action < p.actions)
        × Free p slot (1 + (1 + p.foresight.0) * d.nesting.0) × Foreseeing p }
    ensures { Answers pack.now places.now p slot work.old
        work.new result (λ th s. Explained th p.foresight.0 d.nesting.0 d.who d.action s) }
{
    if d.nesting.0 == 0 || pointless(pack, places, p, work, slot, d) {
        return false;
    }
    let b = place_belief(work, p, slot, d.who);
    judged(pack, places, p, work, b.slot, d, b.row)
}

// Whether a deed is explained by what row q of the table in a slot means as the belief: as is known or as is found out.
#[cycle(explaining)]
pub fn judged(
    pack: &[u8],
    places: &[u16],
    p: Context,
    work: &mut [u8],
    slot: usize,
    d: Deed,
    q: usize,
) -> bool
    requires { Prepared pack.now places.now p work.old (slot_table p work.old slot) (slot + p.stride)
        × (d.who < p.characters) × (d.action < p.actions)
        × Free p slot ((1 + p.foresight.0) * d.nesting.0) × (0 < d.nesting.0)
        × (q < get_or work.old slot 0) × Foreseeing p }
    ensures { AnswersOf q pack.now places.now p slot work.old
        work.new result (λ th b. ExplainedBy th p.foresight.0 d.nesting.0 d.who d.action b) }
{
    let key = deed_key(d, q);
    if let Some(Known::Explained(verdict)) = known_of(recall(work, p, slot, key)) {
        return verdict;
    }
    let since = steps_made(work, p);
    let verdict = explains(pack, places, p, work, slot, d, q);
    remember_worth(
        work,
        p,
        slot,
        mark_of(Known::Explained(verdict)),
        key,
        since,
    );
    verdict
}

// As `judged`, by the lists that begin with the action in that belief.
#[cycle(explaining)]
pub fn explains(
    pack: &[u8],
    places: &[u16],
    p: Context,
    work: &mut [u8],
    slot: usize,
    d: Deed,
    q: usize,
) -> bool
    requires { Prepared pack.now places.now p work.old (slot_table p work.old slot) (slot + p.stride)
        × (d.who < p.characters) × (d.action < p.actions)
        × Free p slot ((1 + p.foresight.0) * d.nesting.0) × (0 < d.nesting.0)
        × (q < get_or work.old slot 0) × Foreseeing p }
    ensures { AnswersOf q pack.now places.now p slot work.old
        work.new result (λ th b. ExplainedBy th p.foresight.0 d.nesting.0 d.who d.action b) }
{
    if !known_step(pack, places, p, d.action, work, slot, q) {
        return false;
    }
    let next = slot + p.stride;
    let before = table_in(work, p, slot);
    let base = utility(
        pack,
        places[CHARACTER_UTILITIES + d.who] as usize,
        work,
        before,
        q,
    );
    let nesting = Nesting(d.nesting.0 - 1);
    let quest = Quest {
        who: d.who,
        goal: Goal { nesting, base },
        left: p.foresight.0 - 1,
    };
    extends(pack, places, p, work, next, quest)
}

// Whether some list of at most as many actions as are left leads to the goal from the state in a slot.
#[cycle(explaining)]
pub fn extends(
    pack: &[u8],
    places: &[u16],
    p: Context,
    work: &mut [u8],
    slot: usize,
    quest: Quest,
) -> bool
    requires { Prepared pack.now places.now p work.old (slot_table p work.old slot) (slot + p.stride)
        × (quest.who < p.characters)
        × Free p slot (1 + quest.left + (1 + p.foresight.0) * quest.goal.nesting.0) × Foreseeing p }
    ensures { Answers pack.now places.now p slot work.old
        work.new result
        (λ th s. Above th p.foresight.0 quest.goal.nesting.0 quest.who quest.goal.base
        (suc quest.left) s) }
{
    let goal = quest.goal;
    let t = table_in(work, p, slot);
    let worth = utility(
        pack,
        places[CHARACTER_UTILITIES + quest.who] as usize,
        work,
        t,
        0,
    );
    if goal.base < worth {
        return true;
    }
    if quest.left == 0 {
        return false;
    }
    let whose = Who::Character(quest.who);
    let hope = Hope {
        whose,
        left: quest.left,
        base: goal.base,
    };
    if !within_reach(pack, places, p, work, slot, hope) {
        return false;
    }
    let key = goal_key(whose, goal, quest.left);
    if let Some(Known::Reached(found)) = known_of(recall(work, p, slot, key)) {
        return found;
    }
    let since = steps_made(work, p);
    let fewer = Quest {
        left: quest.left - 1,
        ..quest
    };
    let found = extends_by(pack, places, p, work, slot, fewer);
    remember_worth(work, p, slot, mark_of(Known::Reached(found)), key, since);
    found
}

// Whether some action, and then some list as `extends` looks for, does.
#[cycle(explaining)]
pub fn extends_by(
    pack: &[u8],
    places: &[u16],
    p: Context,
    work: &mut [u8],
    slot: usize,
    quest: Quest,
) -> bool
    requires { Prepared pack.now places.now p work.old (slot_table p work.old slot) (slot + p.stride)
        × (quest.who < p.characters)
        × Free p slot (2 + quest.left + (1 + p.foresight.0) * quest.goal.nesting.0) × Foreseeing p }
    ensures { Answers pack.now places.now p slot work.old
        work.new result
        (λ th s. AboveBySome th p.foresight.0 quest.goal.nesting.0 quest.who quest.goal.base
        (suc quest.left) s) }
{
    let hope = Hope {
        whose: Who::Character(quest.who),
        left: quest.left,
        base: quest.goal.base,
    };
    let t = table_in(work, p, slot);
    for x in 0..p.actions {
        if !promising(pack, places, p, work, t, x, hope) {
            continue;
        }
        if via(pack, places, p, work, slot, x, quest) {
            return true;
        }
    }
    false
}

// Whether action x, and then some list as `extends` looks for, does.
#[cycle(explaining)]
pub fn via(
    pack: &[u8],
    places: &[u16],
    p: Context,
    work: &mut [u8],
    slot: usize,
    x: usize,
    quest: Quest,
) -> bool
    requires { Prepared pack.now places.now p work.old (slot_table p work.old slot) (slot + p.stride)
        × (quest.who < p.characters) × (x < p.actions)
        × Free p slot (2 + quest.left + (1 + p.foresight.0) * quest.goal.nesting.0) × Foreseeing p }
    ensures { Answers pack.now places.now p slot work.old
        work.new result
        (λ th s. AboveBy th p.foresight.0 quest.goal.nesting.0 quest.who quest.goal.base
        (suc quest.left) x s) }
{
    let deed = Deed {
        who: quest.who,
        nesting: quest.goal.nesting,
        action: x,
    };
    if !allowed(pack, places, p, work, slot, deed) {
        return false;
    }
    known_step(pack, places, p, x, work, slot, 0)
        && extends(pack, places, p, work, slot + p.stride, quest)
}

// Whether the deed's action is explained to each of its consenters other than the one whose deed it is.
#[cycle(explaining)]
pub fn allowed(
    pack: &[u8],
    places: &[u16],
    p: Context,
    work: &mut [u8],
    slot: usize,
    d: Deed,
) -> bool
    requires { Prepared pack.now places.now p work.old (slot_table p work.old slot) (slot + p.stride)
        × (d.action < p.actions)
        × Free p slot (1 + (1 + p.foresight.0) * d.nesting.0) × Foreseeing p }
    ensures { Answers pack.now places.now p slot work.old
        work.new result (λ th s. Agreed th p.foresight.0 d.nesting.0 d.who d.action s) }
{
    let at = places[ACTION * d.action + CONSENTERS] as usize;
    let count = consenters(pack, at);
    for i in 0..count {
        let c = consenter(pack, at, i);
        if !fine(pack, places, p, work, slot, c, d) {
            return false;
        }
    }
    true
}

// Whether c, if it is another than that one, has it explained.
#[cycle(explaining)]
pub fn fine(
    pack: &[u8],
    places: &[u16],
    p: Context,
    work: &mut [u8],
    slot: usize,
    c: usize,
    d: Deed,
) -> bool
    requires { Prepared pack.now places.now p work.old (slot_table p work.old slot) (slot + p.stride)
        × (c < p.characters) × (d.action < p.actions)
        × Free p slot (1 + (1 + p.foresight.0) * d.nesting.0) × Foreseeing p }
    ensures { Answers pack.now places.now p slot work.old
        work.new result
        (λ th s. Other d.who c → Explained th p.foresight.0 d.nesting.0 c d.action s) }
{
    c == d.who || explained(pack, places, p, work, slot, Deed { who: c, ..d })
}
