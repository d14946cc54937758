// Search: the list search of the author, shortest lists first, and the public call. A state is row 0 of the table in a
// slot of the work buffer; the slots behind it are free.
//
// Iterative deepening (`deepen`) over a depth-limited search (`completes`). The list is written on the way back from
// its end, so nothing is put down where there is none. Everybody is asked: the character left out is the number of
// characters, which no consenter has.
ghost use Rattle.std.specs.Prelude.{◌≡◌, true, false, ◌&&◌, List, ℕ, suc, ◌+◌, ◌*◌, ◌<◌, ◌≤◌, length, get_or};
ghost use Rattle.pack.specs.Syntax.{Node};
ghost use Rattle.planner.specs.Inner.Lists.{slot_table, Ends, EndsBy};
ghost use Rattle.planner.specs.Inner.Memory.{Before};
ghost use Rattle.planner.specs.Inner.Explain.{Staged, Foreseeing, Free};
ghost use Rattle.planner.specs.Inner.Levels.{Reckoned, OutOfReach};
ghost use Rattle.planner.specs.Inner.Search.{Underway, Finds, EndsHere, Outset, Repeated, OnPath, Laying};
ghost use Rattle.planner.specs.Inner.Search.{Layable, LaidStart, ShortestFrom, Seekable, SearchPutFrom};
ghost use Rattle.planner.specs.Promises.{Searching};

use crate::Ending;
use crate::bound::can_exceed;
use crate::entry::{Deed, Goal, goal_key, recall, remember_worth};
use crate::explain::allowed;
use crate::intern::{extent, table_in};
use crate::known::{Known, known_of, mark_of};
use crate::limits::{Context, Foresight, Limits, Nesting, SEASON, Story, laid_out, searchable};
use crate::prune::{Hope, promising};
use crate::reach::{nearest, within_reach};
use crate::steps::{known_step, steps_made};
use crate::who::Who;
use chart::bytes::{clear, copy_part, same_part};
use chart::call::{LIST_ROOM, WORK_ROOM, both_at_most, check_lent};
use chart::start::{MERGED, merge_table};
use pack::contents::read_pack;
use pack::copy::copy_table;
use pack::judge::utility;
use pack::places::{PLACES, UTILITIES};
use pack::refusal::Refusal;

// The list that was found: how many actions it has, and the author's utility at its end.
#[derive(Clone, Copy)]
pub struct Ended {
    pub count: usize,
    pub after: usize,
}

// The actions of the author's list that are ahead: how many are done before them, how many are left, and which goal
// they are to lead to.
#[derive(Clone, Copy)]
pub struct Ahead {
    pub done: usize,
    pub left: usize,
    pub goal: Goal,
}

// The nodes of a pack: where the first is read, and how many there are.
#[derive(Clone, Copy)]
pub struct Nodes {
    pub first: usize,
    pub count: usize,
}

// The author's utility at the end of the earliest list of exactly as many actions as are left, from the state in the
// slot behind `done` others, that leads to the goal; the list is put down from `done` on.
#[cycle(completing)]
pub fn completes(
    pack: &[u8],
    places: &[u16],
    p: Context,
    work: &mut [u8],
    list: &mut [u8],
    ahead: Ahead,
) -> Option<usize>
    requires { Underway ahead.goal.nesting.0 ahead.goal.base pack.now places.now p work.old
        ahead.done ahead.left
        × Free p (ahead.done * p.stride) (1 + ahead.left + (1 + p.foresight.0) * ahead.goal.nesting.0)
        × (ahead.done + ahead.left ≤ length list.old) × Foreseeing p }
    ensures { Finds ahead.goal.nesting.0 ahead.goal.base pack.now places.now p
        ahead.done ahead.left list.old list.new work.old work.new result
        (λ th. Ends th p.foresight.0 ahead.goal.nesting.0 ahead.goal.base) }
{
    let slot = ahead.done * p.stride;
    let goal = ahead.goal;
    if ahead.left == 0 {
        return ends(pack, places, p, work, slot, goal.base);
    }
    if repeats(work, p, slot, ahead.done) {
        return None;
    }
    let hope = Hope {
        whose: Who::Author,
        left: ahead.left,
        base: goal.base,
    };
    if !within_reach(pack, places, p, work, slot, hope) {
        return None;
    }
    let key = goal_key(Who::Author, goal, ahead.left);
    if let Some(Known::NoEnding) = known_of(recall(work, p, slot, key)) {
        return None;
    }
    let since = steps_made(work, p);
    let fewer = Ahead {
        left: ahead.left - 1,
        ..ahead
    };
    let after = completes_after(pack, places, p, work, list, fewer);
    if after.is_none() {
        remember_worth(work, p, slot, mark_of(Known::NoEnding), key, since);
    }
    after
}

// Whether the state in a slot, the last of `done` + 1, is one of those in the slots before it. Written charts stand in
// them, so equal bytes are the same state, and only they are.
pub fn repeats(work: &[u8], p: Context, slot: usize, done: usize) -> bool
    requires { Before p work.now (slot_table p work.now slot) × (slot ≡ done * p.stride)
        × OnPath p work.now done }
    ensures { (result ≡ true → Repeated p work.now slot done)
        × (result ≡ false → ¬ Repeated p work.now slot done) }
{
    let n = extent(work, p, slot);
    for i in 0..done {
        if same_part(work, slot, i * p.stride, n) {
            return true;
        }
    }
    false
}

// As `completes`, of the lists of one action more.
#[cycle(completing)]
pub fn completes_after(
    pack: &[u8],
    places: &[u16],
    p: Context,
    work: &mut [u8],
    list: &mut [u8],
    ahead: Ahead,
) -> Option<usize>
    requires { Underway ahead.goal.nesting.0 ahead.goal.base pack.now places.now p work.old
        ahead.done (suc ahead.left)
        × Free p (ahead.done * p.stride) (2 + ahead.left + (1 + p.foresight.0) * ahead.goal.nesting.0)
        × (ahead.done + suc ahead.left ≤ length list.old) × Foreseeing p }
    ensures { Finds ahead.goal.nesting.0 ahead.goal.base pack.now places.now p
        ahead.done (suc ahead.left) list.old list.new work.old
        work.new result (λ th. Ends th p.foresight.0 ahead.goal.nesting.0 ahead.goal.base) }
{
    let slot = ahead.done * p.stride;
    let hope = Hope {
        whose: Who::Author,
        left: ahead.left,
        base: ahead.goal.base,
    };
    let t = table_in(work, p, slot);
    for x in 0..p.actions {
        if !promising(pack, places, p, work, t, x, hope) {
            continue;
        }
        let after = completes_by(pack, places, p, work, list, ahead, x);
        if after.is_some() {
            return after;
        }
    }
    None
}

// The author's utility in the state in a slot where it is above base.
pub fn ends(
    pack: &[u8],
    places: &[u16],
    p: Context,
    work: &[u8],
    slot: usize,
    base: usize,
) -> Option<usize>
    requires { Staged pack.now places.now p work.now (slot_table p work.now slot) (slot + p.stride)
        × Free p slot 1 }
    ensures { EndsHere base pack.now places.now p slot work.now result }
{
    let t = table_in(work, p, slot);
    let worth = utility(pack, places[UTILITIES] as usize, work, t, 0);
    if base < worth { Some(worth) } else { None }
}

// As `completes`, of the lists of one action more that begin with x.
#[cycle(completing)]
pub fn completes_by(
    pack: &[u8],
    places: &[u16],
    p: Context,
    work: &mut [u8],
    list: &mut [u8],
    ahead: Ahead,
    x: usize,
) -> Option<usize>
    requires { Underway ahead.goal.nesting.0 ahead.goal.base pack.now places.now p work.old
        ahead.done (suc ahead.left) × (x < p.actions)
        × Free p (ahead.done * p.stride) (2 + ahead.left + (1 + p.foresight.0) * ahead.goal.nesting.0)
        × (ahead.done + suc ahead.left ≤ length list.old) × Foreseeing p }
    ensures { Finds ahead.goal.nesting.0 ahead.goal.base pack.now places.now p
        ahead.done (suc ahead.left) list.old list.new work.old
        work.new result (λ th. EndsBy th p.foresight.0 ahead.goal.nesting.0 ahead.goal.base x) }
{
    let done = ahead.done;
    let slot = done * p.stride;
    let deed = Deed {
        who: p.characters,
        nesting: ahead.goal.nesting,
        action: x,
    };
    if !allowed(pack, places, p, work, slot, deed) {
        return None;
    }
    if !known_step(pack, places, p, x, work, slot, 0) {
        return None;
    }
    let next = Ahead {
        done: done + 1,
        ..ahead
    };
    let after = completes(pack, places, p, work, list, next)?;
    list[done] = x as u8;
    Some(after)
}

// The least length, of 1 to `most` actions, that a list may have which leads the author above base from the state in
// the first slot; or one more. No list is looked for that is shorter. Of a pack of few actions nothing is reckoned: its
// short lists are looked for as quickly.
pub fn first_length(
    pack: &[u8],
    places: &[u16],
    p: Context,
    work: &[u8],
    base: usize,
    most: usize,
) -> usize
    requires { Reckoned pack.now places.now p work.now 0 0 × (most < 256) }
    ensures { (0 < result) × ((k : ℕ) → 0 < k → k < result
        → OutOfReach pack.now places.now p work.now 0 0 k base) }
{
    if p.actions < SEASON {
        return 1;
    }
    let hope = Hope {
        whose: Who::Author,
        left: most,
        base,
    };
    nearest(pack, places, p, work, 0, hope).max(1)
}

// The shortest list of 1 to `most` actions from the state in the first slot that leads to a goal, and of those the
// earliest. Lists are looked for by their length, from the first on that may lead there; none where no rule of the
// author could exceed.
pub fn deepen(
    pack: &[u8],
    places: &[u16],
    p: Context,
    work: &mut [u8],
    list: &mut [u8],
    g: Goal,
    most: usize,
) -> Option<Ended>
    requires { Outset g.base pack.now places.now p work.old × (most ≤ 8) × (8 ≤ length list.old)
        × Free p 0 (1 + most + (1 + p.foresight.0) * g.nesting.0) × Foreseeing p }
    ensures { ShortestFrom most g.nesting.0 g.base pack.now places.now p
        list.old list.new work.old work.new result }
{
    if !can_exceed(pack, places[UTILITIES] as usize, g.base) {
        return None;
    }
    let first = first_length(pack, places, p, work, g.base, most);
    for n in first..=most {
        let ahead = Ahead {
            done: 0,
            left: n,
            goal: g,
        };
        if let Some(after) = completes(pack, places, p, work, list, ahead) {
            return Some(Ended { count: n, after });
        }
    }
    None
}

// Lays the nodes out in the first slot, merged, and empties the memory behind the slots, in which they may have been
// merged.
pub fn lay_start(pack: &[u8], nodes: Nodes, p: Context, work: &mut [u8])
    requires { Layable pack.now nodes.first nodes.count p work.old }
    ensures { (T : List Node)
        → Laying T pack.now nodes.first nodes.count p work.old
        → LaidStart T p work.old work.new }
{
    copy_table(
        pack,
        nodes.first,
        nodes.count,
        work,
        0,
        p.fluents,
        p.characters,
    );
    let width = p.fluents + p.characters;
    let rows = merge_table(work, nodes.count, width, p.fluents, p.characters);
    work[0] = rows as u8;
    copy_part(work, MERGED, 1, rows * width);
    clear(work, p.memory, p.tables - p.memory);
}

// The search from what the first of the nodes means. The work buffer is cleared.
pub fn search_nodes(
    pack: &[u8],
    places: &[u16],
    p: Context,
    nodes: Nodes,
    limits: Limits,
    list: &mut [u8],
    work: &mut [u8],
) -> Result<Ending, Refusal>
    requires { Seekable pack.now places.now p nodes.first nodes.count limits.story.0
        p.foresight.0 limits.nesting.0 list.old work.old }
    ensures { SearchPutFrom pack.now places.now p nodes.first nodes.count
        limits.story.0 p.foresight.0 limits.nesting.0 list.old list.new
        work.old work.new result }
{
    lay_start(pack, nodes, p, work);
    let t = table_in(work, p, 0);
    let base = utility(pack, places[UTILITIES] as usize, work, t, 0);
    let goal = Goal {
        nesting: limits.nesting,
        base,
    };
    let found = deepen(pack, places, p, work, list, goal, limits.story.0);
    clear(work, 0, WORK_ROOM);
    let best = found.ok_or(Refusal::NoEnding)?;
    Ok(Ending {
        length: best.count,
        before: base,
        after: best.after,
    })
}

// Search(pack, T, K, E, list out, work): the length of the list, which is written, and both utilities, or a refusal's
// number and place.
pub fn search(
    pack: &[u8],
    t: Story,
    k: Foresight,
    e: Nesting,
    list: &mut [u8],
    work: &mut [u8],
) -> Result<Ending, Refusal>
    ensures { Searching pack.now t.0 k.0 e.0 list.old work.old
        list.new work.new result }
{
    let mut places = [0u16; PLACES];
    let p = read_pack(pack, &mut places)?;
    let enough = both_at_most(LIST_ROOM, list.len(), WORK_ROOM, work.len());
    check_lent(enough, searchable(t, k, e))?;
    let context = laid_out(p, k, 1 + t.0 + (1 + k.0) * e.0);
    let start = Nodes {
        first: p.first,
        count: p.nodes,
    };
    let limits = Limits {
        story: t,
        nesting: e,
    };
    search_nodes(pack, &places, context, start, limits, list, work)
}
