// Steps that are known: what an action leaves of a row of a kept table is made once, and then copied. Once there was no
// room they are made and counted, and not kept.
ghost use Rattle.std.specs.Prelude.{◌≡◌, true, false, ◌+◌, ◌*◌, ◌/◌, ◌<◌, ◌≤◌, length, get_or};
ghost use Rattle.chart.specs.Call.{work_room};
ghost use Rattle.planner.specs.Inner.Lists.{slot_table};
ghost use Rattle.planner.specs.Inner.Memory.{Laid, id_byte, Names, steps_at, step_at, Before, Kept};
ghost use Rattle.planner.specs.Inner.Memory.{Place, StepRead, StepPut};
ghost use Rattle.planner.specs.Inner.Memory.{Noted, Slot, Again, LeftNoted, StepOnce, Unasked, Roomy};
ghost use Rattle.planner.specs.Inner.Explain.{Steppable, Advances};
ghost use Rattle.transition.specs.Duties.Stage.{scratch_at};

use crate::intern::{has_overflowed, id_byte, id_in, id_of, intern_slot, table_in};
use crate::limits::{Context, remainder};
use crate::regions::{MADE_SINCE, SLOTS, STEPS};
use chart::bytes::copy_part;
use pack::table::Table;
use transition::step::{Move, step_slot};

// The place of the entry for an action in a row of the table of an id.
pub fn step_at(p: Context, id: usize, root: usize, action: usize) -> usize
    requires { Laid p × (id < 256) × (root < 256) × (action < 256) }
    ensures { (result ≡ step_at p id root action) × Place (p.lists / 2) (steps_at p) 4 result }
{
    p.memory + STEPS + 4 * remainder(id * 11 + root * 5 + action, p.lists / 2)
}

// Whether an entry is that one.
pub fn step_is(work: &[u8], at: usize, id: usize, root: usize, action: usize) -> bool
    requires { at + 4 ≤ length work.now }
    ensures { (result ≡ true → StepRead work.now at id root action)
        × (result ≡ false → ¬ StepRead work.now at id root action) }
{
    id != 0
        && usize::from(work[at]) == id
        && usize::from(work[at + 1]) == root
        && usize::from(work[at + 2]) == action
}

// Puts down the id of what the action leaves, or none where it does not play.
pub fn store_step(
    work: &mut [u8],
    at: usize,
    id: usize,
    root: usize,
    action: usize,
    next: Option<usize>,
)
    requires { (at + 4 ≤ length work.old) × (id < 256) × (root < 256) × (action < 256) × (id_byte next < 256) }
    ensures { StepPut work.old work.new at id root action (id_byte next) }
{
    work[at] = id as u8;
    work[at + 1] = root as u8;
    work[at + 2] = action as u8;
    work[at + 3] = id_byte(next);
}

// The same for a table in a slot that has an id.
pub fn note(work: &mut [u8], p: Context, t: Table, root: usize, action: usize, next: Option<usize>)
    requires { Before p work.old t × (root < 256) × (action < 256) × (id_byte next < 256) }
    ensures { Noted p t root action (id_byte next) work.old work.new }
{
    if let Some(id) = id_in(work[p.memory + t.rows % SLOTS]) {
        let at = step_at(p, id, root, action);
        store_step(work, at, id, root, action, next);
    }
}

// Copies the table of an id into a slot, if there is one; whether the step plays, as `known_step`.
pub fn again(work: &mut [u8], p: Context, next: Option<usize>, slot: usize) -> bool
    requires { Slot p work.old slot × Names next (λ id. (id < 256) × (0 < id → Kept p work.old id)) }
    ensures { Again p (id_byte next) slot work.old work.new result }
{
    let Some(next) = next else {
        return false;
    };
    let from = p.tables - p.block + p.block * next;
    let nodes = usize::from(work[from]);
    copy_part(work, from, slot, 1 + nodes * (p.fluents + p.characters));
    work[p.memory + (slot + 1) % SLOTS] = next as u8;
    true
}

// Names what a step has left in a slot, and puts the step down.
pub fn note_left(work: &mut [u8], p: Context, t: Table, root: usize, action: usize, slot: usize)
    requires { Before p work.old t × (root < 256) × (action < 256) × Slot p work.old slot
        × (get_or work.old slot 0 ≤ 32) }
    ensures { LeftNoted p t root action slot work.old work.new }
{
    work[p.memory + (slot + 1) % SLOTS] = 0;
    if let Some(next) = intern_slot(work, p, slot) {
        note(work, p, t, root, action, Some(next));
    }
}

// Plays an action in what a row of the table in a slot means, into the next slot, and says whether it plays; what it
// leaves is copied where it is known.
pub fn kept_step(
    pack: &[u8],
    places: &[u16],
    p: Context,
    action: usize,
    work: &mut [u8],
    slot: usize,
    root: usize,
) -> bool
    requires { Steppable pack.now places.now p action work.old (slot_table p work.old slot) root
        (slot + p.stride) }
    ensures { Advances pack.now places.now p action slot root work.old
        work.new result
        × StepOnce p (slot_table p work.old slot) root action (slot + p.stride) work.old
        work.new result }
{
    let t = table_in(work, p, slot);
    if let Some(id) = id_of(work, p, slot) {
        let at = step_at(p, id, root, action);
        if step_is(work, at, id, root, action) {
            let next = id_in(work[at + 3]);
            return again(work, p, next, slot + p.stride);
        }
    }
    let m = Move {
        action,
        triggers: p.triggers,
    };
    let plays = step_slot(pack, places, m, work, t, root, slot + p.stride).is_ok();
    if plays {
        note_left(work, p, t, root, action, slot + p.stride);
    } else {
        note(work, p, t, root, action, None);
    }
    plays
}

// How many steps have been made since there was no room; counted from 0 again after
// 16,777,215.
pub fn steps_made(work: &[u8], p: Context) -> usize
    requires { (p.memory ≤ scratch_at) × (work_room ≤ length work.now) }
    ensures { result < 16777216 }
{
    let at = p.memory + MADE_SINCE;
    usize::from(work[at]) + 256 * usize::from(work[at + 1]) + 65536 * usize::from(work[at + 2])
}

// Counts one more.
pub fn count_step(work: &mut [u8], p: Context)
    requires { (p.memory ≤ scratch_at) × (work_room ≤ length work.old) }
    ensures { Unasked p work.old work.new }
{
    let count = steps_made(work, p) + 1;
    let at = p.memory + MADE_SINCE;
    work[at] = (count % 256) as u8;
    work[at + 1] = (count / 256 % 256) as u8;
    work[at + 2] = (count / 65536 % 256) as u8;
}

// As `kept_step`, made and not kept.
pub fn plain_step(
    pack: &[u8],
    places: &[u16],
    p: Context,
    action: usize,
    work: &mut [u8],
    slot: usize,
    root: usize,
) -> bool
    requires { Steppable pack.now places.now p action work.old (slot_table p work.old slot) root
        (slot + p.stride) }
    ensures { Advances pack.now places.now p action slot root work.old
        work.new result }
{
    let t = table_in(work, p, slot);
    count_step(work, p);
    let next = slot + p.stride;
    let m = Move {
        action,
        triggers: p.triggers,
    };
    let plays = step_slot(pack, places, m, work, t, root, next).is_ok();
    work[p.memory + (next + 1) % SLOTS] = 0;
    plays
}

// Plays an action in what a row of the table in a slot means, into the next slot; whether it plays.
pub fn known_step(
    pack: &[u8],
    places: &[u16],
    p: Context,
    action: usize,
    work: &mut [u8],
    slot: usize,
    root: usize,
) -> bool
    requires { Steppable pack.now places.now p action work.old (slot_table p work.old slot) root
        (slot + p.stride) }
    ensures { Advances pack.now places.now p action slot root work.old
        work.new result
        × (Roomy p work.old → StepOnce p (slot_table p work.old slot) root action
        (slot + p.stride) work.old work.new result) }
{
    if has_overflowed(work, p) {
        return plain_step(pack, places, p, action, work, slot, root);
    }
    kept_step(pack, places, p, action, work, slot, root)
}
