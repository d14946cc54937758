// The entries of the transposition table: what is known of the lists from a state, and of deeds in it, found by the id
// of its table and a key; one entry for each hash, each true.
ghost use Rattle.std.specs.Prelude.{◌≡◌, true, false, ℕ, ◌+◌, ◌*◌, ◌<◌, ◌≤◌, length};
ghost use Rattle.planner.specs.Inner.Lists.{slot_table};
ghost use Rattle.planner.specs.Inner.Memory.{Laid, Before, Place, Storable, KeyPut};
ghost use Rattle.planner.specs.Inner.Memory.{Recalled, Recalls, Remembered, Notes, Roomy, Spent, FoundIn};
ghost use Rattle.planner.specs.Inner.Memory.{facts_at, entry_at, goal_key, deed_key, key_at};

use crate::cell::{recall_cell, remember_cell};
use crate::intern::{id_of, in_cells};
use crate::limits::{Context, Nesting, remainder};
use crate::regions::{STEPS, WORTH};
use crate::steps::steps_made;
use crate::who::{Who, key_of};

// What a list is looked for: at which nesting its actions are to be explained, and above which utility it is to end.
#[derive(Clone, Copy)]
pub struct Goal {
    pub nesting: Nesting,
    pub base: usize,
}

// A character and an action, which is to be explained to it at a nesting.
#[derive(Clone, Copy)]
pub struct Deed {
    pub who: usize,
    pub nesting: Nesting,
    pub action: usize,
}

// What an entry is found by: the numbers of a goal or of a deed, as its bytes keep them.
#[derive(Clone, Copy)]
pub struct Key {
    pub who: usize,
    pub nesting: usize,
    pub number: usize,
    pub base: usize,
}

// The key of what is known of the lists of so many actions to a goal of the author or of a character.
pub fn goal_key(whose: Who, g: Goal, left: usize) -> Key
    ensures { result ≡ goal_key whose g left }
{
    Key {
        who: key_of(whose),
        nesting: g.nesting.0,
        number: left,
        base: g.base,
    }
}

// The key of the verdict on a deed, by what a row means as the belief.
pub fn deed_key(d: Deed, row: usize) -> Key
    ensures { result ≡ deed_key d row }
{
    Key {
        who: d.who,
        nesting: d.nesting.0,
        number: d.action,
        base: row,
    }
}

// The place of the entry for an id and a key.
pub fn entry_at(p: Context, id: usize, k: Key) -> usize
    requires { Laid p × (id < 256) }
    ensures { (result ≡ entry_at p id k) × Place p.lists (facts_at p) 7 result }
{
    let h = id * 11 + k.who % 8 * 37 + k.number % 32 * 5 + k.nesting % 4;
    p.memory + STEPS + 2 * p.lists + 7 * remainder(h, p.lists)
}

// Whether an entry has a key.
pub fn keyed(work: &[u8], at: usize, k: Key) -> bool
    requires { at + 6 ≤ length work.now }
    ensures { (result ≡ true → key_at work.now at ≡ k)
        × (result ≡ false → ¬ (key_at work.now at ≡ k)) }
{
    usize::from(work[at + 1]) == k.who
        && usize::from(work[at + 2]) == k.nesting
        && usize::from(work[at + 3]) == k.number
        && usize::from(work[at + 4]) + 256 * usize::from(work[at + 5]) == k.base
}

// Whether a key's numbers fit their bytes.
pub fn storable(k: Key) -> bool
    ensures { (id : ℕ) → 0 < id → (result ≡ true → Storable id k) × (result ≡ false → ¬ Storable id k) }
{
    k.who < 256 && k.nesting < 256 && k.number < 256 && k.base < 65536
}

// The mark of what is known of the table in a slot by this key; 0 where nothing is. What the memory is handed and hands
// back is a mark and no `Known`: its promises hold of any byte.
pub fn recall(work: &mut [u8], p: Context, slot: usize, k: Key) -> u8
    requires { Before p work.old (slot_table p work.old slot) }
    ensures { Recalled p (slot_table p work.old slot) k work.old work.new result
        × (Roomy p work.old → Recalls p (slot_table p work.old slot) k work.old work.new result)
        × (Spent p work.old → FoundIn p work.old slot k result) }
{
    if in_cells(work, p) {
        return recall_cell(work, p, slot, k);
    }
    let Some(id) = id_of(work, p, slot) else {
        return 0;
    };
    let at = entry_at(p, id, k);
    if usize::from(work[at + 6]) != id || !keyed(work, at, k) {
        return 0;
    }
    work[at]
}

// Writes an entry's mark and key.
pub fn put_key(work: &mut [u8], at: usize, mark: u8, k: Key)
    requires { (at + 6 ≤ length work.old) × (k.who < 256) × (k.nesting < 256) × (k.number < 256)
        × (k.base < 65536) }
    ensures { KeyPut work.old work.new at mark k }
{
    work[at] = mark;
    work[at + 1] = k.who as u8;
    work[at + 2] = k.nesting as u8;
    work[at + 3] = k.number as u8;
    work[at + 4] = (k.base % 256) as u8;
    work[at + 5] = (k.base / 256) as u8;
}

// Puts down what is known of the table in a slot by this key, in the place of what stood there.
pub fn remember(work: &mut [u8], p: Context, slot: usize, mark: u8, k: Key)
    requires { Before p work.old (slot_table p work.old slot) }
    ensures { Remembered p (slot_table p work.old slot) mark k work.old work.new
        × Notes p (slot_table p work.old slot) mark k work.old work.new }
{
    let Some(id) = id_of(work, p, slot) else {
        return;
    };
    if storable(k) {
        let at = entry_at(p, id, k);
        put_key(work, at, mark, k);
        work[at + 6] = id as u8;
    }
}

// As `remember`, of what was found out since so many steps had been made: once there was no room it is put into a cell,
// and what took few steps is found out anew.
pub fn remember_worth(work: &mut [u8], p: Context, slot: usize, mark: u8, k: Key, since: usize)
    requires { Before p work.old (slot_table p work.old slot) × (since < 16777216) }
    ensures { Remembered p (slot_table p work.old slot) mark k work.old work.new
        × (Roomy p work.old → Notes p (slot_table p work.old slot) mark k work.old work.new) }
{
    if in_cells(work, p) {
        let made = steps_made(work, p);
        if made < since + WORTH {
            return;
        }
        return remember_cell(work, p, slot, mark, k, made - since);
    }
    remember(work, p, slot, mark, k)
}
