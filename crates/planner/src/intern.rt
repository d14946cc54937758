// A transposition table, behind the slots. Tables of states are interned in it: each is kept once, under a
// number that is its id, by which what is known of steps and of lists is found.
//
// An id is the number of the table's first block, from 1 on. Those of tables with the same hash stand on a chain, and a
// table is held byte for byte against each of them, so one that is kept is found under its id, and under no other.
// Where there is no room all is forgotten, and no table is interned from then on: what is known stands in cells then
// (`cell`). A state is handed on as the slot that its table stands in.
ghost use Rattle.std.specs.Prelude.{◌≡◌, true, false, ◌+◌, ◌*◌, ◌/◌, ◌%◌, ◌<◌, ◌≤◌, length, get_or};
ghost use Rattle.chart.specs.Call.{work_room};
ghost use Rattle.chart.specs.Laws.Sums.{sum_of};
ghost use Rattle.transition.specs.Duties.Stage.{scratch_at};
ghost use Rattle.planner.specs.Inner.Lists.{slot_table};
ghost use Rattle.planner.specs.Inner.Memory.{taken_at, head_at, links_at, slot_id, id_byte, Names};
ghost use Rattle.planner.specs.Inner.Memory.{Roomy, Before, Alike, Fits, FoundOn, Linked, Placed, Stored, Interning};
ghost use Rattle.planner.specs.Inner.Memory.{Identified, Spent};

use crate::limits::Context;
use crate::regions::{BLOCKS, ENOUGH, HEADS, LINKS, OVERFLOWED, SLOTS, TAKEN};
use chart::bytes::{self, clear, copy_part, same_part};
use pack::table::Table;
use transition::regions::NUMBERS;

// The table in a slot.
pub fn table_in(work: &[u8], p: Context, slot: usize) -> Table
    requires { (slot < length work.now) × (p.fluents + p.characters ≤ 30) }
    ensures { result ≡ slot_table p work.now slot }
{
    Table {
        rows: slot + 1,
        nodes: usize::from(work[slot]),
        fluents: p.fluents,
        characters: p.characters,
        width: p.fluents + p.characters,
    }
}

// Whether so much is kept that more is worth reckoning before a step is made: a search that ends sooner is quicker
// without. Nothing depends on it.
pub fn is_large(work: &[u8], p: Context) -> bool
    requires { (p.memory ≤ scratch_at) × (work_room ≤ length work.now) }
{
    has_overflowed(work, p) || ENOUGH <= usize::from(work[p.memory + TAKEN])
}

// Whether there was once no room, so that all has been forgotten. From then on a search keeps what is worth more than
// the room it takes. No answer depends on it.
pub fn has_overflowed(work: &[u8], p: Context) -> bool
    requires { (p.memory ≤ scratch_at) × (work_room ≤ length work.now) }
    ensures { (result ≡ true → ¬ Roomy p work.now) × (result ≡ false → Roomy p work.now) }
{
    0 < work[p.memory + OVERFLOWED]
}

// How many bytes the table in a slot takes, with its count.
pub fn extent(work: &[u8], p: Context, slot: usize) -> usize
    requires { Before p work.now (slot_table p work.now slot) }
    ensures { result ≡ 1 + get_or work.now slot 0 * (p.fluents + p.characters) }
{
    let n = usize::from(work[slot]);
    1 + n * (p.fluents + p.characters)
}

// Whether what is known stands in cells: since all was forgotten, and no table has been kept.
pub fn in_cells(work: &[u8], p: Context) -> bool
    requires { (p.memory ≤ scratch_at) × (work_room ≤ length work.now) }
    ensures { (result ≡ true → Spent p work.now) × (result ≡ false → ¬ Spent p work.now) }
{
    has_overflowed(work, p) && work[p.memory + TAKEN] == 0
}

// A number made of n bytes.
pub fn digest(work: &[u8], from: usize, n: usize) -> usize
    requires { from + n ≤ length work.now }
    ensures { (result ≡ sum_of 5 work.now from n) × (result < 4294967296) }
{
    bytes::digest::<5>(work, from, n)
}

// One below 127.
pub fn hash(work: &[u8], from: usize, n: usize) -> usize
    requires { from + n ≤ length work.now }
    ensures { result ≡ sum_of 5 work.now from n % 127 }
{
    digest(work, from, n) % 127
}

// The id that a byte keeps, if it keeps one.
pub fn id_in(byte: u8) -> Option<usize>
    ensures { Names result (λ n. n ≡ byte) }
{
    if byte == 0 {
        None
    } else {
        Some(usize::from(byte))
    }
}

// The byte that keeps it, 0 for none.
pub fn id_byte(id: Option<usize>) -> u8
    requires { id_byte id < 256 }
    ensures { result ≡ id_byte id }
{
    id.unwrap_or(0) as u8
}

// Whether a table is the one at the block of an id.
pub fn has_id(work: &[u8], p: Context, t: Table, id: usize) -> bool
    requires { Before p work.now t × (id < 256) }
    ensures { (result ≡ true → Alike p work.now t id)
        × (result ≡ false → ¬ Alike p work.now t id) }
{
    if id == 0 {
        return false;
    }
    let n = t.nodes * t.width;
    if p.block * usize::from(work[p.memory + TAKEN]) + p.block <= p.block * id + n {
        return false;
    }
    let at = p.tables - p.block + p.block * id;
    if usize::from(work[at]) != t.nodes {
        return false;
    }
    same_part(work, t.rows, at + 1, n)
}

// Puts a table behind those that are kept, where there is room, and names it.
pub fn store(work: &mut [u8], p: Context, t: Table) -> Option<usize>
    requires { Before p work.old t }
    ensures { Names result (λ id. (¬ Spent p work.old → Placed p t work.old work.new id)
        × (get_or work.old (taken_at p) 0 + t.nodes * t.width / p.block < 255 → 0 < id)) }
{
    let n = t.nodes * t.width;
    let taken = usize::from(work[p.memory + TAKEN]);
    let more = n / p.block + 1;
    if BLOCKS < taken + more {
        return None;
    }
    let at = p.tables + p.block * taken;
    work[at] = t.nodes as u8;
    copy_part(work, t.rows, at + 1, n);
    work[p.memory + TAKEN] = (taken + more) as u8;
    Some(taken + 1)
}

// The same; where there is no room, all is forgotten, and no table is kept from then on.
pub fn keep(work: &mut [u8], p: Context, t: Table) -> Option<usize>
    requires { Before p work.old t }
    ensures { Names result (λ id. Placed p t work.old work.new id × (Roomy p work.new → Fits p t → 0 < id)) }
{
    if has_overflowed(work, p) {
        return None;
    }
    if let Some(id) = store(work, p, t) {
        return Some(id);
    }
    clear(work, p.memory, NUMBERS - p.memory);
    work[p.memory + OVERFLOWED] = 1;
    None
}

// The head of the chain on which a table is looked for.
pub fn head_of(work: &[u8], p: Context, t: Table) -> usize
    requires { Before p work.now t }
    ensures { result ≡ head_at p work.now t.rows (t.nodes * t.width) }
{
    p.memory + HEADS + hash(work, t.rows, t.nodes * t.width)
}

// The id on the chain from a place on under which a table is kept, if it is. Links lead to lower ids, so it ends.
pub fn find(work: &[u8], p: Context, t: Table, at: usize) -> Option<usize>
    requires { Before p work.now t × (at < length work.now) }
    ensures { Names result (FoundOn p work.now t at) }
{
    let mut id = usize::from(work[at]);
    // The ids stand on a chain, so that no range has them.
    while 0 < id {
        if has_id(work, p, t, id) {
            return Some(id);
        }
        let next = usize::from(work[p.memory + LINKS + id]);
        if id <= next {
            return None;
        }
        id = next;
    }
    None
}

// Puts an id in front of the chain at a place.
pub fn link(work: &mut [u8], p: Context, at: usize, id: usize)
    requires { (p.memory ≤ scratch_at) × (work_room ≤ length work.old) × (at < links_at p) × (id < 256) }
    ensures { Linked p at id work.old work.new }
{
    work[p.memory + LINKS + id] = work[at];
    work[at] = id as u8;
}

// The id of a table, which is kept if it is not yet and there is room.
pub fn intern(work: &mut [u8], p: Context, t: Table) -> Option<usize>
    requires { Before p work.old t }
    ensures { Names result (λ id. Stored p t work.old work.new id × (Roomy p work.new → Fits p t → 0 < id)) }
{
    let at = head_of(work, p, t);
    if let Some(known) = find(work, p, t, at) {
        return Some(known);
    }
    let id = keep(work, p, t)?;
    link(work, p, at, id);
    Some(id)
}

// As `intern`, of the table in a slot, whose id is known from then on.
pub fn intern_slot(work: &mut [u8], p: Context, slot: usize) -> Option<usize>
    requires { Before p work.old (slot_table p work.old slot) }
    ensures { Names result (Interning p (slot_table p work.old slot) work.old work.new) }
{
    let t = table_in(work, p, slot);
    let id = intern(work, p, t);
    work[p.memory + (slot + 1) % SLOTS] = id_byte(id);
    id
}

// The same where the slot's id is not known yet. It mostly is, so the way there is short.
pub fn id_of(work: &mut [u8], p: Context, slot: usize) -> Option<usize>
    requires { Before p work.old (slot_table p work.old slot) }
    ensures { Names result (Identified p (slot_table p work.old slot) work.old work.new) }
{
    if let Some(known) = id_in(work[p.memory + (slot + 1) % SLOTS]) {
        return Some(known);
    }
    intern_slot(work, p, slot)
}
