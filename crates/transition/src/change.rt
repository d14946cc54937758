// The pass that makes a table of what happens in another. A row of the new table stands for one of three: a row that
// took part; what a character believes in a row that took part and told it something; a row as it was. Each has a slot,
// seven a row of the old table, by which it is numbered when it is met.
//
// Seven slots for each row: one for each character that it tells something, one for having taken part, one as it was.
// So 7 x 32 + 1 are enough and a number is one byte. The last slot is the root's where every character is told
// something; else the root is numbered as any row that took part (`first_slot`).
//
// What a row is made of is told first (`made_of`), so that one call writes rows of all three kinds, and what is told
// besides is one test.
ghost use Rattle.std.specs.Prelude.{◌≡◌, false, List, ◌≢◌, ℕ, ◌+◌, ◌*◌, ◌<◌, ◌≤◌, length};
ghost use Rattle.chart.specs.Duties.Numbers.{Numbering, key_at};
ghost use Rattle.transition.specs.Laws.Changed.{acted, old, There};
ghost use Rattle.transition.specs.Duties.Cause.{Tabled};
ghost use Rattle.transition.specs.Duties.Stage.{scratch_at, made_at};
ghost use Rattle.transition.specs.Inner.Change.{Scene, Stands, Scened, InScene, Seen, believed};
ghost use Rattle.transition.specs.Inner.Change.{row_after, member_of, Sourced, SlotIs, SlotsPut};
ghost use Rattle.transition.specs.Inner.Change.{RowRoom, Puts, Laid, RowMade, ChangeMade};

use crate::cause::{takes, tells, write_told};
use crate::regions::{MADE, NUMBERS};
use chart::bytes::{clear, copy_part};
use chart::numbering::{more, name_beliefs, number_of};
use pack::table::Table;

// A number that no slot of a row has, for `acted` and `old`: numbers, since slots are reckoned from them and compared
// with them in every row.
pub const NO_SLOT: usize = 7;

// The table in which it happens; which of a row's seven slots stand for the row having taken part and for the row as it
// was, the others being its characters'; where the observation conditions are; and the row in which it happens.
#[derive(Clone, Copy)]
pub struct Change {
    pub table: Table,
    pub acted: usize,
    pub old: usize,
    pub observed: usize,
    pub root: usize,
}

// The slot of what character d believes in row m, which took part.
pub fn slot_of(
    pack: &[u8],
    places: &[u16],
    effects: &[u16],
    h: Change,
    work: &[u8],
    m: usize,
    d: usize,
) -> usize
    requires { Scened pack.now places.now effects.now h work.now × (m < h.table.nodes)
        × (d < h.table.characters) }
    ensures { InScene pack.now places.now effects.now h work.now
        (λ s. SlotIs h h.table.nodes (believed s h.table.characters m d) result) }
{
    let t = h.table;
    if tells(pack, effects[m] as usize, d + 1) {
        return m * 7 + d;
    }
    let q = t.belief(work, m, d);
    if takes(pack, places, h.observed, work, t, m, d) {
        q * 7 + h.acted
    } else {
        q * 7 + h.old
    }
}

// Writes the slots of what the characters believe in row m, which took part.
pub fn put_slots(
    pack: &[u8],
    places: &[u16],
    effects: &[u16],
    h: Change,
    work: &mut [u8],
    m: usize,
    to: usize,
)
    requires { Scened pack.now places.now effects.now h work.old × (m < h.table.nodes)
        × (h.table.rows + h.table.nodes * h.table.width ≤ to)
        × (to + h.table.characters ≤ length work.old) }
    ensures { InScene pack.now places.now effects.now h work.old
        (λ s. SlotsPut h h.table.nodes h.table.characters (believed s h.table.characters m)
        work.old work.new to) }
{
    for d in 0..h.table.characters {
        let x = slot_of(pack, places, effects, h, work, m, d);
        work[to + d] = x as u8;
    }
}

// Writes row m as it is after taking part, its beliefs by slots.
pub fn put_acted(
    pack: &[u8],
    places: &[u16],
    effects: &[u16],
    h: Change,
    work: &mut [u8],
    m: usize,
    to: usize,
)
    requires { Scened pack.now places.now effects.now h work.old × (m < h.table.nodes)
        × RowRoom work.old h.table to }
    ensures { InScene pack.now places.now effects.now h work.old
        (λ s. Puts s h h.table (acted m) work.old work.new to) }
{
    let t = h.table;
    let from = t.rows + m * t.width;
    copy_part(work, from, to, t.fluents);
    write_told(pack, effects[m] as usize, 0, work, to, t.fluents);
    put_slots(pack, places, effects, h, work, m, to + t.fluents)
}

// Writes row m as it was, its beliefs by slots.
pub fn put_old(h: Change, work: &mut [u8], m: usize, to: usize)
    requires { Seen work.old h.table × (m < h.table.nodes) × (h.old < 7)
        × RowRoom work.old h.table to }
    ensures { (s : Scene) → Tabled s.dimensions s.table work.old h.table
        → Puts s h h.table (old m) work.old work.new to }
{
    let t = h.table;
    let from = t.rows + m * t.width;
    copy_part(work, from, to, t.fluents);
    for d in 0..t.characters {
        let q = t.belief(work, m, d);
        work[to + t.fluents + d] = (q * 7 + h.old) as u8;
    }
}

// Of which row a slot's row is made, and whether that one took part; and whether it is told something besides. No enum:
// either kind of row may be told something.
#[derive(Clone, Copy)]
pub struct Source {
    pub row: usize,
    pub took: bool,
    pub told: bool,
}

// What a slot's row is made of. The last slot is that of the root having taken part, where no other is.
pub fn made_of(pack: &[u8], places: &[u16], h: Change, work: &[u8], slot: usize) -> Source
    requires { ((effects : List ℕ) × Scened pack.now places.now effects h work.now)
        × (slot < h.table.nodes * 7 + 1) × There h.table.characters (member_of h h.table.nodes slot) }
    ensures { (s : Scene) (effects : List ℕ)
        → Stands s pack.now places.now effects h work.now h.table
        → Sourced s h h.table slot result }
{
    let t = h.table;
    let m = slot / 7;
    let kind = slot % 7;
    if m == t.nodes {
        Source {
            row: h.root,
            took: true,
            told: false,
        }
    } else if kind == h.old {
        Source {
            row: m,
            took: false,
            told: false,
        }
    } else if kind == h.acted {
        Source {
            row: m,
            took: true,
            told: false,
        }
    } else {
        let row = t.belief(work, m, kind);
        let took = takes(pack, places, h.observed, work, t, m, kind);
        Source {
            row,
            took,
            told: true,
        }
    }
}

// Writes the row that another is made of, having taken part or as it was.
pub fn put_row(
    pack: &[u8],
    places: &[u16],
    effects: &[u16],
    h: Change,
    work: &mut [u8],
    s: Source,
    to: usize,
)
    requires { Scened pack.now places.now effects.now h work.old × (s.row < h.table.nodes)
        × (s.took ≡ false → h.old < 7) × RowRoom work.old h.table to }
    ensures { InScene pack.now places.now effects.now h work.old
        (λ z. Puts z h h.table (row_after s.row s.took) work.old work.new to) }
{
    if s.took {
        put_acted(pack, places, effects, h, work, s.row, to)
    } else {
        put_old(h, work, s.row, to)
    }
}

// Writes the row of a slot.
pub fn put_member(
    pack: &[u8],
    places: &[u16],
    effects: &[u16],
    h: Change,
    work: &mut [u8],
    slot: usize,
    to: usize,
)
    requires { Scened pack.now places.now effects.now h work.old × (slot < h.table.nodes * 7 + 1)
        × There h.table.characters (member_of h h.table.nodes slot) × RowRoom work.old h.table to }
    ensures { InScene pack.now places.now effects.now h work.old
        (λ s. Puts s h h.table (member_of h h.table.nodes slot) work.old work.new to) }
{
    let from = made_of(pack, places, h, work, slot);
    put_row(pack, places, effects, h, work, from, to);
    if from.told {
        let at = effects[slot / 7] as usize;
        write_told(pack, at, slot % 7 + 1, work, to, h.table.fluents)
    }
}

// Fills row i of those that are made: what slot number i was given to.
pub fn change_row(
    pack: &[u8],
    places: &[u16],
    effects: &[u16],
    h: Change,
    work: &mut [u8],
    i: usize,
    count: usize,
) -> usize
    requires scened { Scened pack.now places.now effects.now h work.old
        × Laid work.old h.table scratch_at made_at }
    requires numbering { Numbering work.old scratch_at (h.table.nodes * 7 + 1) count × (i < count)
        × There h.table.characters
        (member_of h h.table.nodes (key_at work.old scratch_at (h.table.nodes * 7 + 1) i)) }
    ensures { InScene pack.now places.now effects.now h work.old
        (λ s. RowMade s h h.table work.old work.new scratch_at made_at i count result) }
{
    let t = h.table;
    let size = t.nodes * 7 + 1;
    let slot = usize::from(work[NUMBERS + size + i]);
    let to = MADE + i * t.width;
    put_member(pack, places, effects, h, work, slot, to);
    name_beliefs(work, NUMBERS, size, to + t.fluents, t.characters, count)
}

// The slot of the root having taken part: as of any row, or the last where rows have none for that.
pub fn first_slot(h: Change, nodes: usize) -> usize
    requires { (nodes ≤ 32) × (h.root < nodes) × (h.acted < 7 → h.acted ≢ h.old) }
    ensures { SlotIs h nodes (acted h.root) result }
{
    if h.acted < 7 {
        h.root * 7 + h.acted
    } else {
        nodes * 7
    }
}

// Makes the table of what happens; how many rows that is.
pub fn change_table(
    pack: &[u8],
    places: &[u16],
    effects: &[u16],
    h: Change,
    work: &mut [u8],
) -> usize
    requires { Scened pack.now places.now effects.now h work.old
        × Laid work.old h.table scratch_at made_at }
    ensures { InScene pack.now places.now effects.now h work.old
        (λ s. ChangeMade s h h.table work.old work.new scratch_at made_at result) }
{
    let nodes = h.table.nodes;
    let size = nodes * 7 + 1;
    clear(work, NUMBERS, size);
    let first = first_slot(h, nodes);
    let root = number_of(work, NUMBERS, size, 0, first);
    let mut count = more(0, root);
    let mut i = 0;
    // The rows that are made grow while they are walked.
    while i < count {
        count = change_row(pack, places, effects, h, work, i, count);
        i += 1;
    }
    count
}
