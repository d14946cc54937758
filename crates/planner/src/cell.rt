// What is known once there was no room for all of it: cells of one size in the place of the tables and entries of
// before, four to a bucket.
//
// A cell holds one thing that is known, with the table that it is known of, so nothing points at it and another may be
// put in its place at any time: of a bucket the one goes that took the fewest steps to find out, and where all took
// more than the new one, the rank of the lowest falls. A table is held byte for byte against the one in a cell, so what
// is known of a state is found exactly where it stands.
ghost use Rattle.std.specs.Prelude.{◌≡◌, true, false, ◌⊎◌, ℕ, ◌+◌, ◌*◌, ◌<◌, ◌≤◌, length, get_or};
ghost use Rattle.chart.specs.Call.{work_room};
ghost use Rattle.transition.specs.Duties.Stage.{scratch_at};
ghost use Rattle.planner.specs.Inner.Lists.{slot_table};
ghost use Rattle.planner.specs.Inner.Memory.{Laid, Before, Spent, cell_size, Bucket, CellIn, bucket_at};
ghost use Rattle.planner.specs.Inner.Memory.{rank_at, Holds, FoundIn, CellPut, CellKept, Remembered};

use crate::entry::{Key, keyed, put_key, storable};
use crate::intern::{digest, extent};
use crate::limits::Context;
use crate::regions::{ROWS, STEPS, WAYS};
use chart::bytes::{copy_part, same_part};
use transition::regions::NUMBERS;

// How many bytes a cell takes: a mark and its key, a rank, and a table of few rows with its count.
pub fn cell_size(p: Context) -> usize
    requires { p.fluents + p.characters ≤ 30 }
    ensures { result ≡ cell_size p }
{
    8 + ROWS * (p.fluents + p.characters)
}

// Where the bucket begins in which something known of the table in a slot, by a key, would stand.
pub fn bucket_at(work: &[u8], p: Context, slot: usize, k: Key) -> usize
    requires { Before p work.now (slot_table p work.now slot) }
    ensures { (result ≡ bucket_at p work.now slot k) × Bucket p result }
{
    let size = WAYS * cell_size(p);
    let base = p.memory + STEPS;
    let buckets = (NUMBERS - base) / size;
    let h = digest(work, slot, extent(work, p, slot))
        + k.who % 8 * 37
        + k.number % 32 * 5
        + k.nesting % 4;
    base + size * (h % buckets)
}

// Whether a cell holds what is known of the table in a slot by a key.
pub fn cell_has(work: &[u8], p: Context, slot: usize, at: usize, k: Key) -> bool
    requires { Before p work.now (slot_table p work.now slot) × (at + cell_size p ≤ scratch_at) }
    ensures { (result ≡ true → Holds p work.now slot at k)
        × (result ≡ false → ¬ Holds p work.now slot at k) }
{
    if work[at] == 0 || !keyed(work, at, k) {
        return false;
    }
    let n = extent(work, p, slot);
    same_part(work, slot, at + 7, n)
}

// The mark of what is known of the table in a slot by a key, where a cell of its bucket holds it; else 0.
pub fn recall_cell(work: &[u8], p: Context, slot: usize, k: Key) -> u8
    requires { Before p work.now (slot_table p work.now slot) }
    ensures { FoundIn p work.now slot k result }
{
    let first = bucket_at(work, p, slot, k);
    let size = cell_size(p);
    for i in 0..WAYS {
        let at = first + i * size;
        if cell_has(work, p, slot, at, k) {
            return work[at];
        }
    }
    0
}

// Which of two cells has the lower rank.
pub fn lower(work: &[u8], a: usize, b: usize) -> usize
    requires { (a + 7 ≤ length work.now) × (b + 7 ≤ length work.now) }
    ensures { ((result ≡ a) ⊎ (result ≡ b)) × (rank_at work.now result ≤ rank_at work.now a)
        × (rank_at work.now result ≤ rank_at work.now b) }
{
    if work[b + 6] < work[a + 6] { b } else { a }
}

// Which of a bucket's cells has the lowest.
pub fn lowest(work: &[u8], p: Context, first: usize) -> usize
    requires { Laid p × Bucket p first × (work_room ≤ length work.now) }
    ensures { CellIn p first result
        × ((i : ℕ) → i < 4
        → rank_at work.now result ≤ rank_at work.now (first + i * cell_size p)) }
{
    let size = cell_size(p);
    let one = lower(work, first, first + size);
    let other = lower(work, first + 2 * size, first + 3 * size);
    lower(work, one, other)
}

// The rank of what took so many steps to find out: how many bits that number has.
pub fn rank_of(steps: usize) -> u8 {
    if steps == 0 {
        0
    } else {
        (steps.ilog2() + 1) as u8
    }
}

// Puts what is known of the table in a slot into a cell.
pub fn put_cell(work: &mut [u8], p: Context, slot: usize, at: usize, mark: u8, k: Key, rank: u8)
    requires { Before p work.old (slot_table p work.old slot) × (at + cell_size p ≤ scratch_at)
        × (get_or work.old slot 0 ≤ 6) × (p.memory ≤ at) × (k.who < 256) × (k.nesting < 256) × (k.number < 256)
        × (k.base < 65536) }
    ensures { CellPut p slot at mark k work.old work.new }
{
    put_key(work, at, mark, k);
    work[at + 6] = rank;
    let n = extent(work, p, slot);
    copy_part(work, slot, at + 7, n);
}

// Puts it down, unless all that its bucket holds took longer to find out: then the rank of the lowest falls.
pub fn remember_cell(work: &mut [u8], p: Context, slot: usize, mark: u8, k: Key, steps: usize)
    requires { Before p work.old (slot_table p work.old slot) × Spent p work.old }
    ensures { Remembered p (slot_table p work.old slot) mark k work.old work.new
        × CellKept p slot mark k work.old work.new }
{
    if ROWS < usize::from(work[slot]) || !storable(k) {
        return;
    }
    let first = bucket_at(work, p, slot, k);
    let at = lowest(work, p, first);
    let rank = rank_of(steps);
    let old = work[at + 6];
    if rank < old {
        work[at + 6] = old - 1;
        return;
    }
    put_cell(work, p, slot, at, mark, k, rank)
}
