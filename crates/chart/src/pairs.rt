// Pairs of rows met breadth first from one pair on, each once, until one is found whose rows have other values: the way
// back from there is the chain.
//
// Each pair is met once, with the entry that it was met from. The partition would not do here: it may need 62 levels
// over 64 rows. That a chain has at most 62 characters is proved and not tested for.
ghost use Rattle.std.specs.Prelude.{◌≡◌, ◌+◌, ◌*◌, ◌<◌, ◌≤◌, length, get_or};
ghost use Rattle.chart.specs.Duties.Numbers.{Sound};
ghost use Rattle.chart.specs.Duties.Level.{Agrees, SameByte};
ghost use Rattle.chart.specs.Duties.OfTable.{of_table};
ghost use Rattle.chart.specs.Inner.Pairs.{marks_at, met_at, mark_at, Paired, PairsIn, PairMet};
ghost use Rattle.chart.specs.Inner.Pairs.{FirstMet, Followed, Sought, Ways, Writable, LongWay, WayWritten};

use crate::bytes::{clear, first_other};
use pack::table::Table;

// A mark for each pair of 64 rows, and the pairs in the order in which they were met, five bytes each.
pub const MARKS: usize = 2048;

pub const MET: usize = 6144;

// Meets the pair of rows x and y, from entry `from` by character d, where `count` have been met: if it is new, it is
// marked, and an entry more. How many are met then.
pub fn meet(work: &mut [u8], count: usize, x: usize, y: usize, from: usize, d: usize) -> usize
    requires small { (x < 64) × (y < 64) × (from < 65536) × (d < 256) × (met_at ≤ length work.old) }
    requires room { mark_at work.old marks_at x y ≡ 0 → met_at + count * 5 + 5 ≤ length work.old }
    ensures { PairMet work.old work.new marks_at met_at count x y from d result }
{
    let mark = MARKS + x * 64 + y;
    if work[mark] != 0 {
        return count;
    }
    work[mark] = 1;
    let a = MET + count * 5;
    let [high, low] = (from as u16).to_be_bytes();
    // Five writes are quicker than one copy of an array of five.
    work[a] = x as u8;
    work[a + 1] = y as u8;
    work[a + 2] = high;
    work[a + 3] = low;
    work[a + 4] = d as u8;
    count + 1
}

// The entry that the one from a on was met from.
pub fn met_from(work: &[u8], a: usize) -> usize
    requires { a + 5 ≤ length work.now }
    ensures { result ≡ get_or work.now (a + 2) 0 * 256 + get_or work.now (a + 3) 0 }
{
    usize::from(u16::from_be_bytes([work[a + 2], work[a + 3]]))
}

// Meets the pair of rows x and y, where none is met yet.
pub fn meet_first(work: &mut [u8], x: usize, y: usize)
    requires { (x < 64) × (y < 64) × (met_at + 5 ≤ length work.old) }
    ensures { FirstMet work.old work.new marks_at met_at x y }
{
    clear(work, MARKS, 4096);
    meet(work, 0, x, y, 0, 0);
}

// Meets the pairs that the characters lead to from that of entry `done`, where `count` have been met; how many are met
// then.
pub fn meet_beliefs(work: &mut [u8], t: Table, done: usize, count: usize) -> usize
    requires paired { of_table (Paired work.old) t marks_at met_at × of_table (Sound work.old) t × (done < count) }
    requires pairs_in { of_table (PairsIn work.old) t marks_at met_at count done 0 }
    ensures { of_table (Followed work.old work.new) t marks_at met_at done count result }
{
    let e = MET + done * 5;
    let a = t.rows + usize::from(work[e]) * t.width + t.fluents;
    let b = t.rows + usize::from(work[e + 1]) * t.width + t.fluents;
    let mut met = count;
    for d in 0..t.characters {
        let x = usize::from(work[a + d]);
        let y = usize::from(work[b + d]);
        met = meet(work, met, x, y, done, d);
    }
    met
}

// The first of the values that is another in the two rows of the entry from e on.
pub fn other_value(work: &[u8], t: Table, e: usize) -> Option<usize>
    requires { (e + 2 ≤ length work.now)
        × (t.rows + get_or work.now e 0 * t.width + t.fluents ≤ length work.now)
        × (t.rows + get_or work.now (e + 1) 0 * t.width + t.fluents ≤ length work.now) }
    ensures { Agrees (SameByte work.now (t.rows + get_or work.now e 0 * t.width)
        (t.rows + get_or work.now (e + 1) 0 * t.width)) t.fluents result }
{
    let x = usize::from(work[e]);
    let y = usize::from(work[e + 1]);
    first_other(work, t.rows + x * t.width, t.rows + y * t.width, t.fluents)
}

// Goes through the pairs in the order met, and meets those that they lead to, up to the first whose rows have other
// values: its entry, and the first value that is another in them.
pub fn seek(work: &mut [u8], t: Table) -> Option<(usize, usize)>
    requires paired { of_table (Paired work.old) t marks_at met_at × of_table (Sound work.old) t }
    requires pairs_in { of_table (PairsIn work.old) t marks_at met_at 1 0 0 }
    ensures { of_table (Sought work.old work.new) t marks_at met_at result }
{
    let mut count = 1;
    let mut done = 0;
    // `count` grows as pairs are followed, so that no range has the end.
    while done < count {
        if let Some(fluent) = other_value(work, t, MET + done * 5) {
            return Some((done, fluent));
        }
        count = meet_beliefs(work, t, done, count);
        done += 1;
    }
    None
}

// How many characters lead to entry e.
pub fn way_length(work: &[u8], e: usize) -> usize
    requires { Ways work.now met_at e }
    ensures { LongWay work.now met_at e result }
{
    let mut at = e;
    let mut k = 0;
    // The way back is followed to the first pair, entry 0.
    while at != 0 {
        at = met_from(work, MET + at * 5);
        k += 1;
    }
    k
}

// Writes the k characters that lead to entry e.
pub fn write_way(work: &[u8], e: usize, k: usize, chain: &mut [u8])
    requires ways { Ways work.now met_at e }
    requires long_way { LongWay work.now met_at e k × (k ≤ length chain.old) }
    ensures { WayWritten work.now chain.old chain.new met_at e k }
{
    let mut at = e;
    for i in (0..k).rev() {
        chain[i] = work[MET + at * 5 + 4];
        at = met_from(work, MET + at * 5);
    }
}

// Writes the chain that leads to entry e; its length.
pub fn write_chain(work: &[u8], e: usize, chain: &mut [u8]) -> usize
    requires { Writable work.now chain.old met_at e }
    ensures { LongWay work.now met_at e result × WayWritten work.now chain.old chain.new met_at e result }
{
    let k = way_length(work, e);
    write_way(work, e, k, chain);
    k
}
