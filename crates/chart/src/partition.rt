// The partition: rows that mean the same get one class. Classes of equal values come first (values.rt); here they are
// refined level by level.
//
// The old classes and the new ones are kept, a byte a row. Levels behind the first compare classes alone, from a row's
// old class on.
ghost use Rattle.std.specs.Prelude.{◌≡◌, ℕ, ◌+◌, ◌*◌, ◌<◌, ◌≤◌, length, get_or};
ghost use Rattle.std.specs.Bool.{Decides};
ghost use Rattle.chart.specs.Chart.{Ordered};
ghost use Rattle.pack.specs.Duties.Table.{table_of};
ghost use Rattle.chart.specs.Duties.Numbers.{Sound};
ghost use Rattle.chart.specs.Duties.Level.{Found, SameValues, SameClass, Alike};
ghost use Rattle.chart.specs.Duties.Level.{RowOk, Against, Levels, Finer, RowClassed, Leveled, Parted};
ghost use Rattle.chart.specs.Duties.OfTable.{of_table, of_rows, of_values, in_regions, first_of};

use crate::bytes::copy_part;
use crate::values::{Regions, value_level};
use pack::table::Table;

// Whether the beliefs of each of the c characters, from a on and from b on, are of one class. The classes stand from k
// on. A loop of its own beside `first_other`: a closure that takes a place to what is compared there is no shorter.
pub fn same_classes(work: &[u8], a: usize, b: usize, c: usize, k: usize) -> bool
    requires rows { (a + c ≤ length work.now) × (b + c ≤ length work.now) }
    requires numbers { (d : ℕ) → d < c
        → (k + get_or work.now (a + d) 0 < length work.now) × (k + get_or work.now (b + d) 0 < length work.now) }
    ensures { Decides result ((d : ℕ) → d < c → SameClass work.now a b k d) }
{
    for d in 0..c {
        let x = usize::from(work[a + d]);
        let y = usize::from(work[b + d]);
        if work[k + x] != work[k + y] {
            return false;
        }
    }
    true
}

// Whether rows i and j are alike, where classes stand from k on. Rows of different classes never are, so that is asked
// first; those of one class have the same values.
pub fn alike(work: &[u8], t: Table, k: usize, i: usize, j: usize) -> bool
    requires rows { (t.fluents + t.characters ≤ t.width) × of_rows (RowOk work.now) t k i
        × of_rows (RowOk work.now) t k j }
    requires finer { of_rows (Alike work.now) t k i j → get_or work.now (k + i) 0 ≡ get_or work.now (k + j) 0 }
    requires valued { get_or work.now (k + i) 0 ≡ get_or work.now (k + j) 0 → of_values (SameValues work.now) t i j }
    ensures { Decides result (of_rows (Alike work.now) t k i j) }
{
    if work[k + i] != work[k + j] {
        return false;
    }
    let a = t.rows + i * t.width + t.fluents;
    let b = t.rows + j * t.width + t.fluents;
    same_classes(work, a, b, t.characters, k)
}

// The first of `count` classes whose leading row is alike to row i. No class below row i's old one has such a row.
pub fn class_of(work: &[u8], t: Table, g: Regions, i: usize, count: usize) -> Option<usize>
    requires { of_rows (Against work.now) t g.classes g.firsts count i }
    ensures { Found (of_rows (Alike work.now) t g.classes) (first_of work.now g) count i result }
{
    for q in usize::from(work[g.classes + i])..count {
        let j = usize::from(work[g.firsts + q]);
        if alike(work, t, g.classes, j, i) {
            return Some(q);
        }
    }
    None
}

// Classes row i: by the class whose leading row is alike, or as the leading row of a new class; how many classes there
// are then.
pub fn class_row(work: &mut [u8], t: Table, g: Regions, i: usize, count: usize) -> usize
    requires room { (g.level + i + 1 ≤ g.firsts) × (g.firsts + count < length work.old)
        × (i < 256) × (count < 256) }
    requires against { of_rows (Against work.old) t g.classes g.firsts count i }
    ensures { in_regions (of_rows (RowClassed work.old work.new) t) g i count result }
{
    if let Some(q) = class_of(work, t, g, i, count) {
        work[g.level + i] = q as u8;
        return count;
    }
    work[g.level + i] = count as u8;
    work[g.firsts + count] = i as u8;
    count + 1
}

// Classes the rows of a table by the old classes, which are of equal values, and by those of what they believe: the new
// classes stand from `g.level` on. How many there are.
pub fn level(work: &mut [u8], t: Table, g: Regions) -> usize
    requires levels { in_regions (of_table (Levels work.old) t) g × of_table (Sound work.old) t }
    requires finer { of_table (Finer work.old) t g.classes }
    ensures { in_regions (of_table (Leveled work.old work.new) t) g result }
{
    let mut count = 0;
    for i in 0..t.nodes {
        count = class_row(work, t, g, i, count);
    }
    count
}

// Classes the rows of a table by what they mean, from `g.classes` on, where that takes at most `limit` classes: by
// values, then level by level, until each row is a class of its own or a level has no more classes than the one before.
// How many there are; more than `limit` where the rows mean more states than that.
pub fn partition(work: &mut [u8], t: Table, g: Regions, limit: usize) -> usize
    requires levels { in_regions (of_table (Levels work.old) t) g × (0 < t.nodes) × (1 ≤ limit) }
    requires ordered { Ordered t.characters (table_of t work.old) }
    ensures { in_regions (of_table (Parted work.old work.new) t) g limit result }
{
    let mut count = value_level(work, t, g);
    if limit < count {
        return count;
    }
    // How many levels it takes is known at the end only.
    while count < t.nodes {
        let next = level(work, t, g);
        if limit < next {
            return next;
        }
        if next <= count {
            return count;
        }
        copy_part(work, g.level, g.classes, t.nodes);
        count = next;
    }
    count
}
