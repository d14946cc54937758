// The merged table: a row for each class of rows that mean the same.
ghost use Rattle.std.specs.Prelude.{ℕ, ◌+◌, ◌<◌, ◌≤◌, length, get_or};
ghost use Rattle.chart.specs.Duties.Numbers.{Sound};
ghost use Rattle.chart.specs.Duties.Classed.{Mapped, RowPut, ClassPut, Room, Classed, WrittenOut};
ghost use Rattle.chart.specs.Duties.OfTable.{of_table, of_rows};

use crate::bytes::copy_part;
use pack::table::Table;

// Writes the classes of the c rows that stand from `from` on, from `to` on.
pub fn map_part(work: &mut [u8], from: usize, to: usize, k: usize, c: usize)
    requires room { (from + c ≤ to) × (to + c ≤ length work.old) }
    requires below { (d : ℕ) → d < c → k + get_or work.old (from + d) 0 < to }
    ensures { Mapped work.old work.new from to k c }
{
    for d in 0..c {
        work[to + d] = work[k + usize::from(work[from + d])];
    }
}

// Writes the row from `from` on, its beliefs by class, from `to` on.
pub fn put_mapped(work: &mut [u8], from: usize, to: usize, k: usize, f: usize, c: usize)
    requires room { (from + f + c ≤ k) × (k ≤ to) × (to + f + c ≤ length work.old) }
    requires below { (d : ℕ) → d < c → k + get_or work.old (from + f + d) 0 < to }
    ensures { RowPut work.old work.new from to k f c }
{
    copy_part(work, from, to, f);
    map_part(work, from + f, to + f, k, c)
}

// Writes row i of a table if its class is new, where `count` classes have been; how many have been then.
pub fn write_class(work: &mut [u8], t: Table, k: usize, u: usize, i: usize, count: usize) -> usize
    requires room { of_table (Room work.old) t k u }
    requires sound { of_table (Sound work.old) t }
    requires within { (i < t.nodes) × (count < t.nodes) }
    ensures { of_rows (ClassPut work.old work.new) t k u i count result }
{
    if usize::from(work[k + i]) < count {
        return count;
    }
    let from = t.rows + i * t.width;
    let to = u + count * t.width;
    put_mapped(work, from, to, k, t.fluents, t.characters);
    count + 1
}

// Writes the merged table of a table, the classes of whose rows stand from k on, from u on; how many rows that is.
pub fn write_merged(work: &mut [u8], t: Table, k: usize, u: usize) -> usize
    requires room { of_table (Room work.old) t k u }
    requires classed { of_table (Classed work.old) t k }
    ensures { of_table (WrittenOut work.old work.new) t u result }
{
    let mut count = 0;
    for i in 0..t.nodes {
        count = write_class(work, t, k, u, i, count);
    }
    count
}
