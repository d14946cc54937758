// The first level of the partition: rows of equal values get one class, found by a hash of the values.
//
// A row is held against the classes of its hash only. Nothing is proved of how the hashes spread.
ghost use Rattle.std.specs.Prelude.{◌≡◌, ◌+◌, ◌<◌, ◌≤◌, length, get_or};
ghost use Rattle.chart.specs.Duties.Level.{Found, SameValues, Levels};
ghost use Rattle.chart.specs.Inner.Values.{hash_of, Chain, Chained, Valuable, RowValued, Valued};
ghost use Rattle.chart.specs.Duties.OfTable.{of_table, of_values, in_regions, first_of};

use crate::bytes::{digest, same_part};
use pack::table::Table;

// How many hashes there are: 2 is a primitive root of that prime, so that no value is lost.
const HASHES: usize = 131;

// Where the classes stand in the work buffer: those of the level that is made, those so far, and the first row of each.
#[derive(Clone, Copy)]
pub struct Regions {
    pub level: usize,
    pub classes: usize,
    pub firsts: usize,
}

// The hash of the f bytes from a on, which is below 131: where all bytes are the same, so is the hash.
pub fn value_hash(work: &[u8], a: usize, f: usize) -> usize
    requires { a + f ≤ length work.now }
    ensures { (result ≡ hash_of work.now a f) × (result < 131) }
{
    digest::<2>(work, a, f) % HASHES
}

// The class, of `count`, whose leading row has the values of row i. Only those of row i's hash are looked at, of which
// `last` is the last one's number plus 1, and from `g.level` on stands such a number for the one before each.
pub fn value_class(
    work: &[u8],
    t: Table,
    g: Regions,
    i: usize,
    count: usize,
    last: usize,
) -> Option<usize>
    requires { of_values (Chain work.now) t g.level g.firsts i count last }
    ensures { Found (of_values (SameValues work.now) t) (first_of work.now g) count i result }
{
    let mut next = last;
    // The classes stand on a chain, so that no range has them.
    while let Some(p) = next.checked_sub(1) {
        let j = usize::from(work[g.firsts + p]);
        if same_part(work, t.rows + j * t.width, t.rows + i * t.width, t.fluents) {
            return Some(p);
        }
        next = usize::from(work[g.level + p]);
    }
    None
}

// Classes row i by its values: by the class whose leading row has them, or as the leading row of a new class; how many
// classes there are then.
pub fn value_row(
    work: &mut [u8],
    heads: &mut [u8],
    t: Table,
    g: Regions,
    i: usize,
    count: usize,
) -> usize
    requires valuable { in_regions (of_values (Valuable work.old t.nodes) t) g i count }
    requires chained { of_values (Chained work.old heads.old) t g.level g.firsts count }
    ensures { in_regions (of_values (RowValued work.old work.new heads.new) t) g i count result }
{
    let b = value_hash(work, t.rows + i * t.width, t.fluents);
    let last = heads[b];
    if let Some(q) = value_class(work, t, g, i, count, usize::from(last)) {
        work[g.classes + i] = q as u8;
        return count;
    }
    work[g.classes + i] = count as u8;
    work[g.firsts + count] = i as u8;
    work[g.level + count] = last;
    heads[b] = (count + 1) as u8;
    count + 1
}

// Classes the rows of a table by their values, from `g.classes` on; how many classes there are.
pub fn value_level(work: &mut [u8], t: Table, g: Regions) -> usize
    requires { in_regions (of_table (Levels work.old) t) g }
    ensures { in_regions (of_values (Valued work.old work.new t.nodes) t) g result }
{
    let mut heads = [0u8; HASHES];
    let mut count = 0;
    for i in 0..t.nodes {
        count = value_row(work, &mut heads, t, g, i, count);
    }
    count
}
