// The pass that copies the rows of a table that a row reaches, in the order met breadth first.
ghost use Rattle.std.specs.Prelude.{◌<◌};
ghost use Rattle.chart.specs.Duties.Numbers.{Numbering, RowCopied, Laid, Sound, Copied};
ghost use Rattle.chart.specs.Duties.OfTable.{of_table};

use crate::bytes::{clear, copy_part};
use crate::numbering::{more, name_beliefs, number_of};
use pack::table::Table;

// Fills row i, of the rows from t on: the values and the beliefs of the row of the table s that number i was given to.
pub fn fill_row(work: &mut [u8], s: Table, m: usize, t: usize, i: usize, count: usize) -> usize
    requires laid { of_table (Laid work.old) s m t × of_table (Sound work.old) s }
    requires numbering { Numbering work.old m s.nodes count × (i < count) }
    ensures { of_table (RowCopied work.old work.new) s m t i count result }
{
    let x = usize::from(work[m + s.nodes + i]);
    let from = s.rows + x * s.width;
    let to = t + i * s.width;
    copy_part(work, from, to, s.fluents + s.characters);
    name_beliefs(work, m, s.nodes, to + s.fluents, s.characters, count)
}

// Copies what can be reached from a row of the table s to t, in the order met breadth first; how many rows that is.
pub fn copy_reachable(work: &mut [u8], s: Table, m: usize, t: usize, root: usize) -> usize
    requires { of_table (Laid work.old) s m t × of_table (Sound work.old) s × (root < s.nodes) }
    ensures { of_table (Copied work.old work.new) s m t root result }
{
    clear(work, m, s.nodes);
    let first = number_of(work, m, s.nodes, 0, root);
    let mut count = more(0, first);
    let mut i = 0;
    // `count` grows as rows are filled, so that no range has the end.
    while i < count {
        count = fill_row(work, s, m, t, i, count);
        i += 1;
    }
    count
}
