// Rows put from one buffer into another, a number added to each belief and one taken away: so a table is written out as
// a chart's bytes, where a belief is a row's number plus 1.
ghost use Rattle.std.specs.Prelude.{◌≡◌, ℕ, ◌+◌, ◌*◌, ◌<◌, ◌≤◌, length, set};
ghost use Rattle.chart.specs.Duties.Numbers.{Sound};
ghost use Rattle.chart.specs.Duties.OfTable.{of_rows, of_table};
ghost use Rattle.chart.specs.Duties.Out.{Shifts, PartPut, RowPutIn, RowsPut};

use pack::table::Table;

// What is added to each belief, and then taken away.
#[derive(Clone, Copy)]
pub struct Shift {
    pub more: u8,
    pub less: u8,
}

// Puts the k bytes of src from `from` on into `out` from `to` on, each shifted.
pub fn put_part(src: &[u8], from: usize, out: &mut [u8], to: usize, k: usize, s: Shift)
    requires room { (from + k ≤ length src.now) × (to + k ≤ length out.old) }
    requires shifts { (q : ℕ) → q < k → Shifts src.now s.more s.less (from + q) }
    ensures { PartPut src.now out.old out.new from to k s.more s.less }
{
    for q in 0..k {
        out[to + q] = src[from + q] + s.more - s.less;
    }
}

// Puts a row: its values, and its beliefs shifted.
pub fn put_beside(src: &[u8], from: usize, f: usize, c: usize, out: &mut [u8], to: usize, s: Shift)
    requires room { (from + f + c ≤ length src.now) × (to + f + c ≤ length out.old) }
    requires shifts { (d : ℕ) → d < c → Shifts src.now s.more s.less (from + f + d) }
    ensures { RowPutIn src.now out.old out.new from to f c s.more s.less }
{
    put_part(src, from, out, to, f, Shift { more: 0, less: 0 });
    put_part(src, from + f, out, to + f, c, s)
}

// Puts the rows of a table into `out` from `to` on.
pub fn put_rows(src: &[u8], t: Table, out: &mut [u8], to: usize, s: Shift)
    requires room { (t.fluents + t.characters ≤ t.width) × (t.width ≤ t.fluents + t.characters)
        × (t.rows + t.nodes * t.width ≤ length src.now) × (to + t.nodes * t.width ≤ length out.old) }
    requires shifts { (i d : ℕ) → i < t.nodes → d < t.characters
        → Shifts src.now s.more s.less (t.rows + i * t.width + t.fluents + d) }
    ensures { of_rows (RowsPut src.now out.old out.new) t to s.more s.less t.nodes }
{
    for i in 0..t.nodes {
        let from = t.rows + i * t.width;
        put_beside(src, from, t.fluents, t.characters, out, to + i * t.width, s);
    }
}

// Writes a table as a chart; its length.
pub fn write_chart(work: &[u8], t: Table, out: &mut [u8]) -> usize
    requires room { (t.nodes < 256) × (t.fluents + t.characters ≤ t.width) × (t.width ≤ t.fluents + t.characters)
        × (t.rows + t.nodes * t.width ≤ length work.now) × (1 + t.nodes * t.width ≤ length out.old) }
    requires sound { of_table (Sound work.now) t }
    ensures { (result ≡ 1 + t.nodes * t.width)
        × of_rows (RowsPut work.now (set out.old 0 t.nodes) out.new) t 1 1 0 t.nodes }
{
    out[0] = t.nodes as u8;
    put_rows(work, t, out, 1, Shift { more: 1, less: 0 });
    1 + t.nodes * t.width
}
