// A table of states in a lent buffer, and where chains lead in it.
ghost use Rattle.std.specs.Prelude.{◌<◌, ◌+◌, ◌^◌, ◌≤◌, length, ◌≡◌, get_or};
ghost use Rattle.pack.specs.State.{node, target, walk, Valid};
ghost use Rattle.pack.specs.Duties.Table.{table_at, table_of, TableFits, bytes_at};

// Where the rows of a table begin, how many there are, and what each has: values, then beliefs.
#[derive(Clone, Copy)]
pub struct Table {
    pub rows: usize,
    pub nodes: usize,
    pub fluents: usize,
    pub characters: usize,
    pub width: usize,
}

impl Table {
    // The table of so many rows from a place on, each as wide as its values and beliefs are many.
    pub fn at(rows: usize, nodes: usize, fluents: usize, characters: usize) -> Table
        requires { fluents + characters < 2 ^ 64 }
        ensures { result ≡ table_at rows nodes fluents characters }
    {
        Table {
            rows,
            nodes,
            fluents,
            characters,
            width: fluents + characters,
        }
    }

    // The value of fluent f in node n.
    #[inline]
    pub fn value(self, buffer: &[u8], n: usize, f: usize) -> u8
        requires { TableFits self buffer.now × (n < self.nodes) × (f < self.fluents) }
        ensures { result ≡ get_or (node (table_of self buffer.now) n).values f 0 }
    {
        buffer[self.rows + n * self.width + f]
    }

    // The node that node n's belief for character c names.
    #[inline]
    pub fn belief(self, buffer: &[u8], n: usize, c: usize) -> usize
        requires { TableFits self buffer.now × (n < self.nodes) × (c < self.characters) }
        ensures { (result ≡ target (table_of self buffer.now) n c) × (result < self.nodes) }
    {
        usize::from(buffer[self.rows + n * self.width + self.fluents + c])
    }
}

// The node where a chain leads: count characters, from a place on.
pub fn follow(s: &[u8], at: usize, count: usize, buffer: &[u8], t: Table, node: usize) -> usize
    requires { TableFits t buffer.now × (node < t.nodes) × (at + count ≤ length s.now)
        × Valid t.characters (bytes_at s.now at count) }
    ensures { (result ≡ walk (table_of t buffer.now) node (bytes_at s.now at count))
        × (result < t.nodes) }
{
    let mut there = node;
    for c in &s[at..at + count] {
        there = t.belief(buffer, there, usize::from(*c));
    }
    there
}
