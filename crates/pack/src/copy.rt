// The nodes of a pack or chart, copied into a table in a lent buffer. Every number of a node is one byte, and a belief
// is written plus 1.
ghost use Rattle.std.specs.Prelude.{◌<◌, ◌+◌, ◌*◌};
ghost use Rattle.pack.specs.Duties.Copy.{Copyable, Copied, RowCopyable, RowCopied, TableCopyable, TableCopied};

// Bytes copied from a place to a place, each less by so much.
pub fn copy_bytes(s: &[u8], from: usize, buffer: &mut [u8], to: usize, count: usize, less: u8)
    requires { Copyable s.now from buffer.old to count less }
    ensures { Copied s.now from buffer.old buffer.new to count less }
{
    // By index: the proof of a `zip` of the two slices, one of them written, did not close.
    for i in 0..count {
        buffer[to + i] = s[from + i] - less;
    }
}

// One node: its values, and its beliefs less 1.
pub fn copy_row(
    s: &[u8],
    from: usize,
    buffer: &mut [u8],
    to: usize,
    fluents: usize,
    characters: usize,
)
    requires { RowCopyable s.now from buffer.old to fluents characters }
    ensures { RowCopied s.now from buffer.old
        buffer.new to fluents characters }
{
    copy_bytes(s, from, buffer, to, fluents, 0);
    copy_bytes(s, from + fluents, buffer, to + fluents, characters, 1);
}

// A table: its count at base, and its rows behind it. The nodes are read from a place on.
pub fn copy_table(
    s: &[u8],
    at: usize,
    nodes: usize,
    buffer: &mut [u8],
    base: usize,
    fluents: usize,
    characters: usize,
)
    requires { TableCopyable s.now at nodes buffer.old base fluents characters }
    ensures { TableCopied s.now at nodes buffer.old
        buffer.new base fluents characters }
{
    buffer[base] = nodes as u8;
    let width = fluents + characters;
    let mut from = at;
    for i in 0..nodes {
        copy_row(s, from, buffer, base + 1 + i * width, fluents, characters);
        from += width;
    }
}
