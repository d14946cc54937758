// Where the memory keeps what, from its beginning on, as specs/Inner/Memory has it.

// It begins with the ids of the tables in the slots, a byte for each slot, at the remainder by this of where the
// table's rows begin. A slot takes 1 byte and 32 rows, so the remainder is 1 for the first slot and 1 more for each
// slot behind; there are at most 30 slots, so no two share one.
pub const SLOTS: usize = 32;

// How many blocks are taken by tables.
pub const TAKEN: usize = 48;

// Whether all has been forgotten once, as there was no room: 1, else 0.
pub const OVERFLOWED: usize = 49;

// How many steps have been made since then, in three bytes.
pub const MADE_SINCE: usize = 50;

// The heads of chains, a byte for each hash: the id of the table that was kept last of those with that hash.
pub const HEADS: usize = 53;

// The links of chains, a byte for each id: the id of the table that was kept before it of those with its hash.
pub const LINKS: usize = 180;

// What is known of steps, entries of 4 bytes; then what is known of lists, twice as many entries of 7 bytes; then the
// tables that are kept, in blocks. `limits::laid_out` says how many entries there are.
pub const STEPS: usize = 436;

// How many blocks there are, as many as an id of one byte can tell apart.
pub const BLOCKS: usize = 255;

// So many blocks are taken where a search is large.
pub const ENOUGH: usize = 20;

// Once all has been forgotten cells stand in the place of all three, with room for a table of so many rows, so many to
// a bucket.
pub const ROWS: usize = 6;

pub const WAYS: usize = 4;

// What took so many steps to find out is worth being kept then.
pub const WORTH: usize = 4;
