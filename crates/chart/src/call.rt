// The checks that the public calls share, behind those of the pack and of the charts: 8, then 9. Each call makes them
// in that order, and hands the first refusal on.
ghost use Rattle.std.specs.Prelude.{◌≡◌, ◌&&◌, ltb, leb};
ghost use Rattle.pack.specs.Reading.{gives, refuses, pick};
ghost use Rattle.pack.specs.Refusals.{replied};
ghost use Rattle.chart.specs.Replies.{all_below};

use pack::refusal::Refusal;

// How long a work buffer must be, of which so many bytes are set to 0 in the end.
pub const WORK_ROOM: usize = 49152;

// How long a buffer for a chart must be.
pub const CHART_ROOM: usize = 961;

// How long a buffer for a chain must be.
pub const CHAIN_ROOM: usize = 62;

// How long a buffer for a list must be.
pub const LIST_ROOM: usize = 8;

// Whether a is at most x and b at most y: two lent buffers are long enough, or a number is within its limits.
pub fn both_at_most(a: usize, x: usize, b: usize, y: usize) -> bool
    ensures { result ≡ (leb a x && leb b y) }
{
    a <= x && b <= y
}

// 8 where a lent buffer is too short, else 9 where a number handed in is that of nothing there.
pub fn check_lent(enough: bool, in_range: bool) -> Result<(), Refusal>
    ensures { replied result ≡ pick enough (pick in_range (gives tt) (refuses 9 0)) (refuses 8 0) }
{
    if !enough {
        return Err(Refusal::Short);
    }
    if !in_range {
        return Err(Refusal::Range);
    }
    Ok(())
}

// Whether each byte of a chain is below a number.
pub fn all_below(chain: &[u8], characters: usize) -> bool
    ensures { result ≡ all_below characters chain.now }
{
    chain.iter().all(|c| usize::from(*c) < characters)
}

// Whether a chain's characters and a fluent are there.
pub fn chain_there(chain: &[u8], characters: usize, fluent: usize, fluents: usize) -> bool
    ensures { result ≡ (all_below characters chain.now && ltb fluent fluents) }
{
    all_below(chain, characters) && fluent < fluents
}
