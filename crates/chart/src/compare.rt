// Compare: whether two charts mean the same, or the chain to where they differ. In the work buffer stand, from place 1
// on, the first chart's rows and behind them the second's, its beliefs counted on from there; a mark for each pair of
// 64 rows from 2,048; and the pairs that were met from 6,144, five bytes each.
ghost use Rattle.std.specs.Prelude.{◌≤◌, length};
ghost use Rattle.chart.specs.Call.{chain_room};
ghost use Rattle.chart.specs.Promises.{Comparison};
ghost use Rattle.chart.specs.Inner.Match.{of_two, Joinable, Joined, Matchable, RowsMatched, ChartsMatched};

use crate::Difference;
use crate::bytes::clear;
use crate::call::{CHAIN_ROOM, WORK_ROOM, both_at_most, check_lent};
use crate::out::{Shift, put_rows};
use crate::pairs::{meet_first, seek, write_chain};
use pack::contents::read_contents;
use pack::node::check_chart;
use pack::refusal::Refusal;
use pack::table::Table;

// How many nodes the first and the second of two charts have, of how many fluents and characters.
#[derive(Clone, Copy)]
pub struct TwoCharts {
    pub first: usize,
    pub second: usize,
    pub fluents: usize,
    pub characters: usize,
}

// Loads two charts as one table.
pub fn join(first: &[u8], second: &[u8], n: TwoCharts, work: &mut [u8])
    requires { of_two (Joinable first.now second.now work.old) n }
    ensures { of_two (Joined first.now second.now work.old work.new) n }
{
    let one = Table::at(1, n.first, n.fluents, n.characters);
    put_rows(first, one, work, 1, Shift { more: 0, less: 1 });
    let other = Table {
        nodes: n.second,
        ..one
    };
    let behind = Shift {
        more: n.first as u8,
        less: 1,
    };
    put_rows(second, other, work, 1 + n.first * one.width, behind)
}

// Compares the first rows of two charts, which stand as one table from 1 on; the chain to where they differ is written.
pub fn match_rows(work: &mut [u8], n: TwoCharts, chain: &mut [u8]) -> Option<Difference>
    requires { of_two (Matchable work.old chain.old) n }
    ensures { of_two (RowsMatched work.old work.new chain.old chain.new result) n }
{
    let t = Table::at(1, n.first + n.second, n.fluents, n.characters);
    meet_first(work, 0, n.first);
    let (k, fluent) = seek(work, t)?;
    let length = write_chain(work, k, chain);
    Some(Difference { length, fluent })
}

// Compares two charts. The work buffer is cleared.
pub fn match_charts(
    first: &[u8],
    second: &[u8],
    n: TwoCharts,
    chain: &mut [u8],
    work: &mut [u8],
) -> Option<Difference>
    requires { of_two (Joinable first.now second.now work.old) n × (chain_room ≤ length chain.old) }
    ensures { of_two (ChartsMatched first.now second.now chain.old chain.new work.old work.new result) n }
{
    join(first, second, n, work);
    let found = match_rows(work, n, chain);
    clear(work, 0, WORK_ROOM);
    found
}

// Compare(pack, first, second, chain out, work): that both mean the same, or where they differ, the chain written; or a
// refusal's number and place.
pub fn compare(
    pack: &[u8],
    first: &[u8],
    second: &[u8],
    chain: &mut [u8],
    work: &mut [u8],
) -> Result<Option<Difference>, Refusal>
    ensures { Comparison pack.now first.now second.now chain.old
        work.old chain.new work.new result }
{
    let p = read_contents(pack)?;
    let one = check_chart(first, p.dimensions())?;
    let other = check_chart(second, p.dimensions())?;
    let enough = both_at_most(CHAIN_ROOM, chain.len(), WORK_ROOM, work.len());
    check_lent(enough, true)?;
    let both = TwoCharts {
        first: one,
        second: other,
        fluents: p.domains.fluents,
        characters: p.characters,
    };
    let found = match_charts(first, second, both, chain, work);
    Ok(found)
}
