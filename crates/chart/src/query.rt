// Query: a fluent's value where a chain of beliefs leads.
ghost use Rattle.std.specs.Prelude.{◌<◌};
ghost use Rattle.chart.specs.Duties.Look.{Lookable, Looked};
ghost use Rattle.chart.specs.Promises.{Asked};

use crate::bytes::clear;
use crate::call::{WORK_ROOM, chain_there, check_lent};
use pack::contents::read_contents;
use pack::copy::copy_table;
use pack::node::check_chart;
use pack::refusal::Refusal;
use pack::table::{Table, follow};

// The value in a chart of so many nodes. The chart is loaded into the work buffer, which is cleared.
pub fn look(
    chart: &[u8],
    nodes: usize,
    fluents: usize,
    characters: usize,
    chain: &[u8],
    fluent: usize,
    work: &mut [u8],
) -> u8
    requires { Lookable chart.now nodes fluents characters chain.now fluent work.old }
    ensures { Looked chart.now nodes fluents characters chain.now fluent work.old work.new result }
{
    copy_table(chart, 1, nodes, work, 0, fluents, characters);
    let t = Table::at(1, nodes, fluents, characters);
    let there = follow(chain, 0, chain.len(), work, t, 0);
    let value = work[t.rows + there * t.width + fluent];
    clear(work, 0, WORK_ROOM);
    value
}

// Query(pack, chart, chain, fluent, work): the fluent's value where the chain leads, or a refusal's number and place.
pub fn query(
    pack: &[u8],
    chart: &[u8],
    chain: &[u8],
    fluent: usize,
    work: &mut [u8],
) -> Result<u8, Refusal>
    ensures { Asked pack.now chart.now chain.now fluent work.old
        work.new result }
{
    let p = read_contents(pack)?;
    let nodes = check_chart(chart, p.dimensions())?;
    let fluents = p.domains.fluents;
    let there = chain_there(chain, p.characters, fluent, fluents);
    check_lent(WORK_ROOM <= work.len(), there)?;
    let value = look(chart, nodes, fluents, p.characters, chain, fluent, work);
    Ok(value)
}
