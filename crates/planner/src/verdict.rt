// Explained: the checks, and the verdict on a chart.
ghost use Rattle.std.specs.Prelude.{◌≡◌, ◌&&◌, ltb};
ghost use Rattle.planner.specs.Replies.{foresight_limit, nesting_limit};
ghost use Rattle.planner.specs.Promises.{Judgement};
ghost use Rattle.planner.specs.Inner.Explain.{Judgeable, VerdictOf};

use crate::entry::Deed;
use crate::explain::explained;
use crate::limits::{Context, Foresight, Nesting, explainable, laid_out};
use chart::bytes::clear;
use chart::call::{WORK_ROOM, check_lent};
use pack::contents::read_pack;
use pack::copy::copy_table;
use pack::node::check_chart;
use pack::places::PLACES;
use pack::refusal::Refusal;

// Whether the numbers handed to Explained are those of something there.
pub fn in_range(
    character: usize,
    characters: usize,
    action: usize,
    actions: usize,
    k: Foresight,
    e: Nesting,
) -> bool
    ensures { result
        ≡ (ltb character characters && (ltb action actions && (foresight_limit k.0 && nesting_limit e.0))) }
{
    character < characters && action < actions && explainable(k, e)
}

// The verdict in a chart of so many nodes. The work buffer is cleared.
pub fn verdict_in(
    pack: &[u8],
    places: &[u16],
    p: Context,
    chart: &[u8],
    nodes: usize,
    d: Deed,
    work: &mut [u8],
) -> bool
    requires { Judgeable pack.now places.now p chart.now nodes d.who d.action p.foresight.0
        d.nesting.0 work.old }
    ensures { VerdictOf pack.now places.now p chart.now nodes d.who
        d.action p.foresight.0 d.nesting.0 work.old work.new result }
{
    copy_table(chart, 1, nodes, work, 0, p.fluents, p.characters);
    clear(work, p.memory, p.tables - p.memory);
    let verdict = explained(pack, places, p, work, 0, d);
    clear(work, 0, WORK_ROOM);
    verdict
}

// Explained(pack, chart, character, action, K, e, work): yes or no, or a refusal's number and place.
pub fn verdict(
    pack: &[u8],
    chart: &[u8],
    character: usize,
    action: usize,
    k: Foresight,
    e: Nesting,
    work: &mut [u8],
) -> Result<bool, Refusal>
    ensures { Judgement pack.now chart.now character action k.0 e.0
        work.old work.new result }
{
    let mut places = [0u16; PLACES];
    let p = read_pack(pack, &mut places)?;
    let nodes = check_chart(chart, p.dimensions())?;
    let there = in_range(character, p.characters, action, p.actions, k, e);
    check_lent(WORK_ROOM <= work.len(), there)?;
    let context = laid_out(p, k, 1 + (1 + k.0) * e.0);
    let deed = Deed {
        who: character,
        nesting: e,
        action,
    };
    let verdict = verdict_in(pack, &places, context, chart, nodes, deed, work);
    Ok(verdict)
}
