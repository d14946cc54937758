// Step: the checks, and an action played in a chart.
ghost use Rattle.transition.specs.Promises.{Stepped};
ghost use Rattle.transition.specs.Inner.Steppable.{Steppable, StepPut};

use crate::regions::{SECOND_ROWS, SLOT};
use crate::step::{Move, step_slot};
use chart::bytes::clear;
use chart::call::{CHART_ROOM, WORK_ROOM, both_at_most, check_lent};
use chart::out::write_chart;
use pack::contents::read_pack;
use pack::copy::copy_table;
use pack::node::check_chart;
use pack::places::PLACES;
use pack::refusal::Refusal;
use pack::table::Table;

// How many nodes a chart has, of how many fluents and characters.
#[derive(Clone, Copy)]
pub struct Size {
    pub nodes: usize,
    pub fluents: usize,
    pub characters: usize,
}

// Plays an action in a chart and writes the chart of what it leaves. The work buffer is cleared.
pub fn play(
    pack: &[u8],
    places: &[u16],
    m: Move,
    chart: &[u8],
    n: Size,
    out: &mut [u8],
    work: &mut [u8],
) -> Result<usize, Refusal>
    requires { Steppable pack.now places.now m.triggers m.action chart.now n.nodes n.fluents
        n.characters out.old work.old }
    ensures { StepPut pack.now places.now m.triggers m.action
        chart.now n.nodes n.fluents n.characters out.old work.old
        out.new work.new result }
{
    copy_table(chart, 1, n.nodes, work, 0, n.fluents, n.characters);
    let width = n.fluents + n.characters;
    let t = Table {
        rows: 1,
        nodes: n.nodes,
        fluents: n.fluents,
        characters: n.characters,
        width,
    };
    if let Err(stop) = step_slot(pack, places, m, work, t, 0, SLOT) {
        clear(work, 0, WORK_ROOM);
        return Err(Refusal::Stopped(stop));
    }
    let rows = usize::from(work[SLOT]);
    let left = Table {
        rows: SECOND_ROWS,
        nodes: rows,
        fluents: n.fluents,
        characters: n.characters,
        width,
    };
    let length = write_chart(work, left, out);
    clear(work, 0, WORK_ROOM);
    Ok(length)
}

// Step(pack, chart, action, chart out, work): the length of the chart of what the action leaves, which is written, or a
// refusal's number and place.
pub fn step(
    pack: &[u8],
    chart: &[u8],
    action: usize,
    out: &mut [u8],
    work: &mut [u8],
) -> Result<usize, Refusal>
    ensures { Stepped pack.now chart.now action out.old work.old
        out.new work.new result }
{
    let mut places = [0u16; PLACES];
    let p = read_pack(pack, &mut places)?;
    let nodes = check_chart(chart, p.dimensions())?;
    let enough = both_at_most(CHART_ROOM, out.len(), WORK_ROOM, work.len());
    check_lent(enough, action < p.actions)?;
    let m = Move {
        action,
        triggers: p.triggers,
    };
    let n = Size {
        nodes,
        fluents: p.domains.fluents,
        characters: p.characters,
    };
    play(pack, &places, m, chart, n, out, work)
}
