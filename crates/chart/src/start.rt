// Start: the chart of node 0. The nodes stand from the start of the work buffer on, count first.
//
// In the work buffer: the table from 0, the pass's numbers from 1,024, the rows reached from 1,100, classes from 2,100
// to 2,400, merged rows to 3,360.
ghost use Rattle.chart.specs.Promises.{Started};
ghost use Rattle.chart.specs.Duties.Start.{Mergeable, Merged, Startable, StartPut};

use crate::bytes::{clear, copy_part};
use crate::call::{CHART_ROOM, WORK_ROOM, both_at_most, check_lent};
use crate::merge::write_merged;
use crate::out::write_chart;
use crate::partition::partition;
use crate::values::Regions;
use pack::contents::read_contents;
use pack::copy::copy_table;
use pack::refusal::Refusal;
use pack::table::Table;

// The numbers and keys of the pass, and the rows that it reaches.
const NUMBERS: usize = 1024;

const REACHED: usize = 1100;

// The classes of a level of them, the classes so far, and the first row of each.
const LEVEL: usize = 2100;

const CLASSES: usize = 2200;

const FIRSTS: usize = 2300;

// The rows, one of each class.
pub const MERGED: usize = 2400;

// Writes the written chart of what row 0 means of the n rows from 1 on, as a table from `MERGED` on; how many rows that
// is.
pub fn merge_table(work: &mut [u8], n: usize, w: usize, f: usize, c: usize) -> usize
    requires { Mergeable work.old n w f c }
    ensures { Merged work.old work.new n w f c result }
{
    let s = Table {
        rows: 1,
        nodes: n,
        fluents: f,
        characters: c,
        width: w,
    };
    let reached = crate::pass::copy_reachable(work, s, NUMBERS, REACHED, 0);
    let t = Table {
        rows: REACHED,
        nodes: reached,
        ..s
    };
    let regions = Regions {
        level: LEVEL,
        classes: CLASSES,
        firsts: FIRSTS,
    };
    let classes = partition(work, t, regions, 32);
    if reached <= classes {
        copy_part(work, REACHED, MERGED, reached * w);
        return reached;
    }
    write_merged(work, t, CLASSES, MERGED)
}

// Writes the chart of what node 0 means of the nodes that are read from `first` on; its length. The work buffer is
// cleared.
pub fn put_start(
    pack: &[u8],
    first: usize,
    nodes: usize,
    fluents: usize,
    characters: usize,
    chart: &mut [u8],
    work: &mut [u8],
) -> usize
    requires { Startable pack.now first nodes fluents characters chart.old work.old }
    ensures { (x : Startable pack.now first nodes fluents characters chart.old work.old)
        → StartPut characters x.table chart.old chart.new work.old work.new result }
{
    copy_table(pack, first, nodes, work, 0, fluents, characters);
    let width = fluents + characters;
    let rows = merge_table(work, nodes, width, fluents, characters);
    let t = Table::at(MERGED, rows, fluents, characters);
    let length = write_chart(work, t, chart);
    clear(work, 0, WORK_ROOM);
    length
}

// Start(pack, chart out, work): the length of the chart of node 0, which is written, or a refusal's number and place.
pub fn start(pack: &[u8], chart: &mut [u8], work: &mut [u8]) -> Result<usize, Refusal>
    ensures { Started pack.now chart.old work.old chart.new
        work.new result }
{
    let p = read_contents(pack)?;
    let enough = both_at_most(CHART_ROOM, chart.len(), WORK_ROOM, work.len());
    check_lent(enough, true)?;
    let fluents = p.domains.fluents;
    let length = put_start(pack, p.first, p.nodes, fluents, p.characters, chart, work);
    Ok(length)
}
