// The pack reader as Rust calls it, for tests and benchmarks only. A caller lends bytes and a report of 64-bit numbers;
// the result is 0 or a refusal's number. What the report then has is said in specs/Report.antt.
#![tactic(auto)]

ghost use Rattle.std.specs.Prelude.{◌≤◌, length, ◌≡◌};
ghost use Rattle.pack.specs.Refusals.{replied};
ghost use Rattle.probe.specs.Report.{counts, chart_count, PackProbed, ChartProbed};

use pack::contents::{Contents, read_contents, read_pack};
use pack::node::check_chart;
use pack::places::PLACES;
use pack::refusal::Refusal;

// The counts of an accepted pack, in the first five entries.
fn put_counts(c: Contents, report: &mut [u64])
    requires { 5 ≤ length report.old }
    ensures { report.new
        ≡ counts report.old c.characters c.domains.fluents c.nodes c.actions c.triggers }
{
    report[0] = c.characters as u64;
    report[1] = c.domains.fluents as u64;
    report[2] = c.nodes as u64;
    report[3] = c.actions as u64;
    report[4] = c.triggers as u64;
}

// Reads a pack: 0 and its counts, or a refusal's number and its place. A report of fewer than five entries is 8.
pub fn pirwodd_probe_pack(pack: &[u8], report: &mut [u64]) -> u32
    ensures { PackProbed pack.now report.old report.new result }
{
    if report.len() < 5 {
        return 8;
    }
    let mut places = [0u16; PLACES];
    match read_pack(pack, &mut places) {
        Ok(c) => {
            put_counts(c, report);
            0
        }
        Err(why) => {
            report[0] = why.place() as u64;
            u32::from(why.number())
        }
    }
}

// How many nodes a chart has under a pack, or the refusal of the pack, or else of the chart.
fn count_nodes(pack: &[u8], chart: &[u8]) -> Result<usize, Refusal>
    ensures { chart_count pack.now chart.now ≡ replied result }
{
    let c = read_contents(pack)?;
    check_chart(chart, c.dimensions())
}

// Reads a chart under a pack: 0 and how many nodes it has, or a refusal's number and its place. An empty report is 8.
pub fn pirwodd_probe_chart(pack: &[u8], chart: &[u8], report: &mut [u64]) -> u32
    ensures { ChartProbed pack.now chart.now report.old
        report.new result }
{
    if report.is_empty() {
        return 8;
    }
    match count_nodes(pack, chart) {
        Ok(nodes) => {
            report[0] = nodes as u64;
            0
        }
        Err(why) => {
            report[0] = why.place() as u64;
            u32::from(why.number())
        }
    }
}
