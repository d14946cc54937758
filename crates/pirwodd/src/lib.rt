// The calls as C and Rust call them. Each hands back 0 for an answer or a refusal's number, and writes numbers into a
// lent report: what the answer says, or the refusal's place. What that is for each call stands in specs/Exports.antt.
#![tactic(auto)]

ghost use Rattle.std.specs.Prelude.{◌≡◌, List, ℕ, [], ◌∷◌, set, leb};
ghost use Rattle.pack.specs.Reading.{pick, told};
ghost use Rattle.pack.specs.Refusals.{replied};
ghost use Rattle.pirwodd.specs.Report.{report_room, put, number_of, entries};
ghost use Rattle.pirwodd.specs.Exports.{one, verdict_numbers, StartReturned, QueryReturned, CompareReturned};
ghost use Rattle.pirwodd.specs.Exports.{StepReturned, ExplainedReturned, SearchReturned};
ghost use Rattle.pirwodd.specs.Told.{difference_numbers, ending_numbers};

use chart::Difference;
use chart::compare::compare;
use chart::query::query;
use chart::start::start;
use pack::refusal::Refusal;
use planner::Ending;
use planner::limits::{Foresight, Nesting, Story};
use planner::search::search;
use planner::verdict::verdict;
use transition::play::step;

// How much of a work buffer is lent to the call: none where the report is too short, so that 8 is told where a short
// buffer is.
fn lent(report: usize, work: usize) -> usize
    ensures { result ≡ pick (leb report_room report) work 0 }
{
    if 3 <= report { work } else { 0 }
}

// Puts an entry into the report, if it has that entry.
fn put_entry(report: &mut [u64], at: usize, entry: usize)
    ensures { report.new ≡ set report.old at entry }
{
    if at < report.len() {
        report[at] = entry as u64;
    }
}

// Puts one entry into the report.
fn put_one(report: &mut [u64], entry: usize)
    ensures { report.new ≡ put (entry ∷ []) report.old }
{
    put_entry(report, 0, entry);
}

// Puts three entries into the report.
fn put_three(report: &mut [u64], first: usize, second: usize, third: usize)
    ensures { report.new ≡ put (first ∷ second ∷ third ∷ []) report.old }
{
    put_entry(report, 0, first);
    put_entry(report, 1, second);
    put_entry(report, 2, third);
}

// An answer, of which numbers are told: they are put into the first entries of a report.
trait Told {
    ghost numbers: { Self → List ℕ };

    fn tell(self, report: &mut [u64])
        ensures { report.new ≡ put (numbers self) report.old };
}

// A length.
impl Told for usize {
    ghost numbers = { one };

    fn tell(self, report: &mut [u64]) {
        put_one(report, self);
    }
}

// A value.
impl Told for u8 {
    ghost numbers = { one };

    fn tell(self, report: &mut [u64]) {
        put_one(report, usize::from(self));
    }
}

// A verdict: 1 for yes, 0 for no.
impl Told for bool {
    ghost numbers = { verdict_numbers };

    fn tell(self, report: &mut [u64]) {
        let yes = usize::from(self);
        put_one(report, yes);
    }
}

// A comparison: 0 for "same", or 1, the chain's length and the fluent.
impl Told for Option<Difference> {
    ghost numbers = { difference_numbers };

    fn tell(self, report: &mut [u64]) {
        match self {
            None => put_one(report, 0),
            Some(Difference { length, fluent }) => put_three(report, 1, length, fluent),
        }
    }
}

// An ending: the list's length, and both utilities.
impl Told for Ending {
    ghost numbers = { ending_numbers };

    fn tell(self, report: &mut [u64]) {
        put_three(report, self.length, self.before, self.after);
    }
}

// Tells an answer and hands 0 back, or tells a refusal's place and hands its number back.
fn hand_back<T: Told>(said: Result<T, Refusal>, report: &mut [u64]) -> u32
    ensures number { result ≡ number_of (told T.numbers (replied said)) }
    ensures entries { report.new ≡ put (entries (told T.numbers (replied said))) report.old }
{
    match said {
        Ok(answer) => {
            answer.tell(report);
            0
        }
        Err(why) => {
            why.place().tell(report);
            u32::from(why.number())
        }
    }
}

// Start: the report's entry is the chart's length.
pub fn pirwodd_start(pack: &[u8], chart: &mut [u8], work: &mut [u8], report: &mut [u64]) -> u32
    ensures { StartReturned pack.now chart.old work.old report.old
        chart.new work.new report.new result }
{
    let room = lent(report.len(), work.len());
    hand_back(start(pack, chart, &mut work[..room]), report)
}

// Query: the report's entry is the value.
pub fn pirwodd_query(
    pack: &[u8],
    chart: &[u8],
    chain: &[u8],
    fluent: u64,
    work: &mut [u8],
    report: &mut [u64],
) -> u32
    ensures { QueryReturned pack.now chart.now chain.now fluent
        work.old report.old work.new report.new result }
{
    let room = lent(report.len(), work.len());
    let said = query(pack, chart, chain, fluent as usize, &mut work[..room]);
    hand_back(said, report)
}

// Compare: the report's entries are 0 for "same", or 1, the chain's length and the fluent.
pub fn pirwodd_compare(
    pack: &[u8],
    first: &[u8],
    second: &[u8],
    chain: &mut [u8],
    work: &mut [u8],
    report: &mut [u64],
) -> u32
    ensures { CompareReturned pack.now first.now second.now chain.old
        work.old report.old chain.new work.new report.new result }
{
    let room = lent(report.len(), work.len());
    let said = compare(pack, first, second, chain, &mut work[..room]);
    hand_back(said, report)
}

// Step: the report's entry is the length of the chart of what the action leaves.
pub fn pirwodd_step(
    pack: &[u8],
    chart: &[u8],
    action: u64,
    res: &mut [u8],
    work: &mut [u8],
    report: &mut [u64],
) -> u32
    ensures { StepReturned pack.now chart.now action res.old
        work.old report.old res.new work.new report.new result }
{
    let room = lent(report.len(), work.len());
    let said = step(pack, chart, action as usize, res, &mut work[..room]);
    hand_back(said, report)
}

// Explained: the report's entry is 1 for yes, 0 for no.
pub fn pirwodd_explained(
    pack: &[u8],
    chart: &[u8],
    character: u64,
    action: u64,
    foresight: u64,
    nesting: u64,
    work: &mut [u8],
    report: &mut [u64],
) -> u32
    ensures { ExplainedReturned pack.now chart.now character action foresight nesting
        work.old report.old work.new report.new result }
{
    let room = lent(report.len(), work.len());
    let said = verdict(
        pack,
        chart,
        character as usize,
        action as usize,
        Foresight(foresight as usize),
        Nesting(nesting as usize),
        &mut work[..room],
    );
    hand_back(said, report)
}

// Search: the report's entries are the list's length, and the author's utility at the start and at the list's end.
pub fn pirwodd_search(
    pack: &[u8],
    story: u64,
    foresight: u64,
    nesting: u64,
    list: &mut [u8],
    work: &mut [u8],
    report: &mut [u64],
) -> u32
    ensures { SearchReturned pack.now story foresight nesting list.old work.old
        report.old list.new work.new report.new result }
{
    let room = lent(report.len(), work.len());
    let said = search(
        pack,
        Story(story as usize),
        Foresight(foresight as usize),
        Nesting(nesting as usize),
        list,
        &mut work[..room],
    );
    hand_back(said, report)
}
