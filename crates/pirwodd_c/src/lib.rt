// The six calls by C's conventions. Each export hands what it is lent to the function of the same name in `pirwodd` and
// promises what that promises: specs/Exports.antt there.
#![tactic(auto)]

ghost use Rattle.pirwodd.specs.Exports.{StartReturned, QueryReturned, CompareReturned, StepReturned};
ghost use Rattle.pirwodd.specs.Exports.{ExplainedReturned, SearchReturned};

#[unsafe(no_mangle)]
pub extern "C" fn pirwodd_start(
    pack: &[u8],
    chart: &mut [u8],
    work: &mut [u8],
    report: &mut [u64],
) -> u32
    ensures { StartReturned pack.now chart.old work.old report.old
        chart.new work.new report.new result }
{
    pirwodd::pirwodd_start(pack, chart, work, report)
}

#[unsafe(no_mangle)]
pub extern "C" fn pirwodd_query(
    pack: &[u8],
    chart: &[u8],
    chain: &[u8],
    fluent: u64,
    work: &mut [u8],
    report: &mut [u64],
) -> u32
    ensures { QueryReturned pack.now chart.now chain.now fluent
        work.old report.old work.new report.new result }
{
    pirwodd::pirwodd_query(pack, chart, chain, fluent, work, report)
}

#[unsafe(no_mangle)]
pub extern "C" fn pirwodd_compare(
    pack: &[u8],
    first: &[u8],
    second: &[u8],
    chain: &mut [u8],
    work: &mut [u8],
    report: &mut [u64],
) -> u32
    ensures { CompareReturned pack.now first.now second.now chain.old
        work.old report.old chain.new work.new report.new result }
{
    pirwodd::pirwodd_compare(pack, first, second, chain, work, report)
}

#[unsafe(no_mangle)]
pub extern "C" fn pirwodd_step(
    pack: &[u8],
    chart: &[u8],
    action: u64,
    res: &mut [u8],
    work: &mut [u8],
    report: &mut [u64],
) -> u32
    ensures { StepReturned pack.now chart.now action res.old
        work.old report.old res.new work.new report.new result }
{
    pirwodd::pirwodd_step(pack, chart, action, res, work, report)
}

#[unsafe(no_mangle)]
pub extern "C" fn pirwodd_explained(
    pack: &[u8],
    chart: &[u8],
    character: u64,
    action: u64,
    foresight: u64,
    nesting: u64,
    work: &mut [u8],
    report: &mut [u64],
) -> u32
    ensures { ExplainedReturned pack.now chart.now character action foresight nesting
        work.old report.old work.new report.new result }
{
    pirwodd::pirwodd_explained(
        pack, chart, character, action, foresight, nesting, work, report,
    )
}

#[unsafe(no_mangle)]
pub extern "C" fn pirwodd_search(
    pack: &[u8],
    story: u64,
    foresight: u64,
    nesting: u64,
    list: &mut [u8],
    work: &mut [u8],
    report: &mut [u64],
) -> u32
    ensures { SearchReturned pack.now story foresight nesting list.old work.old
        report.old list.new work.new report.new result }
{
    pirwodd::pirwodd_search(pack, story, foresight, nesting, list, work, report)
}
