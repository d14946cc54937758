// The pack reader by C's conventions, for tests and benchmarks only. Each export hands what it is lent to the function
// of the same name in `probe` and promises what that promises: specs/Report.antt there.
#![tactic(auto)]

ghost use Rattle.probe.specs.Report.{PackProbed, ChartProbed};

#[unsafe(no_mangle)]
pub extern "C" fn pirwodd_probe_pack(pack: &[u8], report: &mut [u64]) -> u32
    ensures { PackProbed pack.now report.old report.new result }
{
    probe::pirwodd_probe_pack(pack, report)
}

#[unsafe(no_mangle)]
pub extern "C" fn pirwodd_probe_chart(pack: &[u8], chart: &[u8], report: &mut [u64]) -> u32
    ensures { ChartProbed pack.now chart.now report.old
        report.new result }
{
    probe::pirwodd_probe_chart(pack, chart, report)
}
