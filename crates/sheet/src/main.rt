// Event cards on standard input, the shift sheet on standard output (section 15): docs/SHEET.md. The files stdin and stdout are the small
// site.
#![tactic(auto)]

fn main(rt: HostRuntime) -> anyhow::Result<()> {
    shift_sheet::program::run_sheet(&rt)
}
