// The program sheet over a file of several chunks, with every grant state and every held state, active, exploded and revoking promises, and
// refused cards: docs/SHEET.md explains its sheet line by line. The file stdout is what the Rust's state gives (docs/RUNS.md).
#![tactic(auto)]

fn main(rt: HostRuntime) -> anyhow::Result<()> {
    shift_sheet::program::run_sheet(&rt)
}
