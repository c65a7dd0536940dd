// Event cards on standard input, output lines on standard output (section 14): docs/CARDS.md. The files stdin and stdout are the small site.
#![tactic(auto)]

fn main(rt: HostRuntime) -> anyhow::Result<()> {
    card_stream::replay::run_replay(&rt)
}
