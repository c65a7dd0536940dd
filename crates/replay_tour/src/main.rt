// The program replay over a longer file: every code and kind of a card, every line, and every refusal that a card can get. The file stdout is
// what the Rust answers to the cards of stdin (compare/run), and the refusals of rules 10.21 to 10.23.
#![tactic(auto)]

fn main(rt: HostRuntime) -> anyhow::Result<()> {
    card_stream::replay::run_replay(&rt)
}
