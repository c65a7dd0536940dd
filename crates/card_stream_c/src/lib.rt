// The program replay over bytes that a host lends, as a static library: the bench times it beside plain Rust.
#![tactic(auto)]

ghost use Rattle.std.specs.Prelude.{◌≤◌, ◌≡◌, length};
ghost use Rattle.card_text.specs.Lines.{laid};
ghost use Rattle.card_stream_c.specs.Replay.{written_text, WrittenWhole};

use card_stream::feed::{feed, finish};
use card_stream::reader::blank_reader;

/// Writes what the cards of the input print at the start of `out`, and answers how many bytes they are (rules 14.4, 14.5). It wants room for
/// the most that a card gives behind them; where there is less, it stops before a card that might have none.
#[tactic(auto, using(crate::proofs::Replay::written_whole))]
#[unsafe(no_mangle)]
pub extern "C" fn card_stream_replay(input: &[u8], out: &mut [u8]) -> usize
    ensures value { result ≡ length (written_text input.now (length out.old)) }
    ensures out_after { out.new ≡ laid (written_text input.now (length out.old)) out.old }
    ensures whole { WrittenWhole input.now (length out.old) }
    ensures in_bounds { result ≤ length out.new }
{
    let mut reader = blank_reader();
    let fed = feed(&mut reader, input, out);
    if fed.taken < input.len() {
        return fed.written;
    }
    fed.written + finish(&mut reader, &mut out[fed.written..])
}
