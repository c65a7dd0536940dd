// The program replay: event cards on standard input, output lines on standard output, any number of them in fixed memory. What is written is
// stated of any reader and writer, as a function of what is read: `replay_all`.

ghost use Rattle.std.specs.Prelude.{◌≡◌, ◌≤◌, length, IfSome, OnOk};
ghost use Rattle.std.specs.Io.KnownBytes.{Appends, IsAtEnd};
ghost use Rattle.streams.specs.Streams.{AppendsStart};
ghost use Rattle.card_text.specs.Lines.{line_bytes, most_bytes};
ghost use Rattle.card_stream.specs.Reader.{chunk_next};
ghost use Rattle.card_stream.specs.Feed.{feed_text, last_text, replay_text};

use crate::feed::{feed, finish};
use crate::reader::{CardReader, MOST_INPUT, blank_reader};
use anyhow::{Context, Result, anyhow};
use card_text::line::MOST;
use std::io;
use std::io::{Read, Write};
use streams::{read_some, write_every};

// The room for lines between two writes: the most that a card gives, and what others before it do.
const ROOM: usize = MOST + 8192;

// Writes the lines of a chunk, in pieces that have room; `out` is where they are put together.
#[tactic(auto, using(crate::proofs::Written::fed_put))]
fn feed_chunk<W: Write>(
    reader: &mut CardReader,
    chunk: &[u8],
    out: &mut [u8],
    to: &mut W,
) -> Result<()>
    requires { most_bytes ≤ length out.old }
    ensures reader_after { OnOk result (reader.new ≡ chunk_next reader.old chunk.now) }
    ensures room_after { length out.new ≡ length out.old }
    ensures ok { OnOk result (Appends (W.contents to.old) (W.contents to.new) (feed_text reader.old chunk.now)) }
    ensures start { AppendsStart (W.contents to.old) (W.contents to.new) (feed_text reader.old chunk.now) }
{
    let mut rest = chunk;
    while !rest.is_empty() {
        let fed = feed(reader, rest, out);
        write_every(to, &out[..fed.written]).context("replay: standard output")?;
        rest = &rest[fed.taken..];
    }
    Ok(())
}

// Writes the lines of the end.
#[tactic(auto, using(crate::proofs::Written::end_put))]
fn feed_end<W: Write>(reader: &mut CardReader, out: &mut [u8], to: &mut W) -> Result<()>
    requires { line_bytes ≤ length out.old }
    ensures ok { OnOk result (Appends (W.contents to.old) (W.contents to.new) (last_text reader.old)) }
    ensures start { AppendsStart (W.contents to.old) (W.contents to.new) (last_text reader.old) }
{
    let n = finish(reader, out);
    write_every(to, &out[..n]).context("replay: standard output")
}

/// Reads to the end, and writes what all of its bytes print (rule 14.5) and nothing else; where reading or writing fails, says so with the
/// program's name first, and has written a start of that. A proved loop ends: its turns are counted, up to a number that no run uses up.
pub fn replay_all<R: Read, W: Write>(from: &mut R, to: &mut W) -> Result<()>
    ensures ok { OnOk result (IfSome (R.remaining from.old) (λ input. Appends (W.contents to.old) (W.contents to.new) (replay_text input))) }
    ensures start { IfSome (R.remaining from.old) (λ input. AppendsStart (W.contents to.old) (W.contents to.new) (replay_text input)) }
    ensures end { OnOk result (IsAtEnd (R.remaining from.new)) }
{
    let mut buf = [0; MOST_INPUT];
    let mut out = [0; ROOM];
    let mut reader = blank_reader();
    for _ in 0..u64::MAX {
        let n = read_some(from, &mut buf).context("replay: standard input")?;
        if n == 0 {
            return feed_end(&mut reader, &mut out, to);
        }
        feed_chunk(&mut reader, &buf[..n], &mut out, to)?;
    }
    Err(anyhow!("replay: standard input does not end"))
}

/// The program, on standard input and output.
pub fn run_replay(rt: &(impl Input + Print)) -> Result<()> {
    replay_all(&mut rt.reader(), &mut io::writer(rt))
}
