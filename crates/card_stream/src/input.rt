// A program's input to its end, a chunk at a time, in fixed memory, for the session that its cards lead to.

ghost use Rattle.std.specs.Prelude.{◌≡◌, IfOk, IfSome, OnOk};
ghost use Rattle.std.specs.Io.KnownBytes.{IsAtEnd};
ghost use Rattle.card_stream.specs.Reader.{session_of};

use crate::reader::{MOST_INPUT, blank_reader};
use crate::session::Session;
use anyhow::{Context, Result, anyhow};
use std::io::Read;
use streams::read_some;

/// Reads to the end, and answers the session that the cards of all its bytes lead to; says so where reading fails. A proved loop ends: its
/// turns are counted, up to a number that no run uses up.
pub fn read_session<R: Read>(from: &mut R) -> Result<Session>
    ensures value { IfOk result (λ session. IfSome (R.remaining from.old) (λ input. session ≡ session_of input)) }
    ensures end { OnOk result (IsAtEnd (R.remaining from.new)) }
{
    let mut buf = [0; MOST_INPUT];
    let mut reader = blank_reader();
    for _ in 0..u64::MAX {
        let n = read_some(from, &mut buf).context("standard input")?;
        if n == 0 {
            // What the last card gives is not asked for.
            let _given = reader.take_end();
            return Ok(reader.session);
        }
        reader.take_chunk(&buf[..n]);
    }
    Err(anyhow!("standard input does not end"))
}
