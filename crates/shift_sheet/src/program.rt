// The program sheet: event cards on standard input and, when they have ended, the shift sheet on standard output, any number of cards in
// fixed memory. What is written is stated of any reader and writer, as a function of what is read: `sheet_all`. Definitions in specs/Printed.

ghost use Rattle.std.specs.Prelude.{IfSome, OnOk};
ghost use Rattle.std.specs.Io.KnownBytes.{Appends, IsAtEnd};
ghost use Rattle.streams.specs.Streams.{AppendsStart};
ghost use Rattle.shift_sheet.specs.Printed.{session_text, sheet_printed};

use crate::rows::sheet_of;
use anyhow::{Context, Result, anyhow};
use card_stream::input::read_session;
use card_stream::session::Session;
use std::io;
use std::io::{Read, Write};
use streams::write_every;

// Writes the sheet of a session. No cards lead to a record that is refused.
#[tactic(auto, using(crate::proofs::Written::sheet_put))]
fn write_sheet<W: Write>(session: &Session, to: &mut W) -> Result<()>
    ensures ok { OnOk result (Appends (W.contents to.old) (W.contents to.new) (session_text session.now)) }
    ensures start { AppendsStart (W.contents to.old) (W.contents to.new) (session_text session.now) }
{
    let sheet = sheet_of(session).map_err(|refusal| anyhow!("refused with {}", refusal.number()))?;
    write_every(to, &sheet.bytes[..sheet.length]).context("standard output")
}

/// Reads to the end, and writes the sheet of the session that the cards of all its bytes lead to (rules 15.1, 15.2) and nothing else; where
/// reading or writing fails, says so, and has written a start of that.
pub fn sheet_all<R: Read, W: Write>(from: &mut R, to: &mut W) -> Result<()>
    ensures ok { OnOk result (IfSome (R.remaining from.old) (λ input. Appends (W.contents to.old) (W.contents to.new) (sheet_printed input))) }
    ensures start { IfSome (R.remaining from.old) (λ input. AppendsStart (W.contents to.old) (W.contents to.new) (sheet_printed input)) }
    ensures end { OnOk result (IsAtEnd (R.remaining from.new)) }
{
    let session = read_session(from)?;
    write_sheet(&session, to)
}

/// The program, on standard input and output. Where it fails, it says its name first.
pub fn run_sheet(rt: &(impl Input + Print)) -> Result<()> {
    sheet_all(&mut rt.reader(), &mut io::writer(rt)).context("sheet")
}
