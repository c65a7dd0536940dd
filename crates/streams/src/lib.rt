// Reading and writing at any reader and writer: one read, and all of some bytes, both tried again where a signal interrupts them. What is said
// of the bytes is said where the reader and the writer tell of theirs (the standard library's `remaining` and `contents`). Definitions in
// specs/Streams.
#![tactic(auto)]

ghost use Rattle.std.specs.Prelude.{◌≡◌, ◌≢◌, ◌↔◌, IfErr, IsTrue, OnOk};
ghost use Rattle.std.specs.Io.{ReadsAtMost, WritesAtMost};
ghost use Rattle.std.specs.Io.KnownBytes.{Appends, ReadConsumes, WriteAppends};
ghost use Rattle.std.specs.IoError.{error_kind};
ghost use Rattle.streams.specs.Streams.{AppendsStart};

use std::io;
use std::io::{Error, ErrorKind, Read, Write};

fn is_interrupted(e: &Error) -> bool
    ensures { IsTrue result ↔ (error_kind e.now ≡ ErrorKind.Interrupted) }
{
    e.kind() == ErrorKind::Interrupted
}

/// One read, tried again where a signal interrupts it: 0 at the end of the input, and else the first bytes of `buf` are the next ones.
/// Where it fails, nothing was read. A proved loop ends: its tries are counted, up to a number that no run uses up.
pub fn read_some<R: Read>(from: &mut R, buf: &mut [u8]) -> io::Result<usize>
    ensures count { ReadsAtMost result buf.new }
    ensures bytes { ReadConsumes (R.remaining from.old) (R.remaining from.new) result buf.new }
    ensures tried_again { IfErr result (λ e. error_kind e ≢ ErrorKind.Interrupted) }
{
    for _ in 0..u64::MAX {
        match from.read(buf) {
            Err(e) if is_interrupted(&e) => {}
            answer => return answer,
        }
    }
    Err(ErrorKind::TimedOut.into())
}

// One write, tried again where a signal interrupts it: answers how many of the bytes were written. Where it fails, none was.
fn write_some<W: Write>(to: &mut W, bytes: &[u8]) -> io::Result<usize>
    ensures count { WritesAtMost result bytes.now }
    ensures bytes { WriteAppends (W.contents to.old) (W.contents to.new) result bytes.now }
    ensures tried_again { IfErr result (λ e. error_kind e ≢ ErrorKind.Interrupted) }
{
    for _ in 0..u64::MAX {
        match to.write(bytes) {
            Err(e) if is_interrupted(&e) => {}
            answer => return answer,
        }
    }
    Err(ErrorKind::TimedOut.into())
}

/// Writes all of the bytes, or fails, and has then written a start of them.
pub fn write_every<W: Write>(to: &mut W, bytes: &[u8]) -> io::Result<()>
    ensures ok { OnOk result (Appends (W.contents to.old) (W.contents to.new) bytes.now) }
    ensures start { AppendsStart (W.contents to.old) (W.contents to.new) bytes.now }
    ensures tried_again { IfErr result (λ e. error_kind e ≢ ErrorKind.Interrupted) }
{
    let mut rest = bytes;
    while !rest.is_empty() {
        let n = write_some(to, rest)?;
        if n == 0 {
            return Err(ErrorKind::WriteZero.into());
        }
        rest = &rest[n..];
    }
    Ok(())
}
