// The two programs over bytes in memory: over a reader that gives a byte at a time, one that signals interrupt and one that fails, and a
// writer that takes a few bytes at a time and fills up.
#![tactic(auto)]

ghost use Rattle.std.specs.Prelude.{◌≡◌, Some, IfOk};
ghost use Rattle.card_stream.specs.Feed.{replay_text};
ghost use Rattle.shift_sheet.specs.Printed.{sheet_printed};

use anyhow::Result;
use card_stream::replay::replay_all;
use shift_sheet::program::sheet_all;
use std::alloc::Global;
use std::io;
use std::io::{ErrorKind, Read, Write};

/// What replay writes for an input in memory.
pub fn replay_bytes(alloc: Global, input: &[u8]) -> Result<Vec<u8>>
    ensures { IfOk result (λ text. text.items ≡ replay_text input.now) }
{
    let mut from = input;
    let mut to = Vec::new(alloc);
    replay_all(&mut from, &mut to)?;
    Ok(to)
}

/// What sheet writes for it.
pub fn sheet_bytes(alloc: Global, input: &[u8]) -> Result<Vec<u8>>
    ensures { IfOk result (λ text. text.items ≡ sheet_printed input.now) }
{
    let mut from = input;
    let mut to = Vec::new(alloc);
    sheet_all(&mut from, &mut to)?;
    Ok(to)
}

/// Gives a byte at a time, and every other read is interrupted.
#[derive(Drop)]
pub struct Slow<'a> {
    left: &'a [u8],
    is_next: bool,
}

impl Read for Slow<'_> {
    ghost remaining = { λ s. Some s.left.now };

    fn read(&mut self, buf: &mut [u8]) -> io::Result<usize> {
        self.is_next = !self.is_next;
        if self.is_next {
            return Err(ErrorKind::Interrupted.into());
        }
        let room = buf.len().min(1);
        self.left.read(&mut buf[..room])
    }
}

/// What replay writes for an input that comes so.
pub fn replay_slow(alloc: Global, input: &[u8]) -> Result<Vec<u8>>
    ensures { IfOk result (λ text. text.items ≡ replay_text input.now) }
{
    let mut from = Slow {
        left: input,
        is_next: false,
    };
    let mut to = Vec::new(alloc);
    replay_all(&mut from, &mut to)?;
    Ok(to)
}

/// What sheet writes for it.
pub fn sheet_slow(alloc: Global, input: &[u8]) -> Result<Vec<u8>>
    ensures { IfOk result (λ text. text.items ≡ sheet_printed input.now) }
{
    let mut from = Slow {
        left: input,
        is_next: false,
    };
    let mut to = Vec::new(alloc);
    sheet_all(&mut from, &mut to)?;
    Ok(to)
}

/// Every read fails.
#[derive(Drop)]
pub struct Broken;

impl Read for Broken {
    fn read(&mut self, _buf: &mut [u8]) -> io::Result<usize> {
        Err(ErrorKind::BrokenPipe.into())
    }
}

/// Takes seven bytes at a time, every other write is interrupted, and at last there is no room.
#[derive(Drop)]
pub struct Filling {
    text: Vec<u8>,
    room: usize,
    is_next: bool,
}

impl Write for Filling {
    ghost contents = { λ s. Some s.text.items };

    fn write(&mut self, buf: &[u8]) -> io::Result<usize> {
        self.is_next = !self.is_next;
        if self.is_next {
            return Err(ErrorKind::Interrupted.into());
        }
        let n = buf.len().min(self.room).min(7);
        self.text.extend_from_slice(&buf[..n])?;
        self.room -= n;
        Ok(n)
    }

    fn flush(&mut self) -> io::Result<()> {
        Ok(())
    }
}

#[cfg(test)]
mod tests {
    use super::*;
    use std::test::Fail;

    // The small site.
    const CARDS: &str =
        " 1                    0   0   2           1000000000            100000000\n 6                    3   1   1                    0                    0\n";

    const LINES: &str =
        "12                    3   0                    0                    0\n 3                    3   1                    0                    0\n";

    const SHEET: &str = "   1  0       0  1    1000\n   2  0       0  0       0\n";

    #[test]
    fn moves_bytes_in_memory(rt: HostRuntime) -> Result<(), Fail> {
        let lines = replay_bytes(rt.alloc(), CARDS.as_bytes())?;
        assert_eq!(rt; lines.as_slice(), LINES.as_bytes());
        let sheet = sheet_bytes(rt.alloc(), CARDS.as_bytes())?;
        assert_eq!(rt; sheet.as_slice(), SHEET.as_bytes());
        Ok(())
    }

    #[test]
    fn reads_on_where_reads_are_short_or_interrupted(rt: HostRuntime) -> Result<(), Fail> {
        let lines = replay_slow(rt.alloc(), CARDS.as_bytes())?;
        assert_eq!(rt; lines.as_slice(), LINES.as_bytes());
        let sheet = sheet_slow(rt.alloc(), CARDS.as_bytes())?;
        assert_eq!(rt; sheet.as_slice(), SHEET.as_bytes());
        Ok(())
    }

    #[test]
    fn writes_all_where_writes_are_short(rt: HostRuntime) -> Result<(), Fail> {
        let mut from = CARDS.as_bytes();
        let mut to = Filling {
            text: Vec::new(rt.alloc()),
            room: 1000,
            is_next: false,
        };
        replay_all(&mut from, &mut to)?;
        assert_eq!(rt; to.text.as_slice(), LINES.as_bytes());
        Ok(())
    }

    #[test]
    fn writes_a_start_where_writing_fails(rt: HostRuntime) {
        let mut from = CARDS.as_bytes();
        let mut to = Filling {
            text: Vec::new(rt.alloc()),
            room: 75,
            is_next: false,
        };
        let result = replay_all(&mut from, &mut to);
        assert!(rt; result.is_err());
        assert_eq!(rt; to.text.as_slice(), &LINES.as_bytes()[..75]);
    }

    #[test]
    fn writes_a_start_where_reading_fails(rt: HostRuntime) {
        let cards = CARDS.as_bytes();
        let mut from = cards.chain(Broken);
        let mut to = Vec::new(rt.alloc());
        let result = replay_all(&mut from, &mut to);
        assert!(rt; result.is_err());
        assert_eq!(rt; to.as_slice(), LINES.as_bytes());
        let mut sheet = Vec::new(rt.alloc());
        let result = sheet_all(&mut Broken, &mut sheet);
        assert!(rt; result.is_err());
        assert!(rt; sheet.is_empty());
    }
}
