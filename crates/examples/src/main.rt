// Runs the examples of its file stdin: each is a line of words, cards, and the lines that each card must give, all of whose
// numbers are compared (README.md). Writes the words with `ok` or `WRONG`, and behind each list how many of its lines are ok.
#![tactic(auto)]

mod checker;
mod host;
mod notation;
mod records;
mod sets;

use anyhow::{Context, Result};
use checker::Checker;
use std::io::{self, BufRead, BufReader, BufWriter, Write};

fn main(rt: HostRuntime) -> Result<()> {
    let alloc = rt.alloc();
    let mut output = BufWriter::new(alloc, io::writer(&rt))?;
    let mut checker = Checker::new(alloc);
    for text in BufReader::new(alloc, rt.reader())?.lines(alloc) {
        let text = text.context("standard input")?;
        checker.take(notation::entry_of(text.as_str()), &mut output)?;
    }
    checker.end_list(&mut output)?;
    output.flush()?;
    Ok(())
}
