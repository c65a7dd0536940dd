// Runs stored lists of cards, each from its set-up: by the manager's calls (rule 11.5), half of them by value and half over a lent
// record, and by the host library (rule 13.6). Writes for each list what the grant set, the lease set and the lease count are in the
// end, how many Promise lines the answers had, and the record. On standard input a list is a set-up card and the cards after it, in
// the columns of crates/examples; any other line is words, and ends a list.
#![tactic(auto)]

mod ends;
mod runs;

use anyhow::{Context, Result};
use card_text::card::read_card;
use runs::{SET_UP, blank, write_runs};
use std::io::{self, BufRead, BufReader, BufWriter, Write};
use wire::calls::CallC;

fn main(rt: HostRuntime) -> Result<()> {
    let alloc = rt.alloc();
    let mut output = BufWriter::new(alloc, io::writer(&rt))?;
    // The lent record: each list's set-up is called on what the list before left.
    let mut record = blank();
    let mut cards: Vec<CallC> = Vec::new(alloc);
    for text in BufReader::new(alloc, rt.reader())?.lines(alloc) {
        let text = text.context("standard input")?;
        let card = read_card(text.as_str().as_bytes());
        if card.is_none_or(|c| c.code == SET_UP) {
            write_runs(alloc, &mut record, cards.as_slice(), &mut output)?;
            cards.clear();
        }
        match card {
            Some(card) => cards.push(card)?,
            None => writeln!(output, "{text}")?,
        }
    }
    write_runs(alloc, &mut record, cards.as_slice(), &mut output)?;
    output.flush()?;
    Ok(())
}
