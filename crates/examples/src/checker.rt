// Goes through the examples, one entry of the text after the other.

use crate::host::called_lines;
use crate::notation::{Entry, is_same};
use crate::records::asked_lines;
use crate::sets::{ones_lines, set_lines};
use anyhow::Result;
use engine::set_up::new_and_setup;
use flat_record::to_flat::flat_record;
use lease::Reading;
use std::alloc::{AllocError, Global};
use std::collections::VecDeque;
use std::fmt;
use std::io::Write;
use wire::calls::CallC;
use wire::flat::ManagerC;
use wire::lines::LineC;

// An example so far.
#[derive(Clone, Copy, Default)]
struct Example {
    cards: u64,
    // The first card that did not give its lines.
    wrong: Option<u64>,
}

impl Example {
    // Whether it has a card, and each gave its lines.
    fn is_ok(self) -> bool {
        self.cards > 0 && self.wrong.is_none()
    }
}

impl fmt::Display for Example {
    fn fmt<W: fmt::Write>(&self, f: &mut fmt::Formatter<W>) -> fmt::Result {
        match self.wrong {
            Some(card) => write!(f, "WRONG at card {card}"),
            None if self.cards == 0 => write!(f, "WRONG, no card"),
            None => write!(f, "ok"),
        }
    }
}

/// What is kept between two entries.
#[derive(Drop)]
pub struct Checker {
    alloc: Global,
    // What the next card is called on.
    record: ManagerC,
    // The lines that the last card gave and that are not yet compared.
    given: VecDeque<LineC>,
    // None before the first words.
    example: Option<Example>,
    // The examples of the list: those that are ok, and all.
    right: u64,
    count: u64,
}

// The record of a refused set-up, which no call but set-up takes (rule 6.3).
fn blank() -> ManagerC {
    flat_record(new_and_setup(0, 0, 0, 0, Reading(0)).manager)
}

// The lines that a card gives.
fn lines_of(alloc: Global, record: &mut ManagerC, card: CallC) -> Result<Vec<LineC>, AllocError> {
    match card.code {
        40 | 41 => asked_lines(alloc, record, card),
        53..=63 => set_lines(alloc, card),
        64 => ones_lines(alloc, card),
        _ => called_lines(alloc, record, card),
    }
}

impl Checker {
    /// Before the first entry.
    pub fn new(alloc: Global) -> Self {
        Checker {
            alloc,
            record: blank(),
            given: VecDeque::new(alloc),
            example: None,
            right: 0,
            count: 0,
        }
    }

    /// Takes the next entry, and writes what it ends and begins.
    pub fn take(&mut self, entry: Entry<'_>, output: &mut impl Write) -> Result<()> {
        match entry {
            Entry::Heading(heading) => self.begin_list(heading, output),
            Entry::Words(words) => self.begin(words, output),
            Entry::Card(card) => self.call(card),
            Entry::Line(line) => {
                self.compare(line);
                Ok(())
            }
        }
    }

    // An example begins; but for one whose words begin with `then`, on the record of a refused set-up.
    fn begin(&mut self, words: &str, output: &mut impl Write) -> Result<()> {
        self.end_example(output)?;
        if !words.starts_with("then ") {
            self.record = blank();
        }
        write!(output, "{words}: ")?;
        self.example = Some(Example::default());
        Ok(())
    }

    // The last card is wrong: it did not give the lines that are written.
    fn note_wrong(&mut self) {
        let example = self.example.get_or_insert(Example::default());
        let card = example.cards;
        example.wrong.get_or_insert(card);
    }

    // No more lines of the last card are written.
    fn end_card(&mut self) {
        if !self.given.is_empty() {
            self.note_wrong();
            self.given.clear();
        }
    }

    // The call of a card; its lines are to be compared.
    fn call(&mut self, card: CallC) -> Result<()> {
        self.end_card();
        let lines = lines_of(self.alloc, &mut self.record, card)?;
        self.given.extend(lines)?;
        let example = self.example.get_or_insert(Example::default());
        example.cards = example.cards.wrapping_add(1);
        Ok(())
    }

    // Compares the next line of the last card.
    fn compare(&mut self, line: LineC) {
        let given = self.given.pop_front();
        if !given.is_some_and(|l| is_same(l, line)) {
            self.note_wrong();
        }
    }

    // Writes the verdict on the example, if one has begun.
    fn end_example(&mut self, output: &mut impl Write) -> Result<()> {
        self.end_card();
        if let Some(example) = self.example.take() {
            writeln!(output, "{example}")?;
            self.count = self.count.wrapping_add(1);
            self.right = self.right.wrapping_add(u64::from(example.is_ok()));
        }
        Ok(())
    }

    // A list begins, and the one before ends.
    fn begin_list(&mut self, heading: &str, output: &mut impl Write) -> Result<()> {
        self.end_list(output)?;
        writeln!(output, "{heading}")?;
        Ok(())
    }

    /// Writes how many examples of the list are ok, if it has any.
    pub fn end_list(&mut self, output: &mut impl Write) -> Result<()> {
        self.end_example(output)?;
        if self.count > 0 {
            writeln!(output, "{} of {} lines ok", self.right, self.count)?;
        }
        self.right = 0;
        self.count = 0;
        Ok(())
    }
}
