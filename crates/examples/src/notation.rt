// What a line of the text is.

use card_text::card::read_card;
use card_text::line::read_line;
use wire::calls::CallC;
use wire::lines::LineC;

#[derive(Clone, Copy)]
pub enum Entry<'a> {
    /// A line that begins with `#`: a list begins, and this is its heading.
    Heading(&'a str),
    /// A call, as six numbers in columns.
    Card(CallC),
    /// What a card must give, as five numbers in columns.
    Line(LineC),
    /// Any other line: an example begins, and these are its words.
    Words(&'a str),
}

/// What a line of the text is; it comes without its newline.
pub fn entry_of(text: &str) -> Entry<'_> {
    if text.starts_with('#') {
        return Entry::Heading(text);
    }
    if let Some(card) = read_card(text.as_bytes()) {
        return Entry::Card(card);
    }
    match read_line(text.as_bytes()) {
        Some(line) => Entry::Line(line),
        None => Entry::Words(text),
    }
}

/// Whether two lines have the same numbers.
pub fn is_same(a: LineC, b: LineC) -> bool {
    let numbers = |l: LineC| [l.code, l.number, l.peer, l.first, l.second];
    numbers(a) == numbers(b)
}
