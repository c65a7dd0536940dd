// The laws of columns, cards and lines, each a claim of specs/Claims: the functions of this crate are stated by the same definitions.

ghost use Rattle.card_text.specs.Claims.{NumberWrittenIsRead, NumberReadIsWritten, CardsWrittenAreRead, CardReadIsWritten, CardsReadAreWritten, LinesWrittenAreRead, LineReadIsWritten, OutcomeHasRoom};

/// A number that has room in its columns is read back from them, and bytes that are read as a number are what it is written as (rule 14.1).
pub fn numbers_come_back()
    ensures written_is_read { NumberWrittenIsRead }
    ensures read_is_written { NumberReadIsWritten }
{}

/// The cards of any events that cards can carry, newlines included, are read as exactly those events, in their order; and a line or an
/// input that is accepted is what its events are written as (rule 14.6).
pub fn cards_come_back()
    ensures written_are_read { CardsWrittenAreRead }
    ensures one_read_is_written { CardReadIsWritten }
    ensures read_are_written { CardsReadAreWritten }
{}

/// Any lines whose numbers have room in their columns, newlines included, are read as exactly those lines, in their order; and a line that
/// is read is what its numbers are written as (rule 14.6).
pub fn lines_come_back()
    ensures written_are_read { LinesWrittenAreRead }
    ensures read_is_written { LineReadIsWritten }
{}

/// What a card gives has room in as many bytes as `put_outcome` asks for, and never needs more than all timers and a quiet-end line do.
pub fn outcome_has_room()
    ensures { OutcomeHasRoom }
{}
