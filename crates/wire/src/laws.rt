// What is claimed of the definitions, each topic the contract of a function that does nothing.

ghost use Rattle.wire.specs.Claims.{ThereAndBack, FlatIsRecord, BackAndThere, WrittenIsRead, ReadIsWritten, CardNumbers, CallNumbers};

/// The flat record loses nothing: each manager's record becomes one that is read back as itself, and each flat record of the
/// form becomes a manager's that is written as itself (rule 13.1).
pub fn flat_record_loses_nothing()
    ensures there_and_back { ThereAndBack }
    ensures is_record { FlatIsRecord }
    ensures back_and_there { BackAndThere }
{}

/// An event that a card can carry is read back from its card, and a card is written again from its event (rule 14.6).
pub fn cards_say_events()
    ensures written_is_read { WrittenIsRead }
    ensures read_is_written { ReadIsWritten }
{}

/// The numbers of the refusals of a card (rules 10.21 to 10.23) and of a call from the host (rules 10.15, 10.22).
pub fn refusals_have_numbers()
    ensures card { CardNumbers }
    ensures call { CallNumbers }
{}
