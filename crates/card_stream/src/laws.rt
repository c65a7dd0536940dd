// The laws of sessions, of reading and of printing, each a claim of specs/Claims: the functions of this crate are stated by the same
// definitions.

ghost use Rattle.card_stream.specs.Claims.{RefusedCardKeeps, CardNumbersTold, ReadInChunks, SessionOfWhole, PrintedInChunks, PrintedOfWhole, TakenWithRoom};

/// A refused card is counted, and changes nothing else in the session (rules 10.31, 14.5).
pub fn refused_card_keeps()
    ensures { RefusedCardKeeps }
{}

/// The number that a card is refused with, whether `take_card` answers it or a line 20 prints it (rules 14.3, 10.30).
pub fn cards_have_numbers()
    ensures { CardNumbersTold }
{}

/// Where a chunk ends changes nothing: any input, read in any chunks, leaves the session that its cards leave (rule 14.5).
pub fn chunks_read_alike()
    ensures anywhere { ReadInChunks }
    ensures whole { SessionOfWhole }
{}

/// Where a chunk ends changes nothing: any input, fed in any chunks, prints the lines of its cards, in their order (rules 14.4, 14.5).
pub fn chunks_print_alike()
    ensures anywhere { PrintedInChunks }
    ensures whole { PrintedOfWhole }
{}

/// A chunk is taken whole where there is room for its lines, and behind them for the most that a card gives (rule 14.5).
pub fn chunk_is_taken()
    ensures { TakenWithRoom }
{}
