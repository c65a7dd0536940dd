// The shift sheet (section 15): a row for each peer, and a last row with the totals. Definitions in specs/Sheet.

ghost use Rattle.std.specs.Prelude.{ℕ, List, ◌*◌, ◌≤◌, ◌≡◌, [], length, IfOk};
ghost use Rattle.lease.specs.Bitmaps.{capacity};
ghost use Rattle.lease.specs.RecordCheck.{record_valid};
ghost use Rattle.refusals.specs.Fits.{ManagerFits};
ghost use Rattle.card_text.specs.Lines.{laid};
ghost use Rattle.card_stream.specs.Reader.{session_of};
ghost use Rattle.shift_sheet.specs.CardCalls.{calls_of};
ghost use Rattle.shift_sheet.specs.Claims.{PrintedByLog};
ghost use Rattle.shift_sheet.specs.Sheet.{grant_state, held_state, side_timer, side_left, peer_row, rows_of_peers, total_row, row_text, rows_text, row_bytes, sheet_bytes, sheet_text, printed};
ghost use Rattle.shift_sheet.specs.Sheet.{sheet_on as Sheet·sheet_on};
ghost use Rattle.shift_sheet.specs.Sheet.{sheet_of as Sheet·sheet_of};

use card_stream::session::Session;
use card_text::columns::put_column;
use lease::{Manager, Peer, ROWS, Reading, Refusal, Timer};
use peer_rows::each_row::{Granted, Leased};
use peer_rows::pass::sets_over;
use refusals::records::check_record;
use timer::read::left_ms;

// How long a row is, in bytes, with its newline.
const ROW: usize = 27;

// The room of a sheet, in bytes: as many rows as there are ids.
const ROOM: usize = ROW * ROWS;

/// The five numbers of a row, in the order of their columns (rule 15.1). Those of a peer; the last row has in the same fields population,
/// number of grants, 0, number of leases, 0 (rule 15.2).
#[derive(Clone, Copy)]
pub struct SheetRow {
    /// The peer's id.
    pub id: u64,
    /// 0 no grant, 1 a guard, 2 a promise, 3 a promise being revoked.
    pub grant: u64,
    /// Ms left of its timer.
    pub grant_left: u64,
    /// 0 nothing held, 1 a guard, 2 a promise.
    pub held: u64,
    /// Ms left of its timer.
    pub held_left: u64,
}

/// A sheet as it is printed: the first `length` bytes.
#[derive(Drop)]
pub struct Sheet {
    pub length: usize,
    pub bytes: [u8; ROOM],
}

// ---- one peer

// 0 none, 1 guard, 2 promise, 3 promise being revoked.
fn grant_state(guard: Option<Timer>, promise: Option<(Timer, bool)>) -> u64
    ensures { result ≡ grant_state guard promise }
{
    match (guard, promise) {
        (_, Some((_, true))) => 3,
        (_, Some((_, false))) => 2,
        (Some(_), None) => 1,
        (None, None) => 0,
    }
}

// 0 none, 1 guard, 2 promise.
fn held_state(guard: Option<Timer>, promise: Option<Timer>) -> u64
    ensures { result ≡ held_state guard promise }
{
    match (guard, promise) {
        (_, Some(_)) => 2,
        (Some(_), None) => 1,
        (None, None) => 0,
    }
}

// The timer of one side: of its promise if there is one, else of its guard.
fn side_timer(guard: Option<Timer>, promise: Option<Timer>) -> Option<Timer>
    ensures { result ≡ side_timer guard promise }
{
    promise.or(guard)
}

// Ms left, rounded up: 0 for an unarmed or exploded timer or none (rule 4.6).
fn side_left(now: Reading, timer: Option<Timer>) -> u64
    ensures { result ≡ side_left now timer }
{
    timer.map_or(0, |t| left_ms(now, t))
}

// The row of the peer with that id.
#[tactic(auto, unfolding(crate::specs::Sheet::peer_row))]
fn peer_row(now: Reading, id: usize, row: Peer) -> SheetRow
    requires { id ≤ capacity }
    ensures { result ≡ peer_row now id row }
{
    let promise_sent = row.promise_sent.map(|(timer, _)| timer);
    SheetRow {
        id: id as u64,
        grant: grant_state(row.guard_sent, row.promise_sent),
        grant_left: side_left(now, side_timer(row.guard_sent, promise_sent)),
        held: held_state(row.guard_held, row.promise_held),
        held_left: side_left(now, side_timer(row.guard_held, row.promise_held)),
    }
}

// ---- the totals: how many promises are sent, how many that are held are active

#[tactic(auto, using(crate::proofs::Totals::granted_rows, crate::proofs::Totals::leased_rows), unfolding(crate::specs::Sheet::total_row, lease::specs::Passes::pass_over))]
fn total_row(m: &Manager) -> SheetRow
    requires { m.now.population ≤ capacity }
    ensures { result ≡ total_row m.entry.now }
{
    SheetRow {
        id: m.population as u64,
        grant: sets_over(&m.peers, m.me, m.population, &Granted).count,
        grant_left: 0,
        held: sets_over(&m.peers, m.me, m.population, &Leased { now: m.now }).count,
        held_left: 0,
    }
}

// ---- as bytes

// A row with its newline.
#[tactic(auto, unfolding(crate::specs::Sheet::row_text, crate::specs::Sheet::row_columns))]
fn row_text(r: SheetRow) -> [u8; ROW]
    ensures { result ≡ row_text r }
{
    let mut text = [b'\n'; ROW];
    let (id, text_left) = text.split_at_mut(4);
    let (grant, text_left) = text_left.split_at_mut(3);
    let (grant_left, text_left) = text_left.split_at_mut(8);
    let (held, text_left) = text_left.split_at_mut(3);
    let (held_left, _newline) = text_left.split_at_mut(8);
    put_column(id, r.id);
    put_column(grant, r.grant);
    put_column(grant_left, r.grant_left);
    put_column(held, r.held);
    put_column(held_left, r.held_left);
    text
}

// Puts a row at the start of `out`, as the two below put theirs; each answers how many bytes it is.
#[tactic(auto, using(crate::proofs::Text::length_row))]
fn put_row(out: &mut [u8], r: SheetRow) -> usize
    requires { row_bytes ≤ length out.old }
    ensures value { result ≡ length (row_text r) }
    ensures out_after { out.new ≡ laid (row_text r) out.old }
{
    let text = row_text(r);
    out[..ROW].copy_from_slice(&text);
    ROW
}

// The rows of the peers, by id.
#[tactic(auto, using(crate::proofs::Text::own_skipped, crate::proofs::Text::row_more, crate::proofs::Text::below_length, crate::proofs::Text::peers_length, card_text::proofs::LineText::laid_behind), unfolding(crate::specs::Sheet::rows_below, crate::specs::Sheet::rows_text))]
fn put_peers(out: &mut [u8], m: &Manager) -> usize
    requires population_le_capacity { m.now.population ≤ capacity }
    requires room { row_bytes * m.now.population ≤ length out.old }
    ensures value { result ≡ length (rows_text (rows_of_peers m.entry.now)) }
    ensures out_after { out.new ≡ laid (rows_text (rows_of_peers m.entry.now)) out.old }
{
    let mut written: usize = 0;
    for (i, row) in m.peers[..m.population].iter().enumerate() {
        if i != m.me {
            written += put_row(&mut out[written..], peer_row(m.now, i, *row));
        }
    }
    written
}

// All rows: the peers', and the last one.
#[tactic(auto, using(crate::proofs::Text::sheet_parts, crate::proofs::Text::sheet_length, crate::proofs::Text::peers_length, card_text::proofs::LineText::laid_behind))]
fn put_sheet(out: &mut [u8], m: &Manager) -> usize
    requires fits { ManagerFits m.now }
    requires room { sheet_bytes ≤ length out.old }
    ensures value { result ≡ length (sheet_text m.entry.now) }
    ensures out_after { out.new ≡ laid (sheet_text m.entry.now) out.old }
{
    let written = put_peers(out, m);
    written + put_row(&mut out[written..], total_row(m))
}

// The sheet of a record.
#[tactic(auto, using(crate::proofs::Text::sheet_room), unfolding(crate::specs::Sheet::printed))]
fn print_sheet(m: &Manager) -> Sheet
    requires { ManagerFits m.now }
    ensures value { result ≡ printed (sheet_text m.entry.now) }
    ensures in_bounds { result.length ≤ sheet_bytes }
{
    let mut bytes = [0; ROOM];
    let length = put_sheet(&mut bytes, m);
    Sheet { length, bytes }
}

#[tactic(auto, unfolding(crate::specs::Sheet::printed))]
fn empty_sheet() -> Sheet
    ensures value { result ≡ printed [] }
    ensures in_bounds { result.length ≤ sheet_bytes }
{
    Sheet {
        length: 0,
        bytes: [0; ROOM],
    }
}

// The sheet of a record, empty where there is none; a record that fails the check is refused with 15.
#[tactic(auto, unfolding(crate::specs::Sheet::sheet_on))]
fn sheet_on(manager: &Option<Manager>) -> Result<Sheet, Refusal>
    ensures value { result ≡ Sheet·sheet_on manager.now }
    ensures in_bounds { IfOk result (λ sheet. sheet.length ≤ sheet_bytes) }
{
    let Some(m) = manager else {
        return Ok(empty_sheet());
    };
    check_record(m)?;
    Ok(print_sheet(m))
}

/// The sheet of the session that cards left: empty without an accepted set-up. Of a session that an input has led to it is never refused, its
/// rows are those of the rules' record, and its totals those of the log (rule 15.3); of any other, a record that fails the check is refused
/// with 15.
pub fn sheet_of(session: &Session) -> Result<Sheet, Refusal>
    ensures value { result ≡ Sheet·sheet_of session.now }
    ensures in_bounds { IfOk result (λ sheet. sheet.length ≤ sheet_bytes) }
    ensures beside_log { (input : List ℕ) → session.now ≡ session_of input → PrintedByLog result (calls_of input) }
{
    sheet_on(&session.manager)
}
