// The laws of the shift sheet, each a claim of specs/Claims or specs/Examples: `rows::sheet_of` is stated by the same definitions.

ghost use Rattle.shift_sheet.specs.Claims.{TotalsAreTables, HeldIsLeaseSet, GrantIsGrantSet, RowsHaveRoom, RowsWrittenAreRead, SheetIsRead, RowReadIsWritten, SheetLength, PrintedIsText, TotalsByLog, RefusedSkipped};
ghost use Rattle.shift_sheet.specs.Examples.{SmallSites, QuietAndDrift};

/// The totals are the counts of the tables: the first of the promises sent, the second of the active promises held; they are the sizes of the
/// lease set, and outside quiet time of the grant set (rule 15.2).
pub fn totals_are_tables()
    ensures tables { TotalsAreTables }
    ensures lease_set { HeldIsLeaseSet }
    ensures grant_set { GrantIsGrantSet }
{}

/// Of a record that is not refused each row has room in its columns, and what is printed is read back as its rows, in their order; a row that
/// is read is what its numbers are written as (rule 15.1).
pub fn rows_come_back()
    ensures room { RowsHaveRoom }
    ensures written_are_read { RowsWrittenAreRead }
    ensures sheet_is_read { SheetIsRead }
    ensures read_is_written { RowReadIsWritten }
{}

/// A sheet has a row for each peer and one for the totals, and has room in its bytes; those that are printed are its text (rule 15.1).
pub fn sheet_has_room()
    ensures length { SheetLength }
    ensures text { PrintedIsText }
{}

/// After any list of calls from an accepted set-up the last row is the log's, quiet starts and drift settings included (rule 15.3).
pub fn totals_by_log()
    ensures { TotalsByLog }
{}

/// A refused card leaves the sheet as it was (rules 10.31, 15.3).
pub fn refused_card_skipped()
    ensures { RefusedSkipped }
{}

/// Worked sheets (rule 20.1): the small site, one of population 1, and two in quiet time and under a drift of -50.
pub fn worked_sheets()
    ensures small_sites { SmallSites }
    ensures quiet_and_drift { QuietAndDrift }
{}
