// The reader: a list of token bytes into a flat tree in lent memory (RULES X1, X2).
#![tactic(auto)]

ghost use Rattle.grammar.specs.Sheet.{sheet_of};
ghost use Rattle.grammar.specs.Lent.{read_entry, pattern_entry, Answers};

use build::cursor::Cursor;
use tokens::Sheet;
use tokens::cause::Answer;

pub mod frame;

// Where a reading begins: before the first token, with no row and no record.
const START: Cursor = Cursor {
    at: 0,
    rows: 0,
    records: 0,
};

// The reader: the list is one Expression, then end. Follows `parse_expression`.
pub fn read(kinds: &[u8], flags: &[u8], rows: &mut [u32], records: &mut [u32]) -> Answer
    ensures { Answers (read_entry (sheet_of kinds.now flags.now) rows.old records.old) rows.new records.new result }
{
    if let Err(cause) = frame::check(kinds, flags, rows, records) {
        return Answer::Refused(cause);
    }
    let sheet = Sheet { kinds, flags };
    let mut notes = [0u8; 2048]; // no head of the sheet has failed yet
    let got = parse::comma(&sheet, rows, records, &mut notes, START);
    frame::finish(kinds, rows, records, &notes, got)
}

// The pattern entry: the list is one binding with an optional initializer, then end.
// It differs from `read` in the one call that reads; a closure in its place would have to carry that call's contract, and be no plainer.
pub fn pattern(kinds: &[u8], flags: &[u8], rows: &mut [u32], records: &mut [u32]) -> Answer
    ensures { Answers (pattern_entry (sheet_of kinds.now flags.now) rows.old records.old) rows.new records.new result }
{
    if let Err(cause) = frame::check(kinds, flags, rows, records) {
        return Answer::Refused(cause);
    }
    let sheet = Sheet { kinds, flags };
    let mut notes = [0u8; 2048]; // no head of an initializer has failed yet
    let got = parse::element(&sheet, rows, records, &mut notes, START);
    frame::finish(kinds, rows, records, &notes, got)
}
