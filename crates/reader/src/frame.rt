// What stands around a reading: the checks 1 to 7 before it, and after it the last pass for record 8 and what is left in both lent buffers.
ghost use Rattle.std.specs.Prelude.{◌≤◌, ◌≡◌, length};
ghost use Rattle.rows.specs.Post.{GrownRecords};
ghost use Rattle.grammar.specs.Reading.{noted_places};
ghost use Rattle.grammar.specs.Lent.{check_room, Ready};
ghost use Rattle.laws.specs.Promises.{Fine};
ghost use Rattle.reader.specs.Post.{Within, unconverted_row, unconverted_rows, LastRowRoom, LastRoom, Checks, CameOut, Emptied, Finished};

use build::cursor::Cursor;
use tokens::cause::{Answer, Cause, Counts};
use tokens::checks;

// Whether so many words are lent for each token: check 3 of the rows, check 4 of the records.
fn check_room(kinds: &[u8], words: &[u32], each: usize, cause: Cause) -> Result<(), Cause>
    requires tokens_bound { length kinds.now ≤ 2048 }
    requires each_bound { each ≤ 6 }
    ensures { result ≡ check_room kinds.now words.now each cause }
{
    if words.len() < each * kinds.len() {
        return Err(cause);
    }
    Ok(())
}

// The checks 1 to 7, in this order.
#[tactic(auto, using(grammar::proofs::Checked::short_enough), unfolding(grammar::specs::Lent::checks, grammar::specs::Lent::check_row_room, grammar::specs::Lent::check_record_room))]
pub fn check(kinds: &[u8], flags: &[u8], rows: &[u32], records: &[u32]) -> Result<(), Cause>
    ensures { Checks kinds.now flags.now rows.now records.now result }
{
    checks::check_length(kinds)?;
    checks::check_flag_length(kinds, flags)?;
    check_room(kinds, rows, 6, Cause::RowRoom(0))?;
    check_room(kinds, records, 2, Cause::RecordRoom(0))?;
    checks::check_flags(flags)?;
    checks::check_kinds(kinds)?;
    checks::check_nesting(kinds)
}

// How many places are noted: a note is 0 or 1, and 0 from the end of the list on.
#[tactic(auto, using(crate::proofs::Last::notes_left, crate::proofs::Last::none_left))]
fn noted(notes: &[u8; 2048], tokens: usize) -> usize
    requires fine { Fine notes.now }
    requires within { Within tokens notes.now }
    requires tokens_bound { tokens ≤ 2048 }
    ensures { result ≡ noted_places notes.now }
{
    let mut count: u16 = 0;
    for &note in &notes[..tokens] {
        count += u16::from(note);
    }
    usize::from(count)
}

// Record 8 of a row: a ShorthandInit that was never converted, at its mark. The answer is how many records there are then.
// Follows a part of `check_unfinished_errors`.
#[tactic(auto, using(rows::proofs::Records::grown_record, rows::proofs::Records::grown_records_none), unfolding(crate::specs::Post::unconverted_row))]
fn unconverted_row(rows: &[u32], records: &mut [u32], n: usize, used: usize) -> usize
    requires { LastRowRoom rows.now (length records.old) n used }
    ensures { GrownRecords records.old used records.new result (unconverted_row rows.now n) }
{
    let i = 6 * n;
    if rows[i] != rows::row::SHORTHAND_INIT {
        return used;
    }
    let mark = rows[i + 1];
    rows::push_record(records, used, 8, mark as usize);
    used + 1
}

// Record 8 of the first n rows, in row order. Follows `check_unfinished_errors`.
fn unconverted(rows: &[u32], records: &mut [u32], n: usize, used: usize) -> usize
    requires { LastRoom rows.now (length records.old) n used }
    ensures { GrownRecords records.old used records.new result (unconverted_rows rows.now 0 n) }
{
    let mut here = used;
    for at in 0..n {
        here = unconverted_row(rows, records, at, here);
    }
    here
}

// A refusal 8 to 12: every word of both buffers is 0.
fn refuse(rows: &mut [u32], records: &mut [u32], cause: Cause) -> Answer
    ensures { Emptied rows.old records.old cause rows.new records.new result }
{
    rows::clear_from(rows, 0);
    rows::clear_from(records, 0);
    Answer::Refused(cause)
}

// What is left when a reading ends: refused, every word of both buffers is 0; read, the words past the used ones are 0.
// Follows a part of `parse_expression`.
pub fn finish(
    kinds: &[u8],
    rows: &mut [u32],
    records: &mut [u32],
    notes: &[u8; 2048],
    got: Result<Cursor, Cause>,
) -> Answer
    requires ready { Ready kinds.now rows.old records.old }
    requires came_out { CameOut kinds.now rows.old records.old notes.now got }
    ensures { Finished kinds.now rows.old records.old notes.now got rows.new records.new result }
{
    match got {
        Err(cause) => refuse(rows, records, cause),
        Ok(d) => {
            let end = d.at;
            if end != kinds.len() {
                return refuse(rows, records, Cause::Unexpected(end));
            }
            let n = d.rows;
            let used = unconverted(rows, records, n, d.records);
            rows::clear_from(rows, 6 * n);
            rows::clear_from(records, 2 * used);
            Answer::Read(Counts {
                rows: n,
                records: used,
                abandoned: noted(notes, end),
            })
        }
    }
}
