// The flat tree: rows of six words, kids before their parent (RULES R1, R2).
#![tactic(auto)]

ghost use Rattle.std.specs.Prelude.{length};
ghost use Rattle.rows.specs.Post.{RowFits, Pushed, RecordFits, PushedRecord, Word, RowInside, KindSet, Cleared};

pub mod row;

// Writes a row as the row n. Its words come one by one: each caller has them so, and a struct of them would be taken apart at once.
pub fn push_row(
    rows: &mut [u32],
    n: usize,
    kind: u32,
    mark: usize,
    first: usize,
    end: usize,
    kids: usize,
    size: usize,
)
    requires { RowFits (length rows.old) n mark first end kids size }
    ensures { Pushed rows.old n kind mark first end kids size rows.new }
{
    let i = 6 * n;
    rows[i..i + 6].copy_from_slice(&[
        kind,
        mark as u32,
        first as u32,
        end as u32,
        kids as u32,
        size as u32,
    ]);
}

// Writes a record, number and place, as the record n. A number and no enum: any number is promised to be written.
pub fn push_record(records: &mut [u32], n: usize, number: u32, place: usize)
    requires { RecordFits (length records.old) n place }
    ensures { PushedRecord records.old n number place records.new }
{
    let i = 2 * n;
    records[i..i + 2].copy_from_slice(&[number, place as u32]);
}

// A word of the row n, and 0 past the end, as `Word` promises for any words, row and word.
pub fn row_word(rows: &[u32], n: usize, word: usize) -> u32
    ensures { Word rows.now n word result }
{
    if rows.len() <= n || rows.len() <= word {
        return 0;
    }
    rows.get(6 * n + word).copied().unwrap_or(0)
}

// Makes the row n one of another kind.
pub fn set_kind(rows: &mut [u32], n: usize, kind: u32)
    requires { RowInside (length rows.old) n }
    ensures { KindSet rows.old n kind rows.new }
{
    rows[6 * n] = kind;
}

// Makes every word from a place on 0.
pub fn clear_from(words: &mut [u32], from: usize)
    ensures { Cleared words.old from words.new }
{
    if from < words.len() {
        words[from..].fill(0);
    }
}
