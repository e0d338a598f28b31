// The check of a tree, row by row: the kids of a row are found from the last to the first, since a kid's root stands just below
// its next sibling's first row.
ghost use Rattle.std.specs.Prelude.{◌≤◌};
ghost use Rattle.rows.specs.Part.{Decides, Stands, Before, KidsStand, LastKind, KidFits};

use crate::shape;
use rows::row_word;

// The kind of a row's last kid, and 0 if it has none.
fn last_kind(words: &[u32], row: usize) -> u32
    requires { Stands words.now row }
    ensures { LastKind words.now row result }
{
    if row_word(words, row, 4) == 0 {
        return 0;
    }
    row_word(words, row - 1, 0)
}

// Whether a row may be a kid of a row of this kind, with so many kids before it and after it.
fn kid_fits(words: &[u32], row: usize, kind: u32, before: u64, after: u64) -> bool
    requires { Stands words.now row }
    ensures { KidFits words.now row kind before after result }
{
    let kid = row_word(words, row, 0);
    let last = last_kind(words, row);
    shape::fits(kind, before, after, kid, last)
}

// Whether the rows from low on, up to row, are so many trees that may stand as the kids of a row of this kind.
fn kids_stand(words: &[u32], row: usize, kind: u32, kids: u64, low: usize) -> bool
    requires before { Before words.now row }
    requires low_le_row { low ≤ row }
    ensures { Decides (KidsStand words.now kind kids low row) result }
{
    let mut top = row;
    for after in 0..kids {
        if top <= low {
            return false;
        }
        let size = row_word(words, top - 1, 5) as usize;
        if top - low < size || !kid_fits(words, top - 1, kind, kids - 1 - after, after) {
            return false;
        }
        top -= size;
    }
    top == low
}

// Whether a row roots a well-formed tree, where each row before it does.
pub fn row_stands(words: &[u32], row: usize) -> bool
    requires { Before words.now row }
    ensures { Decides (Stands words.now row) result }
{
    let kind = row_word(words, row, 0);
    let kids = u64::from(row_word(words, row, 4));
    let size = row_word(words, row, 5) as usize;
    if !shape::is_enough(kind, kids) || size == 0 || row + 1 < size {
        return false;
    }
    kids_stand(words, row, kind, kids, row + 1 - size)
}
