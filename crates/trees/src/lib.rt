// The check of a tree: whether words are a well-formed one, and its subtrees.
#![tactic(auto)]

ghost use Rattle.rows.specs.Part.{WellFormed, Decides};
ghost use Rattle.rows.specs.Handed.{HandedBack};

use rows::row_word;

pub mod shape;
mod table;
mod walk;

// A tree has at most so many words: 2,048 rows of six.
const MOST_WORDS: usize = 12288;

// Whether the words are a well-formed tree: at most 2,048 rows of listed kinds, with kids that may stand there and sizes that add up.
pub fn well_formed(words: &[u32]) -> bool
    ensures { Decides (WellFormed words.now) result }
{
    let length = words.len();
    if length == 0 || MOST_WORDS < length || length % 6 != 0 {
        return false;
    }
    let rows = length / 6;
    for n in 0..rows {
        if !walk::row_stands(words, n) {
            return false;
        }
    }
    row_word(words, rows - 1, 5) as usize == rows
}

// The caller's own words of the subtree that a row of a tree roots, and none if the tree is not well-formed or the row is outside.
// No words and no `None`: `HandedBack` promises where the empty part stands, and C is told its length.
pub fn subtree<'a>(tree: &'a [u32], row: usize) -> &'a [u32]
    ensures { HandedBack tree.entry row result }
{
    if !well_formed(tree) || tree.len() / 6 <= row {
        return &tree[..0];
    }
    let size = row_word(tree, row, 5) as usize;
    let low = 6 * (row + 1 - size);
    let high = 6 * (row + 1);
    &tree[low..high]
}
