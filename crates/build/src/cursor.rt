// Where a reading is, and the few ways in which rows are written.
ghost use Rattle.std.specs.Prelude.{length};
ghost use Rattle.build.specs.Post.{Leafed, LeafRoom, Topped, TopRoom, Said, SayRoom};

// The place of the next token, and how many rows and records are used.
#[derive(Clone, Copy, Debug, PartialEq, Eq)]
pub struct Cursor {
    pub at: usize,
    pub rows: usize,
    pub records: usize,
}

// A row over the next token, with no kids.
pub fn leaf(rows: &mut [u32], c: Cursor, kind: u32) -> Cursor
    requires { LeafRoom (length rows.old) c }
    ensures { Leafed rows.old c kind rows.new result }
{
    rows::push_row(rows, c.rows, kind, c.at, c.at, c.at + 1, 0, 1);
    Cursor {
        at: c.at + 1,
        rows: c.rows + 1,
        ..c
    }
}

// A row over the rows from `from` on, which are `kids` trees, up to the place `end`.
pub fn over(
    rows: &mut [u32],
    c: Cursor,
    kind: u32,
    mark: usize,
    first: usize,
    end: usize,
    kids: usize,
    from: usize,
) -> Cursor
    requires { TopRoom (length rows.old) c mark first end kids from }
    ensures { Topped rows.old c kind mark first end kids from rows.new result }
{
    let n = c.rows;
    rows::push_row(rows, n, kind, mark, first, end, kids, n - from + 1);
    Cursor {
        at: end,
        rows: n + 1,
        ..c
    }
}

// A record is added, of any number as `rows::push_record` writes it. Stands for `error`.
pub fn say(records: &mut [u32], c: Cursor, number: u32, place: usize) -> Cursor
    requires { SayRoom (length records.old) c place }
    ensures { Said records.old c number place records.new result }
{
    let n = c.records;
    rows::push_record(records, n, number, place);
    Cursor {
        records: n + 1,
        ..c
    }
}
