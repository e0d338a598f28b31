// The answers that the box can show: read, with its counts, or refused, with a cause that carries its place (RULES A1 to A14).
ghost use Rattle.std.specs.Prelude.{◌≡◌};
ghost use Rattle.tokens.specs.Cause.{number, place};

use std::fmt;

// Why a list or a tree is refused. Each case carries its place.
#[derive(Clone, Copy, Debug, PartialEq, Eq)]
pub enum Cause {
    // 1: no tokens, or over 2,048 (a tree: no words, or over 12,288)
    Length(usize),
    // 2: a flag list of another length
    FlagLength(usize),
    // 3: fewer than 6 words lent per token
    RowRoom(usize),
    // 4: fewer than 2 record words per token (conversion: per row of the subtree)
    RecordRoom(usize),
    // 5: a flag not 0 or 1
    Flag(usize),
    // 6: kind 0 or above 78
    Kind(usize),
    // 7: over 64 brackets open
    Nesting(usize),
    // 8: a token that no rule allows here, or the end
    Unexpected(usize),
    // 9: not an assignment target
    Target(usize),
    // 10: a spread before the last element of a target
    Spread(usize),
    // 11: an object binding rest that is not a bare name
    RestName(usize),
    // 12: a binding rest not followed by its closing token
    RestLast(usize),
    // 13: a tree that is not well-formed, or words not a multiple of 6
    Tree(usize),
    // 14: a place or row outside
    Outside(usize),
}

// What a reading counts.
#[derive(Clone, Copy, Debug, PartialEq, Eq)]
pub struct Counts {
    pub rows: usize,
    pub records: usize,
    pub abandoned: usize,
}

// The answer of an entry: an enum of this project, with these two cases (RULES S2).
#[derive(Clone, Copy, Debug, PartialEq, Eq)]
pub enum Answer {
    Read(Counts),
    Refused(Cause),
}

impl Cause {
    // The number of a cause in RULES A.
    pub fn number(self) -> u32
        ensures { result ≡ number self }
    {
        match self {
            Cause::Length(_) => 1,
            Cause::FlagLength(_) => 2,
            Cause::RowRoom(_) => 3,
            Cause::RecordRoom(_) => 4,
            Cause::Flag(_) => 5,
            Cause::Kind(_) => 6,
            Cause::Nesting(_) => 7,
            Cause::Unexpected(_) => 8,
            Cause::Target(_) => 9,
            Cause::Spread(_) => 10,
            Cause::RestName(_) => 11,
            Cause::RestLast(_) => 12,
            Cause::Tree(_) => 13,
            Cause::Outside(_) => 14,
        }
    }

    // The place that a cause carries.
    pub fn place(self) -> usize
        ensures { result ≡ place self }
    {
        match self {
            Cause::Length(place)
            | Cause::FlagLength(place)
            | Cause::RowRoom(place)
            | Cause::RecordRoom(place)
            | Cause::Flag(place)
            | Cause::Kind(place)
            | Cause::Nesting(place)
            | Cause::Unexpected(place)
            | Cause::Target(place)
            | Cause::Spread(place)
            | Cause::RestName(place)
            | Cause::RestLast(place)
            | Cause::Tree(place)
            | Cause::Outside(place) => place,
        }
    }
}

// A cause as the box prints it: its number and its place.
impl fmt::Display for Cause {
    fn fmt<W: fmt::Write>(&self, f: &mut fmt::Formatter<W>) -> fmt::Result {
        write!(f, "{} {}", self.number(), self.place())
    }
}

// Counts as the box prints them: rows, records and abandoned heads.
impl fmt::Display for Counts {
    fn fmt<W: fmt::Write>(&self, f: &mut fmt::Formatter<W>) -> fmt::Result {
        write!(f, "{} {} {}", self.rows, self.records, self.abandoned)
    }
}
