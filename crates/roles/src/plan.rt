// What a row becomes in a conversion, and whether its kids become targets with it (RULES C).
ghost use Rattle.std.specs.Prelude.{◌≡◌};
ghost use Rattle.roles.specs.Meaning as means;

use rows::row;

// What a row becomes. An Array or an Object hands its comma to the plan of its rest: the literal's first token, where a comma stands
// after that rest.
#[derive(Clone, Copy, Debug, PartialEq, Eq)]
pub enum Plan {
    Array(Option<u32>),
    Object(Option<u32>),
    // a key and its value
    Property,
    Shorthand,
    ShorthandInit,
    Paren,
    // the rest of an array, with the Array's comma
    RestInArray(Option<u32>),
    // the rest of an object, with the Object's comma
    RestInObject(Option<u32>),
    // such a rest over an Array or Object
    WrongRest(Option<u32>),
    // this kind, over the same kids
    Keep(u32),
    // a TargetDefault of a CompoundAssign, at the operator's place
    Compound(u32),
    // refused at this place: no target
    NoTarget(u32),
    // refused at this place: a spread that is not last
    NotLast(u32),
}

impl Plan {
    // The plan of a row whose only kid is to be any target, or a simple one.
    pub fn aimed(simple: bool) -> Plan
        ensures { result ≡ means.aimed simple }
    {
        if simple {
            Plan::Paren
        } else {
            Plan::RestInArray(None)
        }
    }

    // The kind that a row of this plan gets.
    #[tactic(auto, unfolding(crate::specs::Meaning::kind))]
    pub fn kind(self) -> u32
        ensures { result ≡ means.kind self }
    {
        match self {
            Plan::Array(_) => row::TARGET_ARRAY,
            Plan::Object(_) => row::TARGET_OBJECT,
            Plan::Property => row::TARGET_PROPERTY,
            Plan::Shorthand => row::TARGET_SHORTHAND,
            Plan::ShorthandInit => row::TARGET_SHORTHAND_INIT,
            Plan::Paren => row::TARGET_PAREN,
            Plan::Keep(kind) => kind,
            Plan::Compound(_) => row::TARGET_DEFAULT,
            _ => row::TARGET_REST,
        }
    }

    // Whether no kid of the row becomes a target with it.
    pub fn is_alone(self) -> bool
        ensures { result ≡ means.alone self }
    {
        matches!(
            self,
            Plan::Keep(_) | Plan::Compound(_) | Plan::NoTarget(_) | Plan::NotLast(_)
        )
    }
}

// A plan can be written as a number, 16 times what it holds and one of these: so `roles::aim_at`, `roles::kind_of` and `plans::plan_of` take
// and give it. Kids of a row of the first nine become targets too.

// an Array or Object; it holds 0, or one more than the first token where a comma stands after its rest
pub const ARRAY: usize = 0;

pub const OBJECT: usize = 1;
// a key and its value
pub const PROPERTY: usize = 2;

pub const SHORTHAND: usize = 3;

pub const SHORTHAND_INIT: usize = 4;

pub const PAREN: usize = 5;
// the rest of an array; it holds what the Array does
pub const REST_IN_ARRAY: usize = 6;
// the rest of an object; it holds what the Object does
pub const REST_IN_OBJECT: usize = 7;
// such a rest over an Array or Object
pub const WRONG_REST: usize = 8;
// another kind over the same kids; it holds the kind
pub const KEEP: usize = 9;
// a TargetDefault of a CompoundAssign; it holds the operator's place
pub const COMPOUND: usize = 10;
// refused: no target; it holds the place
pub const NO_TARGET: usize = 11;
// refused: a spread that is not last; it holds the place
pub const NOT_LAST: usize = 12;
