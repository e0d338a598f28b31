// Plans as numbers, for who keeps them as words: 16 times what a plan holds, and its kind (`plan::ARRAY` to `plan::NOT_LAST`).
ghost use Rattle.std.specs.Prelude.{◌≡◌, ◌<◌, ◌/◌, ◌^◌, ℕ, Bool};
ghost use Rattle.roles.specs.Meaning as means;
ghost use Rattle.roles.specs.Numbers as number;

use crate::plan;
use crate::plan::Plan;

// The last 32 bits of what a number holds: a word of a row or of a record.
fn word(held: usize) -> u32
    ensures { result ≡ number.word held }
{
    (held % 4294967296) as u32
}

// The comma that a number holds: none where it holds 0, and otherwise one at the place before.
fn held_comma(held: usize) -> Option<u32>
    ensures { means.commas result ≡ number.commas held }
{
    if held == 0 {
        return None;
    }
    Some(word(held - 1))
}

// What the number of a plan with this comma holds.
fn comma_held(comma: Option<u32>) -> usize
    ensures bound { result < 2 ^ 60 }
    ensures same { number.commas result ≡ means.commas comma }
{
    match comma {
        None => 0,
        Some(first) => first as usize + 1,
    }
}

// The number of a kind that holds this.
fn holding(kind: usize, held: usize) -> usize
    requires kind_bound { kind < 16 }
    requires held_bound { held < 2 ^ 60 }
    ensures { number.Coded kind held result }
{
    16 * held + kind
}

// The plan that a number stands for; what it holds is cut to a word where it is more.
#[tactic(auto, unfolding(crate::specs::Meaning::kid, crate::specs::Meaning::kind, crate::specs::Meaning::before, crate::specs::Meaning::after, crate::specs::Meaning::plan, crate::specs::Numbers::kid, crate::specs::Numbers::kind, crate::specs::Numbers::plan))]
pub fn to_plan(of: usize) -> Plan
    ensures kid { (last : Bool) → means.kid result last ≡ number.kid of last }
    ensures kind { means.kind result ≡ number.kind of }
    ensures plan { of / 16 < 2 ^ 32 → (begins : ℕ) → means.plan begins result ≡ number.plan begins of }
{
    let held = of / 16;
    match of % 16 {
        plan::ARRAY => Plan::Array(held_comma(held)),
        plan::OBJECT => Plan::Object(held_comma(held)),
        plan::PROPERTY => Plan::Property,
        plan::SHORTHAND => Plan::Shorthand,
        plan::SHORTHAND_INIT => Plan::ShorthandInit,
        plan::PAREN => Plan::Paren,
        plan::REST_IN_ARRAY => Plan::RestInArray(held_comma(held)),
        plan::REST_IN_OBJECT => Plan::RestInObject(held_comma(held)),
        plan::WRONG_REST => Plan::WrongRest(held_comma(held)),
        plan::KEEP => Plan::Keep(word(held)),
        plan::COMPOUND => Plan::Compound(word(held)),
        plan::NO_TARGET => Plan::NoTarget(word(held)),
        _ => Plan::NotLast(word(held)),
    }
}

// The number of a plan.
#[tactic(auto, unfolding(crate::specs::Meaning::kid, crate::specs::Meaning::kind, crate::specs::Meaning::before, crate::specs::Meaning::after, crate::specs::Meaning::plan, crate::specs::Numbers::plan))]
pub fn from_plan(of: Plan) -> usize
    ensures { (begins : ℕ) → number.plan begins result ≡ means.plan begins of }
{
    match of {
        Plan::Array(comma) => holding(plan::ARRAY, comma_held(comma)),
        Plan::Object(comma) => holding(plan::OBJECT, comma_held(comma)),
        Plan::Property => plan::PROPERTY,
        Plan::Shorthand => plan::SHORTHAND,
        Plan::ShorthandInit => plan::SHORTHAND_INIT,
        Plan::Paren => plan::PAREN,
        Plan::RestInArray(comma) => holding(plan::REST_IN_ARRAY, comma_held(comma)),
        Plan::RestInObject(comma) => holding(plan::REST_IN_OBJECT, comma_held(comma)),
        Plan::WrongRest(comma) => holding(plan::WRONG_REST, comma_held(comma)),
        Plan::Keep(kind) => holding(plan::KEEP, kind as usize),
        Plan::Compound(mark) => holding(plan::COMPOUND, mark as usize),
        Plan::NoTarget(place) => holding(plan::NO_TARGET, place as usize),
        Plan::NotLast(place) => holding(plan::NOT_LAST, place as usize),
    }
}
