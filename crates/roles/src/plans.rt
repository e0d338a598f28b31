// What a row becomes, by what it is and by what the row over it becomes (RULES C).
ghost use Rattle.std.specs.Prelude.{◌≡◌};
ghost use Rattle.conversion.specs.Conversion as def;
ghost use Rattle.roles.specs.Meaning as means;
ghost use Rattle.roles.specs.Numbers as number;

use crate::plan::Plan;
use crate::{Seen, numbers};
use rows::row;

// An Array or Object, with or without a comma after its closing spread. Follows a part of `SimpleAssignmentTarget::cover`.
fn is_array_or_object(kind: u32) -> bool
    ensures { result ≡ def.is_array_or_object kind }
{
    row::ARRAY <= kind && kind <= row::OBJECT_REST_COMMA
}

// The row is of a kind and has so many kids.
fn is_with(seen: Seen, kind: u32, kids: u32) -> bool
    ensures { result ≡ def.is_with (means.seen seen) kind kids }
{
    seen.kind == kind && seen.kids == kids
}

// The row is of a kind and its last kid is a Spread. Follows a part of `ArrayAssignmentTarget::cover` and of `ObjectAssignmentTarget::cover`.
fn is_closed(seen: Seen, kind: u32) -> bool
    ensures { result ≡ def.is_closed (means.seen seen) kind }
{
    seen.kind == kind && seen.last == row::SPREAD
}

// Name, Member, Index, or a Paren over a simple target. Follows `SimpleAssignmentTarget::cover`.
// All else is 9, at the row's first token. Stands for `invalid_assignment`.
#[tactic(auto, unfolding(crate::specs::Meaning::plan, crate::specs::Meaning::kind, crate::specs::Meaning::before, crate::specs::Meaning::after, crate::specs::Meaning::kid, conversion::specs::Conversion::as_simple))]
fn as_simple(seen: Seen) -> Plan
    ensures { means.plan seen.begins result ≡ def.as_simple (means.seen seen) }
{
    if seen.kind == row::IDENTIFIER {
        return Plan::Keep(row::TARGET_NAME);
    }
    if seen.kind == row::MEMBER {
        return Plan::Keep(row::TARGET_MEMBER);
    }
    if seen.kind == row::INDEX {
        return Plan::Keep(row::TARGET_INDEX);
    }
    if is_with(seen, row::PAREN, 1) {
        if is_array_or_object(seen.last) {
            return Plan::NoTarget(seen.first);
        }
        return Plan::Paren;
    }
    Plan::NoTarget(seen.first)
}

// An Array or Object; otherwise a simple target. Follows `AssignmentTarget::cover`.
#[tactic(auto, unfolding(crate::specs::Meaning::plan, crate::specs::Meaning::kind, crate::specs::Meaning::before, crate::specs::Meaning::after, crate::specs::Meaning::kid, conversion::specs::Conversion::as_any))]
fn as_any(seen: Seen) -> Plan
    ensures { means.plan seen.begins result ≡ def.as_any (means.seen seen) }
{
    if seen.kind == row::ARRAY {
        return Plan::Array(None);
    }
    if is_closed(seen, row::ARRAY_REST_COMMA) {
        return Plan::Array(Some(seen.first));
    }
    if seen.kind == row::OBJECT {
        return Plan::Object(None);
    }
    if is_closed(seen, row::OBJECT_REST_COMMA) {
        return Plan::Object(Some(seen.first));
    }
    as_simple(seen)
}

// Assign becomes TargetDefault; CompoundAssign too, with record 5 at its operator.
// Follows `AssignmentTargetMaybeDefault::cover` and `AssignmentTargetWithDefault::cover`.
#[tactic(auto, unfolding(crate::specs::Meaning::plan, crate::specs::Meaning::before, conversion::specs::Conversion::as_value))]
fn as_value(seen: Seen) -> Plan
    ensures { means.plan seen.begins result ≡ def.as_value (means.seen seen) }
{
    if seen.kind == row::ASSIGN {
        return Plan::Keep(row::TARGET_DEFAULT);
    }
    if seen.kind == row::COMPOUND_ASSIGN {
        return Plan::Compound(seen.mark);
    }
    as_any(seen)
}

// A Hole stays. Follows a part of `ArrayAssignmentTarget::cover`.
// A Spread that is not last is 10, at the row's first token. Stands for `spread_last_element`.
#[tactic(auto, unfolding(crate::specs::Meaning::plan, conversion::specs::Conversion::as_element))]
fn as_element(seen: Seen) -> Plan
    ensures { means.plan seen.begins result ≡ def.as_element (means.seen seen) }
{
    if seen.kind == row::HOLE {
        return Plan::Keep(row::HOLE);
    }
    if seen.kind == row::SPREAD {
        return Plan::NotLast(seen.first);
    }
    as_value(seen)
}

// A last Spread is a rest: the argument, then record 4. An argument that is a target is never a wrong one here.
// Follows a part of `ArrayAssignmentTarget::cover`.
#[tactic(auto, unfolding(crate::specs::Meaning::plan, crate::specs::Meaning::kind, crate::specs::Meaning::before, crate::specs::Meaning::after, crate::specs::Meaning::kid, conversion::specs::Conversion::as_last_element))]
fn as_last_element(comma: Option<u32>, seen: Seen) -> Plan
    ensures { means.plan seen.begins result ≡ def.as_last_element (means.commas comma) (means.seen seen) }
{
    if is_with(seen, row::SPREAD, 1) {
        return Plan::RestInArray(comma);
    }
    as_element(seen)
}

// A shorthand, a shorthand with an initializer, or a key with its value. Follows `AssignmentTargetProperty::cover` and a part of
// `ObjectAssignmentTarget::cover`. A Spread that is not last is 10, all else 9, at the row's first token.
// Stands for `invalid_assignment` and `spread_last_element`.
#[tactic(auto, unfolding(crate::specs::Meaning::plan, crate::specs::Meaning::kind, crate::specs::Meaning::before, crate::specs::Meaning::after, crate::specs::Meaning::kid, conversion::specs::Conversion::as_property))]
fn as_property(seen: Seen) -> Plan
    ensures { means.plan seen.begins result ≡ def.as_property (means.seen seen) }
{
    if is_with(seen, row::SHORTHAND, 1) {
        return Plan::Shorthand;
    }
    if is_with(seen, row::SHORTHAND_INIT, 2) {
        return Plan::ShorthandInit;
    }
    if is_with(seen, row::PROPERTY, 2) {
        return Plan::Property;
    }
    if seen.kind == row::SPREAD {
        return Plan::NotLast(seen.first);
    }
    Plan::NoTarget(seen.first)
}

// A last Spread is a rest: record 3 where its argument is an Array or Object, record 4, the argument.
// Follows a part of `ObjectAssignmentTarget::cover`.
#[tactic(auto, unfolding(crate::specs::Meaning::plan, crate::specs::Meaning::kind, crate::specs::Meaning::before, crate::specs::Meaning::after, crate::specs::Meaning::kid, conversion::specs::Conversion::as_last_property))]
fn as_last_property(comma: Option<u32>, seen: Seen) -> Plan
    ensures { means.plan seen.begins result ≡ def.as_last_property (means.commas comma) (means.seen seen) }
{
    if is_with(seen, row::SPREAD, 1) {
        if is_array_or_object(seen.last) {
            return Plan::WrongRest(comma);
        }
        return Plan::RestInObject(comma);
    }
    as_property(seen)
}

// The name of a shorthand. Follows a part of `AssignmentTargetProperty::cover`.
// All else is 9, at the row's first token. Stands for `invalid_assignment`.
#[tactic(auto, unfolding(crate::specs::Meaning::plan, conversion::specs::Conversion::as_name))]
fn as_name(seen: Seen) -> Plan
    ensures { means.plan seen.begins result ≡ def.as_name (means.seen seen) }
{
    if seen.kind == row::IDENTIFIER {
        return Plan::Keep(row::TARGET_NAME);
    }
    Plan::NoTarget(seen.first)
}

impl Plan {
    // What a row becomes as a kid, the last one or not, of a row of the plan `under`. Follows `CoverGrammar::cover`.
    #[tactic(auto, unfolding(crate::specs::Meaning::plan, crate::specs::Meaning::kid, conversion::specs::Conversion::change))]
    pub fn of_kid(under: Plan, last: bool, seen: Seen) -> Plan
        ensures { means.plan seen.begins result ≡ def.change (means.kid under «last») (means.seen seen) }
    {
        match under {
            Plan::Array(comma) => if last {
                as_last_element(comma, seen)
            } else {
                as_element(seen)
            },
            Plan::Object(comma) => if last {
                as_last_property(comma, seen)
            } else {
                as_property(seen)
            },
            Plan::Property => if last {
                as_value(seen)
            } else {
                Plan::Keep(seen.kind)
            },
            Plan::Shorthand => as_name(seen),
            Plan::ShorthandInit => if last {
                Plan::Keep(seen.kind)
            } else {
                as_name(seen)
            },
            Plan::Paren => as_simple(seen),
            _ => as_any(seen),
        }
    }
}

// The number of what a row becomes as a kid, the last one or not, of a row whose plan is the number `under`.
pub fn plan_of(under: usize, last: bool, seen: Seen) -> usize
    ensures { number.plan seen.begins result ≡ def.change (number.kid under «last») (means.seen seen) }
{
    numbers::from_plan(Plan::of_kid(numbers::to_plan(under), last, seen))
}
