// The operator tables (RULES O; operator.rs): one constant table of precedence levels over the token kinds, and what operator a kind stands for.
#![tactic(auto)]

ghost use Rattle.std.specs.Prelude.{◌≡◌, ◌*◌, ◌/◌, ◌%◌, ◌^◌, ◌<◌};
ghost use Rattle.operators.specs.Precedence.{level, expression_level};
ghost use Rattle.operators.specs.Operator.{binary_operator, unary_operator, logical_operator, update_operator, assignment_operator};

use tokens::kind;

// The precedence level of each kind byte, 0 for none: `??` 1, .., `**` 12. Follows `PRECEDENCE_TABLE`.
const PRECEDENCE_TABLE: [u8; 256] = [
    0, 0, 0, 8, 8, 0, 0, 0, 0, 0, 0, 0, 0, 0, 0, 0, 0, 0, 0, 0, 0, 0, 0, 0, 0, 0, 0, 0, 0, 0, 0, 0,
    0, 0, 0, 0, 0, 0, 1, 2, 3, 4, 5, 6, 7, 7, 7, 7, 8, 8, 8, 8, 8, 8, 9, 9, 9, 10, 10, 11, 11, 11,
    12, 0, 0, 0, 0, 0, 0, 0, 0, 0, 0, 0, 0, 0, 0, 0, 0, 0, 0, 0, 0, 0, 0, 0, 0, 0, 0, 0, 0, 0, 0,
    0, 0, 0, 0, 0, 0, 0, 0, 0, 0, 0, 0, 0, 0, 0, 0, 0, 0, 0, 0, 0, 0, 0, 0, 0, 0, 0, 0, 0, 0, 0, 0,
    0, 0, 0, 0, 0, 0, 0, 0, 0, 0, 0, 0, 0, 0, 0, 0, 0, 0, 0, 0, 0, 0, 0, 0, 0, 0, 0, 0, 0, 0, 0, 0,
    0, 0, 0, 0, 0, 0, 0, 0, 0, 0, 0, 0, 0, 0, 0, 0, 0, 0, 0, 0, 0, 0, 0, 0, 0, 0, 0, 0, 0, 0, 0, 0,
    0, 0, 0, 0, 0, 0, 0, 0, 0, 0, 0, 0, 0, 0, 0, 0, 0, 0, 0, 0, 0, 0, 0, 0, 0, 0, 0, 0, 0, 0, 0, 0,
    0, 0, 0, 0, 0, 0, 0, 0, 0, 0, 0, 0, 0, 0, 0, 0, 0, 0, 0, 0, 0, 0, 0, 0, 0, 0, 0, 0, 0, 0, 0, 0,
    0, 0, 0,
];

// The level of a kind, and 0 for a kind that is no operator: 0 and no `None` is the rule (RULES S6), and lies below every level. Follows `kind_to_precedence`.
pub fn kind_to_precedence(k: u8) -> u8
    ensures { result ≡ level k }
{
    PRECEDENCE_TABLE[usize::from(k)]
}

// The levels of the operators from `??` to `in`, four bits each, the lowest first: `??` 1, `||` 2, `&&` 3, `|` 4, `^` 5, `&` 6, four of equality 7, six of comparison 8.
const COALESCE_TO_IN_LEVELS: u64 = 0x8888_8877_7765_4321;

// The levels of the operators from `<<` to `**`, four bits each, the lowest first: three shifts 9, two of sums 10, three of products 11, `**` 12.
const SHIFT_TO_POWER_LEVELS: u64 = 0xc_bbba_a999;

// The level of a kind in an expression: As and Satisfies are no operators there. Follows `kind_to_precedence`.
pub fn expression_precedence(k: u8) -> u8
    ensures { result ≡ expression_level k }
{
    if k < kind::QUESTION2 {
        return 0;
    }
    if k <= kind::IN {
        return level_at(COALESCE_TO_IN_LEVELS, k - kind::QUESTION2);
    }
    if k <= kind::STAR2 {
        return level_at(SHIFT_TO_POWER_LEVELS, k - kind::SHIFT_LEFT);
    }
    0
}

// The four bits at a place of a word of levels.
fn level_at(levels: u64, place: u8) -> u8
    requires { place < 16 }
    ensures { result ≡ levels / 2 ^ (4 * place) % 16 }
{
    ((levels >> (4 * place)) % 16) as u8
}

// The binary operators (13.6 to 13.12).
#[derive(Clone, Copy, Debug, PartialEq, Eq)]
pub enum BinaryOperator {
    Equality,
    Inequality,
    StrictEquality,
    StrictInequality,
    LessThan,
    LessEqualThan,
    GreaterThan,
    GreaterEqualThan,
    ShiftLeft,
    ShiftRight,
    ShiftRightZeroFill,
    Addition,
    Subtraction,
    Multiplication,
    Division,
    Remainder,
    BitwiseOR,
    BitwiseXOR,
    BitwiseAnd,
    In,
    Instanceof,
    Exponential,
}

// The binary operator that a kind stands for, if any. Follows `map_binary_operator`.
#[tactic(auto, unfolding(crate::specs::Operator::look_up, crate::specs::Operator::binary_operator))]
pub fn map_binary_operator(k: u8) -> Option<BinaryOperator>
    ensures { result ≡ binary_operator k }
{
    match k {
        kind::EQ2 => Some(BinaryOperator::Equality),
        kind::NEQ => Some(BinaryOperator::Inequality),
        kind::EQ3 => Some(BinaryOperator::StrictEquality),
        kind::NEQ2 => Some(BinaryOperator::StrictInequality),
        kind::L_ANGLE => Some(BinaryOperator::LessThan),
        kind::LT_EQ => Some(BinaryOperator::LessEqualThan),
        kind::R_ANGLE => Some(BinaryOperator::GreaterThan),
        kind::GT_EQ => Some(BinaryOperator::GreaterEqualThan),
        kind::SHIFT_LEFT => Some(BinaryOperator::ShiftLeft),
        kind::SHIFT_RIGHT => Some(BinaryOperator::ShiftRight),
        kind::SHIFT_RIGHT3 => Some(BinaryOperator::ShiftRightZeroFill),
        kind::PLUS => Some(BinaryOperator::Addition),
        kind::MINUS => Some(BinaryOperator::Subtraction),
        kind::STAR => Some(BinaryOperator::Multiplication),
        kind::SLASH => Some(BinaryOperator::Division),
        kind::PERCENT => Some(BinaryOperator::Remainder),
        kind::PIPE => Some(BinaryOperator::BitwiseOR),
        kind::CARET => Some(BinaryOperator::BitwiseXOR),
        kind::AMP => Some(BinaryOperator::BitwiseAnd),
        kind::IN => Some(BinaryOperator::In),
        kind::INSTANCEOF => Some(BinaryOperator::Instanceof),
        kind::STAR2 => Some(BinaryOperator::Exponential),
        _ => None,
    }
}

// The unary operators (13.5).
#[derive(Clone, Copy, Debug, PartialEq, Eq)]
pub enum UnaryOperator {
    UnaryNegation,
    UnaryPlus,
    LogicalNot,
    BitwiseNot,
    Typeof,
    Void,
    Delete,
}

// The unary operator that a kind stands for, if any. Follows `map_unary_operator`.
#[tactic(auto, unfolding(crate::specs::Operator::look_up, crate::specs::Operator::unary_operator))]
pub fn map_unary_operator(k: u8) -> Option<UnaryOperator>
    ensures { result ≡ unary_operator k }
{
    match k {
        kind::MINUS => Some(UnaryOperator::UnaryNegation),
        kind::PLUS => Some(UnaryOperator::UnaryPlus),
        kind::BANG => Some(UnaryOperator::LogicalNot),
        kind::TILDE => Some(UnaryOperator::BitwiseNot),
        kind::TYPEOF => Some(UnaryOperator::Typeof),
        kind::VOID => Some(UnaryOperator::Void),
        kind::DELETE => Some(UnaryOperator::Delete),
        _ => None,
    }
}

// The logical operators (13.13).
#[derive(Clone, Copy, Debug, PartialEq, Eq)]
pub enum LogicalOperator {
    Or,
    And,
    Coalesce,
}

// The logical operator that a kind stands for, if any. Follows `map_logical_operator`.
#[tactic(auto, unfolding(crate::specs::Operator::look_up, crate::specs::Operator::logical_operator))]
pub fn map_logical_operator(k: u8) -> Option<LogicalOperator>
    ensures { result ≡ logical_operator k }
{
    match k {
        kind::PIPE2 => Some(LogicalOperator::Or),
        kind::AMP2 => Some(LogicalOperator::And),
        kind::QUESTION2 => Some(LogicalOperator::Coalesce),
        _ => None,
    }
}

// The update operators (13.4).
#[derive(Clone, Copy, Debug, PartialEq, Eq)]
pub enum UpdateOperator {
    Increment,
    Decrement,
}

// The update operator that a kind stands for, if any. Follows `map_update_operator`.
#[tactic(auto, unfolding(crate::specs::Operator::look_up, crate::specs::Operator::update_operator))]
pub fn map_update_operator(k: u8) -> Option<UpdateOperator>
    ensures { result ≡ update_operator k }
{
    match k {
        kind::PLUS2 => Some(UpdateOperator::Increment),
        kind::MINUS2 => Some(UpdateOperator::Decrement),
        _ => None,
    }
}

// The assignment operators (13.15).
#[derive(Clone, Copy, Debug, PartialEq, Eq)]
pub enum AssignmentOperator {
    Assign,
    Addition,
    Subtraction,
    Multiplication,
    Division,
    Remainder,
    ShiftLeft,
    ShiftRight,
    ShiftRightZeroFill,
    BitwiseOR,
    BitwiseXOR,
    BitwiseAnd,
    LogicalAnd,
    LogicalOr,
    LogicalNullish,
    Exponential,
}

// The assignment operator that a kind stands for, if any. Follows `map_assignment_operator`.
#[tactic(auto, unfolding(crate::specs::Operator::look_up, crate::specs::Operator::assignment_operator))]
pub fn map_assignment_operator(k: u8) -> Option<AssignmentOperator>
    ensures { result ≡ assignment_operator k }
{
    match k {
        kind::EQ => Some(AssignmentOperator::Assign),
        kind::PLUS_EQ => Some(AssignmentOperator::Addition),
        kind::MINUS_EQ => Some(AssignmentOperator::Subtraction),
        kind::STAR_EQ => Some(AssignmentOperator::Multiplication),
        kind::SLASH_EQ => Some(AssignmentOperator::Division),
        kind::PERCENT_EQ => Some(AssignmentOperator::Remainder),
        kind::SHIFT_LEFT_EQ => Some(AssignmentOperator::ShiftLeft),
        kind::SHIFT_RIGHT_EQ => Some(AssignmentOperator::ShiftRight),
        kind::SHIFT_RIGHT3_EQ => Some(AssignmentOperator::ShiftRightZeroFill),
        kind::PIPE_EQ => Some(AssignmentOperator::BitwiseOR),
        kind::CARET_EQ => Some(AssignmentOperator::BitwiseXOR),
        kind::AMP_EQ => Some(AssignmentOperator::BitwiseAnd),
        kind::AMP2_EQ => Some(AssignmentOperator::LogicalAnd),
        kind::PIPE2_EQ => Some(AssignmentOperator::LogicalOr),
        kind::QUESTION2_EQ => Some(AssignmentOperator::LogicalNullish),
        kind::STAR2_EQ => Some(AssignmentOperator::Exponential),
        _ => None,
    }
}
