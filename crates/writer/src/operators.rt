// The operators by the numbers that records hold: their levels and their tokens.
ghost use Rattle.std.specs.Prelude.{◌≡◌};
ghost use Rattle.tables.specs.Operators.{binary_of as binary_of_def, level as level_def};
ghost use Rattle.operator.specs.Operator.{op_token as op_token_def, unary_token as unary_token_def, assign_token as assign_token_def};
ghost use Rattle.grammar.specs.Canonical.Write.{keyword_of as keyword_of_def};
ghost use Rattle.writer.specs.Text.{token_in};

use operator::{BinaryOp, PRECEDENCE_START, precedence_level};
use token::kind;

// How many levels there are, and the last operator's number: classes and demands are computed from them.
pub const LEVELS: u64 = PRECEDENCE_START;

pub const LAST_BINARY: u64 = 17;

// Stays a function and no From: the type is crate operator's, which knows no numbers behind the last one; the tables take them for `or`.
#[tactic(auto, unfolding(tables::specs::Operators::binary_of))]
fn binary_of(number: u64) -> BinaryOp
    ensures { result ≡ binary_of_def number }
{
    match number {
        0 => BinaryOp::Mul,
        1 => BinaryOp::Div,
        2 => BinaryOp::Mod,
        3 => BinaryOp::Add,
        4 => BinaryOp::Sub,
        5 => BinaryOp::LShift,
        6 => BinaryOp::RShift,
        7 => BinaryOp::BitAnd,
        8 => BinaryOp::BitXor,
        9 => BinaryOp::BitOr,
        10 => BinaryOp::LT,
        11 => BinaryOp::GT,
        12 => BinaryOp::LE,
        13 => BinaryOp::GE,
        14 => BinaryOp::EQ,
        15 => BinaryOp::NE,
        16 => BinaryOp::And,
        _ => BinaryOp::Or,
    }
}

// From 1, the tightest, to LEVELS.
#[tactic(auto, unfolding(tables::specs::Operators::level))]
pub fn level(number: u64) -> u64
    ensures { result ≡ level_def number }
{
    precedence_level(binary_of(number))
}

#[tactic(auto, unfolding(operator::specs::Operator::op_token, crate::specs::Text::token_in))]
pub fn op_token(number: u64) -> Option<u64>
    ensures { result ≡ token_in (op_token_def number) }
{
    match number {
        0 => Some(kind::OP_MUL),
        1 => Some(kind::OP_DIV),
        2 => Some(kind::OP_MOD),
        3 => Some(kind::OP_ADD),
        4 => Some(kind::OP_SUB),
        5 => Some(kind::OP_LSHIFT),
        6 => Some(kind::OP_RSHIFT),
        7 => Some(kind::OP_AND),
        8 => Some(kind::OP_XOR),
        9 => Some(kind::OP_OR),
        10 => Some(kind::OP_LT),
        11 => Some(kind::OP_GT),
        12 => Some(kind::OP_LE),
        13 => Some(kind::OP_GE),
        14 => Some(kind::OP_EQ),
        15 => Some(kind::OP_NE),
        16 => Some(kind::AND),
        17 => Some(kind::OR),
        _ => None,
    }
}

#[tactic(auto, unfolding(operator::specs::Operator::unary_token, crate::specs::Text::token_in))]
pub fn unary_token(number: u64) -> Option<u64>
    ensures { result ≡ token_in (unary_token_def number) }
{
    match number {
        0 => Some(kind::OP_SUB),
        1 => Some(kind::OP_ADD),
        2 => Some(kind::OP_INV),
        3 => Some(kind::NOT),
        _ => None,
    }
}

// An assignment's token: the plain one, or at 1 + a binary operator's number the one with that operator.
#[tactic(auto, unfolding(operator::specs::Operator::assign_token, crate::specs::Text::token_in))]
pub fn assign_token(place: u64) -> Option<u64>
    ensures { result ≡ token_in (assign_token_def place) }
{
    match place {
        0 => Some(kind::OP_ASSIGN),
        1 => Some(kind::OP_MUL_ASSIGN),
        2 => Some(kind::OP_DIV_ASSIGN),
        3 => Some(kind::OP_MOD_ASSIGN),
        4 => Some(kind::OP_ADD_ASSIGN),
        5 => Some(kind::OP_SUB_ASSIGN),
        6 => Some(kind::OP_LSHIFT_ASSIGN),
        7 => Some(kind::OP_RSHIFT_ASSIGN),
        8 => Some(kind::OP_AND_ASSIGN),
        9 => Some(kind::OP_XOR_ASSIGN),
        10 => Some(kind::OP_OR_ASSIGN),
        _ => None,
    }
}

// The keyword of an action.
pub fn keyword_of(action: u64) -> u64
    ensures { result ≡ keyword_of_def action }
{
    match action {
        0 => kind::LOCAL,
        1 => kind::NONLOCAL,
        2 => kind::LET,
        _ => kind::VAR,
    }
}
