// The operators: which one a token is, its precedence level, and its number in a tree's record.
#![tactic(auto)]

ghost use Rattle.std.specs.Prelude.{◌≡◌, ◌≤◌, ◌<◌};
ghost use Rattle.operator.specs.Operator.{which_unary_op as which_unary_op_def, which_binary_op as which_binary_op_def, which_assignment_op as which_assignment_op_def, precedence_level as precedence_level_def, unary_number, binary_number, assignment_number, unary_code as unary_code_def, op_level as op_level_def, op_number as op_number_def, assign_code as assign_code_def};
ghost use Rattle.operator.specs.Table.{column_count, decision, faults};

pub mod table;

use table::{ASSIGNMENT, BINARY, LEVEL, TABLE, Table, UNARY};
use token::kind;

#[derive(Clone, Copy)]
pub enum UnaryOp {
    Neg,
    Pos,
    Inv,
    Not,
}

#[derive(Clone, Copy)]
pub enum BinaryOp {
    Mul,
    Div,
    Mod,
    Add,
    Sub,
    LShift,
    RShift,
    BitAnd,
    BitXor,
    BitOr,
    LT,
    GT,
    LE,
    GE,
    EQ,
    NE,
    And,
    Or,
}

// The level that binds the tightest is one above the end, the weakest is the start.
pub const PRECEDENCE_END: u64 = 0;

pub const PRECEDENCE_START: u64 = 10;

// An assignment is plain, or with the operator that is applied first.
// Stays an enum of its own and no Option: `which_assignment_op` would answer an Option of one, which says less.
#[derive(Clone, Copy)]
pub enum AssignmentOp {
    Plain,
    With(BinaryOp),
}

// Stays a function and no TryFrom, as the two below: the Rust names the three, and that a kind is none is an answer and no error.
#[tactic(auto, unfolding(crate::specs::Operator::which_unary_op))]
pub fn which_unary_op(kind: u64) -> Option<UnaryOp>
    ensures { result ≡ which_unary_op_def kind }
{
    match kind {
        kind::OP_ADD => Some(UnaryOp::Pos),
        kind::OP_SUB => Some(UnaryOp::Neg),
        kind::OP_INV => Some(UnaryOp::Inv),
        kind::NOT => Some(UnaryOp::Not),
        _ => None,
    }
}

#[tactic(auto, unfolding(crate::specs::Operator::which_binary_op))]
pub fn which_binary_op(kind: u64) -> Option<BinaryOp>
    ensures { result ≡ which_binary_op_def kind }
{
    match kind {
        kind::OP_MUL => Some(BinaryOp::Mul),
        kind::OP_DIV => Some(BinaryOp::Div),
        kind::OP_MOD => Some(BinaryOp::Mod),
        kind::OP_ADD => Some(BinaryOp::Add),
        kind::OP_SUB => Some(BinaryOp::Sub),
        kind::OP_LSHIFT => Some(BinaryOp::LShift),
        kind::OP_RSHIFT => Some(BinaryOp::RShift),
        kind::OP_AND => Some(BinaryOp::BitAnd),
        kind::OP_XOR => Some(BinaryOp::BitXor),
        kind::OP_OR => Some(BinaryOp::BitOr),
        kind::OP_LT => Some(BinaryOp::LT),
        kind::OP_GT => Some(BinaryOp::GT),
        kind::OP_LE => Some(BinaryOp::LE),
        kind::OP_GE => Some(BinaryOp::GE),
        kind::OP_EQ => Some(BinaryOp::EQ),
        kind::OP_NE => Some(BinaryOp::NE),
        kind::AND => Some(BinaryOp::And),
        kind::OR => Some(BinaryOp::Or),
        _ => None,
    }
}

#[tactic(auto, unfolding(crate::specs::Operator::which_assignment_op))]
pub fn which_assignment_op(kind: u64) -> Option<AssignmentOp>
    ensures { result ≡ which_assignment_op_def kind }
{
    match kind {
        kind::OP_ASSIGN => Some(AssignmentOp::Plain),
        kind::OP_ADD_ASSIGN => Some(AssignmentOp::With(BinaryOp::Add)),
        kind::OP_SUB_ASSIGN => Some(AssignmentOp::With(BinaryOp::Sub)),
        kind::OP_MUL_ASSIGN => Some(AssignmentOp::With(BinaryOp::Mul)),
        kind::OP_DIV_ASSIGN => Some(AssignmentOp::With(BinaryOp::Div)),
        kind::OP_MOD_ASSIGN => Some(AssignmentOp::With(BinaryOp::Mod)),
        kind::OP_AND_ASSIGN => Some(AssignmentOp::With(BinaryOp::BitAnd)),
        kind::OP_OR_ASSIGN => Some(AssignmentOp::With(BinaryOp::BitOr)),
        kind::OP_XOR_ASSIGN => Some(AssignmentOp::With(BinaryOp::BitXor)),
        kind::OP_LSHIFT_ASSIGN => Some(AssignmentOp::With(BinaryOp::LShift)),
        kind::OP_RSHIFT_ASSIGN => Some(AssignmentOp::With(BinaryOp::RShift)),
        _ => None,
    }
}

// From 1, the tightest, to 10.
pub fn precedence_level(op: BinaryOp) -> u64
    ensures { result ≡ precedence_level_def op }
{
    match op {
        BinaryOp::Mul | BinaryOp::Div | BinaryOp::Mod => 1,
        BinaryOp::Add | BinaryOp::Sub => 2,
        BinaryOp::LShift | BinaryOp::RShift => 3,
        BinaryOp::BitAnd => 4,
        BinaryOp::BitXor => 5,
        BinaryOp::BitOr => 6,
        BinaryOp::LT | BinaryOp::GT | BinaryOp::LE | BinaryOp::GE => 7,
        BinaryOp::EQ | BinaryOp::NE => 8,
        BinaryOp::And => 9,
        BinaryOp::Or => 10,
    }
}

// An operator's number is its place in its enum.
impl From<UnaryOp> for u64 {
    ghost from_gives = { λ op number. number ≡ unary_number op };

    fn from(op: UnaryOp) -> u64 {
        op as u64
    }
}

impl From<BinaryOp> for u64 {
    ghost from_gives = { λ op number. number ≡ binary_number op };

    fn from(op: BinaryOp) -> u64 {
        op as u64
    }
}

// An assignment's number is 0 if it is plain, else 1 + the number of its operator.
impl From<AssignmentOp> for u64 {
    ghost from_gives = { λ op number. number ≡ assignment_number op };

    fn from(op: AssignmentOp) -> u64 {
        match op {
            AssignmentOp::Plain => 0,
            AssignmentOp::With(op) => 1 + u64::from(op),
        }
    }
}

// The table, to be made once for a reading and lent: each use of the constant fills an array of its own.
pub fn operators() -> Table
    ensures { faults result ≡ 0 }
{
    TABLE
}

// What the table has for a token kind; 0 where the kind is above the last.
// Stays a number with 0 for none, as in the four functions below: so the table has it (document 02, P9). That it has no fault stays in each contract: it is lent, an
// array and no type of its own.
fn entry(table: &Table, kind: u64, column: usize) -> u64
    requires { (faults table.now ≡ 0) × (column < column_count) }
    ensures { result ≡ decision kind column }
{
    if kind::LEXER_ERROR < kind {
        return 0;
    }
    u64::from(table[kind as usize][column])
}

// 0 if a token kind is no unary operator, else 1 + its number.
pub fn unary_code(table: &Table, kind: u64) -> u64
    requires { faults table.now ≡ 0 }
    ensures { (result ≡ unary_code_def kind) × (result ≤ 4) }
{
    entry(table, kind, UNARY)
}

// The level of the binary operator that a token kind is, 0 if it is none.
pub fn op_level(table: &Table, kind: u64) -> u64
    requires { faults table.now ≡ 0 }
    ensures { result ≡ op_level_def kind }
{
    entry(table, kind, LEVEL)
}

// The number of the binary operator that a token kind is, 0 if it is none.
pub fn op_number(table: &Table, kind: u64) -> u64
    requires { faults table.now ≡ 0 }
    ensures { result ≡ op_number_def kind }
{
    let code = entry(table, kind, BINARY);
    if code == 0 {
        return 0;
    }
    code - 1
}

// 0 if a token kind is no assignment operator, 1 if it is the plain one, else 2 + the number of its binary operator.
pub fn assign_code(table: &Table, kind: u64) -> u64
    requires { faults table.now ≡ 0 }
    ensures { (result ≡ assign_code_def kind) × (result ≤ 11) }
{
    entry(table, kind, ASSIGNMENT)
}
