// The token kinds: their places in the enum `Token` of the Rust, and after them the lexer error. specs/Kind.antt has the same numbers.
// Stays numbers and no enum: a kind lies in a word that C lends, which may be any, and what decides by kinds answers for each number.
pub const OPEN_PAREN: u64 = 0;

pub const CLOSE_PAREN: u64 = 1;

pub const OPEN_BRACE: u64 = 2;

pub const CLOSE_BRACE: u64 = 3;

pub const OPEN_SQUARE: u64 = 4;

pub const CLOSE_SQUARE: u64 = 5;

pub const COMMA: u64 = 6;

pub const COLON: u64 = 7;

pub const SEMICOLON: u64 = 8;

pub const ELLIPSIS: u64 = 9;

pub const DECORATOR: u64 = 10;

pub const OP_ADD: u64 = 11;

pub const OP_SUB: u64 = 12;

pub const OP_MUL: u64 = 13;

pub const OP_DIV: u64 = 14;

pub const OP_MOD: u64 = 15;

pub const OP_EXP: u64 = 16;

pub const OP_INV: u64 = 17;

pub const OP_AND: u64 = 18;

pub const OP_OR: u64 = 19;

pub const OP_XOR: u64 = 20;

pub const OP_LSHIFT: u64 = 21;

pub const OP_RSHIFT: u64 = 22;

pub const OP_ADD_ASSIGN: u64 = 23;

pub const OP_SUB_ASSIGN: u64 = 24;

pub const OP_MUL_ASSIGN: u64 = 25;

pub const OP_DIV_ASSIGN: u64 = 26;

pub const OP_MOD_ASSIGN: u64 = 27;

pub const OP_AND_ASSIGN: u64 = 28;

pub const OP_OR_ASSIGN: u64 = 29;

pub const OP_XOR_ASSIGN: u64 = 30;

pub const OP_LSHIFT_ASSIGN: u64 = 31;

pub const OP_RSHIFT_ASSIGN: u64 = 32;

pub const OP_LT: u64 = 33;

pub const OP_LE: u64 = 34;

pub const OP_GT: u64 = 35;

pub const OP_GE: u64 = 36;

pub const OP_EQ: u64 = 37;

pub const OP_NE: u64 = 38;

pub const OP_ASSIGN: u64 = 39;

pub const OP_ACCESS: u64 = 40;

pub const AND: u64 = 41;

pub const OR: u64 = 42;

pub const NOT: u64 = 43;

pub const TRUE: u64 = 44;

pub const FALSE: u64 = 45;

pub const NIL: u64 = 46;

pub const LET: u64 = 47;

pub const VAR: u64 = 48;

pub const LOCAL: u64 = 49;

pub const NONLOCAL: u64 = 50;

pub const DEL: u64 = 51;

pub const IF: u64 = 52;

pub const THEN: u64 = 53;

pub const ELIF: u64 = 54;

pub const ELSE: u64 = 55;

pub const BEGIN: u64 = 56;

pub const LOOP: u64 = 57;

pub const WHILE: u64 = 58;

pub const FOR: u64 = 59;

pub const IN: u64 = 60;

pub const DO: u64 = 61;

pub const CONTINUE: u64 = 62;

pub const BREAK: u64 = 63;

pub const RETURN: u64 = 64;

pub const FUN: u64 = 65;

pub const CLASS: u64 = 66;

pub const ASSERT: u64 = 67;

pub const END: u64 = 68;

pub const IDENTIFIER: u64 = 69;

pub const STRING_LITERAL: u64 = 70;

pub const INTEGER_LITERAL: u64 = 71;

pub const FLOAT_LITERAL: u64 = 72;

pub const LABEL: u64 = 73;

pub const COMMENT: u64 = 74;

pub const EOF: u64 = 75;

pub const LEXER_ERROR: u64 = 76;
