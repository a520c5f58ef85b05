// The node kinds of a tree, as docs/TREE.md numbers them. specs/NodeKind.antt has the same.
// Stays numbers and no enum: a record that C lends may have any, and what decides by kinds answers for each number.
pub const ABSENT: u64 = 0;

pub const LIST: u64 = 1;

pub const EXPRESSION: u64 = 2;

pub const LOOP: u64 = 3;

pub const WHILE_LOOP: u64 = 4;

pub const FOR_LOOP: u64 = 5;

pub const ASSERT: u64 = 6;

pub const STMT_LIST: u64 = 7;

pub const CONTINUE: u64 = 8;

pub const BREAK: u64 = 9;

pub const RETURN: u64 = 10;

pub const PRIMARY: u64 = 11;

pub const UNARY_OP: u64 = 12;

pub const BINARY_OP: u64 = 13;

pub const ASSIGNMENT: u64 = 14;

pub const UNPACK: u64 = 15;

pub const TUPLE: u64 = 16;

pub const TABLE: u64 = 17;

pub const IF_EXPR: u64 = 18;

pub const BLOCK: u64 = 19;

pub const FUNCTION_DEF: u64 = 20;

pub const TABLE_ITEM: u64 = 21;

pub const EXPR_BLOCK: u64 = 22;

pub const CONDITIONAL_BRANCH: u64 = 23;

pub const SIGNATURE_DEF: u64 = 24;

pub const PARAM_DEF: u64 = 25;

pub const DEFAULT_DEF: u64 = 26;

pub const FIELD_ATTRIBUTE: u64 = 27;

pub const FIELD_INDEX: u64 = 28;

pub const NIL: u64 = 29;

pub const EMPTY_TUPLE: u64 = 30;

pub const IDENTIFIER: u64 = 31;

pub const BOOLEAN_LITERAL: u64 = 32;

pub const INTEGER_LITERAL: u64 = 33;

pub const FLOAT_LITERAL: u64 = 34;

pub const STRING_LITERAL: u64 = 35;

pub const GROUP: u64 = 36;

pub const ATTRIBUTE: u64 = 37;

pub const INDEX: u64 = 38;

pub const INVOKE: u64 = 39;

pub const INVOKE_TABLE: u64 = 40;

pub const IDENTIFIER_PATTERN: u64 = 41;

pub const ATTRIBUTE_PATTERN: u64 = 42;

pub const INDEX_PATTERN: u64 = 43;

pub const TUPLE_PATTERN: u64 = 44;

pub const PACK: u64 = 45;

pub const MODIFIER: u64 = 46;
