// First words of records: the kind of a node + CHILD for each of its children. A list has no child here: CHILD for each is added.
// Stays numbers: they are words of memory that C lends.
use crate::node;

pub const CHILD: u64 = 256;

pub const ABSENT: u64 = node::ABSENT;

pub const LIST: u64 = node::LIST;

pub const EXPRESSION: u64 = node::EXPRESSION + CHILD;

pub const LOOP: u64 = node::LOOP + CHILD;

pub const WHILE_LOOP: u64 = node::WHILE_LOOP + 2 * CHILD;

pub const FOR_LOOP: u64 = node::FOR_LOOP + 3 * CHILD;

pub const ASSERT: u64 = node::ASSERT + CHILD;

pub const STMT_LIST: u64 = node::STMT_LIST + 2 * CHILD;

pub const CONTINUE: u64 = node::CONTINUE;

pub const BREAK: u64 = node::BREAK + CHILD;

pub const RETURN: u64 = node::RETURN + CHILD;

pub const PRIMARY: u64 = node::PRIMARY + 2 * CHILD;

pub const UNARY_OP: u64 = node::UNARY_OP + CHILD;

pub const BINARY_OP: u64 = node::BINARY_OP + 2 * CHILD;

pub const ASSIGNMENT: u64 = node::ASSIGNMENT + 2 * CHILD;

pub const UNPACK: u64 = node::UNPACK + CHILD;

pub const TUPLE: u64 = node::TUPLE + CHILD;

pub const TABLE: u64 = node::TABLE + CHILD;

pub const IF_EXPR: u64 = node::IF_EXPR + 2 * CHILD;

pub const BLOCK: u64 = node::BLOCK + CHILD;

pub const FUNCTION_DEF: u64 = node::FUNCTION_DEF + 2 * CHILD;

pub const TABLE_ITEM: u64 = node::TABLE_ITEM + 2 * CHILD;

pub const EXPR_BLOCK: u64 = node::EXPR_BLOCK + 2 * CHILD;

pub const CONDITIONAL_BRANCH: u64 = node::CONDITIONAL_BRANCH + 2 * CHILD;

pub const SIGNATURE_DEF: u64 = node::SIGNATURE_DEF + 3 * CHILD;

pub const PARAM_DEF: u64 = node::PARAM_DEF;

pub const DEFAULT_DEF: u64 = node::DEFAULT_DEF + CHILD;

pub const FIELD_ATTRIBUTE: u64 = node::FIELD_ATTRIBUTE;

pub const FIELD_INDEX: u64 = node::FIELD_INDEX + CHILD;

pub const NIL: u64 = node::NIL;

pub const EMPTY_TUPLE: u64 = node::EMPTY_TUPLE;

pub const IDENTIFIER: u64 = node::IDENTIFIER;

pub const BOOLEAN_LITERAL: u64 = node::BOOLEAN_LITERAL;

pub const INTEGER_LITERAL: u64 = node::INTEGER_LITERAL;

pub const FLOAT_LITERAL: u64 = node::FLOAT_LITERAL;

pub const STRING_LITERAL: u64 = node::STRING_LITERAL;

pub const GROUP: u64 = node::GROUP + CHILD;

pub const ATTRIBUTE: u64 = node::ATTRIBUTE;

pub const INDEX: u64 = node::INDEX + CHILD;

pub const INVOKE: u64 = node::INVOKE + CHILD;

pub const INVOKE_TABLE: u64 = node::INVOKE_TABLE + CHILD;

pub const IDENTIFIER_PATTERN: u64 = node::IDENTIFIER_PATTERN;

pub const ATTRIBUTE_PATTERN: u64 = node::ATTRIBUTE_PATTERN + CHILD;

pub const INDEX_PATTERN: u64 = node::INDEX_PATTERN + 2 * CHILD;

pub const TUPLE_PATTERN: u64 = node::TUPLE_PATTERN + CHILD;

pub const PACK: u64 = node::PACK + CHILD;

pub const MODIFIER: u64 = node::MODIFIER + CHILD;
