// The numbers of the errors, in the order of document 01's table, and 0 for the end. grammar's specs/Reading/Number.antt has the same.
// Stays numbers and no enum: an error waits among the words of the reader that C keeps, and any number that stands there is answered.
// No statement is left at the top level: on its way like an error, and answered as the end.
pub const END: u64 = 0;

pub const LEXER_ERROR: u64 = 1;

pub const END_OF_TOKENS: u64 = 2;

pub const CONTINUE_NOT_ALLOWED: u64 = 10;

pub const BREAK_NOT_ALLOWED: u64 = 11;

pub const RETURN_NOT_ALLOWED: u64 = 12;

pub const ELLIPSIS_NOT_ALLOWED: u64 = 13;

pub const LABEL_ALONE: u64 = 14;

pub const MISSING_DO: u64 = 15;

pub const CANNOT_ASSIGN: u64 = 16;

pub const CONTINUE_NOT_LAST: u64 = 17;

pub const BREAK_NOT_LAST: u64 = 18;

pub const RETURN_NOT_LAST: u64 = 19;

pub const LET_ALONE: u64 = 20;

pub const VAR_ALONE: u64 = 21;

pub const LOCAL_ALONE: u64 = 22;

pub const NONLOCAL_ALONE: u64 = 23;

pub const NESTED_ELLIPSIS: u64 = 24;

pub const MISSING_THEN: u64 = 25;

pub const FUNCTION_TARGET: u64 = 26;

pub const PARAMS_OPENING: u64 = 27;

pub const PARAMS_CLOSING: u64 = 28;

pub const INVALID_PARAM: u64 = 29;

pub const VARIADIC_DEFAULT: u64 = 30;

pub const VARIADIC_NOT_LAST: u64 = 31;

pub const PARAM_ORDER: u64 = 32;

pub const MISSING_ASSIGN: u64 = 33;

pub const TABLE_CLOSING: u64 = 34;

pub const NAME_AFTER_VAR: u64 = 35;

pub const NAME_AFTER_LET: u64 = 36;

pub const INVALID_FIELD: u64 = 37;

pub const MEMBER_NAME: u64 = 38;

pub const INDEX_CLOSING: u64 = 39;

pub const ARGUMENTS_CLOSING: u64 = 40;

pub const CLASS_NEEDS_PARENS: u64 = 41;

pub const FUN_NEEDS_PARENS: u64 = 42;

pub const LET_NEEDS_PARENS: u64 = 43;

pub const VAR_NEEDS_PARENS: u64 = 44;

pub const BEGIN_NEEDS_PARENS: u64 = 45;

pub const OTHER_NEEDS_PARENS: u64 = 46;

pub const UNMATCHED_PAREN: u64 = 47;

pub const UNMATCHED_SQUARE: u64 = 48;

pub const UNMATCHED_BRACE: u64 = 49;

pub const NO_EXPRESSION: u64 = 50;

pub const GROUP_CLOSING: u64 = 51;

pub const CLASS_DEFINITION: u64 = 52;
