// The limits, and the numbers of stops and refusals. specs/Reading/Limit.antt has the same.
// Stays numbers: a stop lies in the reader that C keeps, which may hold any; and `Answer` has a stop and a refusal by the number that the papers' table gives them.

// Operand readings, right sides of assignments and statement lists begun and unfinished.
pub const DEPTH: usize = 37;

// Words of a sheet: two for each of 65,536 tokens.
pub const LENGTH: usize = 131072;

// Errors that wait.
pub const QUEUE: usize = 96;

// Words of the store for each unread token.
pub const STORE_SHARE: usize = 16;

pub const MALFORMED: u64 = 60;

pub const BAD_READER: u64 = 61;

pub const TOO_DEEP: u64 = 62;

pub const SHORT_STORE: u64 = 63;

pub const QUEUE_FULL: u64 = 64;

pub const NO_STATEMENT: u64 = 65;

pub const SHORT_OUTPUT: u64 = 66;

// A break or continue that leads nowhere, with a label and without (document 02, P2).
pub const OFFENDER_LABELLED: u64 = 67;

pub const OFFENDER_UNLABELLED: u64 = 68;
