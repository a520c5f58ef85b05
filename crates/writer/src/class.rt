// Which trees a clean reading can give, node by node. Three numbers decide.
//
// THE MODE of a node is what of its children is not said by its own record (mode.rt).
//
// THE CLASS of a node is what it can stand as. It follows from its kind, value and mode. Expressions come first, the tightest first: a place
// takes those up to some class. A list's class is that of its members, the last one's, + LISTS.
//
// THE DEMAND of a place, of the child number j of a node, from 1, is which classes it takes. It follows from the node's kind, value, mode and j
// (demand.rt).
//
// The rest is tested apart: a record's own numbers (sound.rt), and what no class says: the token that a tree begins with, and whether it ends
// in a tuple of one member (edges.rt).
// Stays kind and value apart, here and where a table is asked: the definitions take them so, and where a place is asked too there is `Head`.
// Stays a number: a class is computed (from a level, of a list), compared by order and kept in lent words. So does a mode, for most kinds a count, a kind, a name
// or an action of the records.
ghost use Rattle.std.specs.Prelude.{◌≡◌};
ghost use Rattle.tables.specs.Class.{binary_class as binary_class_def, keyword_class as keyword_class_def, named_class as named_class_def, assignment_class as assignment_class_def, body_class as body_class_def, later_class as later_class_def, class as class_def, default_list as default_list_def, plain_list as plain_list_def, argument_list as argument_list_def, list_class as list_class_def};

use crate::mode;
use crate::operators::{LEVELS, level};
use crate::target::{NOT_GIVEN, UNNAMED};
use tree::node;

// `...` alone.
pub const LONE: u64 = 1;

// A primary with a path.
pub const PRIMARY: u64 = 2;

pub const ATOM: u64 = 3;

// What else binds tighter than operators, `fun` with a target included.
pub const TIGHT: u64 = 4;

// A unary operator; a binary one is that + its level.
pub const UNARY: u64 = 5;

pub const LAST_OPERATOR: u64 = UNARY + LEVELS;

pub const TUPLE: u64 = LAST_OPERATOR + 1;

// An assignment without a keyword, and one with a keyword.
pub const LOCAL: u64 = LAST_OPERATOR + 2;

pub const KEYWORD: u64 = LAST_OPERATOR + 3;

// An assignment that `fun` gives only under a group's modifier.
pub const GIVEN: u64 = LAST_OPERATOR + 4;

// A primary without a path.
pub const BARE: u64 = LAST_OPERATOR + 5;

// A function with a name in its signature.
pub const NAMED: u64 = LAST_OPERATOR + 6;

pub const ABSENT: u64 = LAST_OPERATOR + 7;

pub const PATTERN: u64 = LAST_OPERATOR + 8;

pub const STATEMENT: u64 = LAST_OPERATOR + 9;

pub const CONTROL: u64 = LAST_OPERATOR + 10;

// An access item.
pub const ITEM: u64 = LAST_OPERATOR + 11;

pub const FIELD: u64 = LAST_OPERATOR + 12;

pub const TABLE_ITEM: u64 = LAST_OPERATOR + 13;

pub const PARAM: u64 = LAST_OPERATOR + 14;

pub const DEFAULT: u64 = LAST_OPERATOR + 15;

pub const SIGNATURE: u64 = LAST_OPERATOR + 16;

pub const BRANCH: u64 = LAST_OPERATOR + 17;

// An `ExprBlock`.
pub const BLOCK: u64 = LAST_OPERATOR + 18;

// A `StmtList` without control whose last statement is an expression; any other without control; one with control.
pub const OPEN_BODY: u64 = LAST_OPERATOR + 19;

pub const PLAIN_BODY: u64 = LAST_OPERATOR + 20;

pub const ENDED_BODY: u64 = LAST_OPERATOR + 21;

// A list of members of a class from PATTERN on, which is added.
pub const LISTS: u64 = 40;

// A list of nothing.
pub const EMPTY: u64 = 50;

// A list of operands.
pub const OPERANDS: u64 = 51;

// A list of one assignment that is no operand.
pub const ARGUMENT: u64 = 52;

// No place takes it.
pub const NOTHING: u64 = 99;

#[tactic(auto, unfolding(tables::specs::Class::binary_class))]
fn binary_class(value: u64) -> u64
    ensures { result ≡ binary_class_def value }
{
    UNARY + level(value)
}

// An assignment by its own keyword.
#[tactic(auto, unfolding(tables::specs::Class::keyword_class, tables::specs::Choice::where_zero))]
fn keyword_class(value: u64) -> u64
    ensures { result ≡ keyword_class_def value }
{
    if value % 4 == 0 { LOCAL } else { KEYWORD }
}

// One that `fun` with a target gives, and the signature has the target's name: `let` by itself, the others only under a group's modifier.
#[tactic(auto, unfolding(tables::specs::Class::named_class))]
fn named_class(value: u64) -> u64
    ensures { result ≡ named_class_def value }
{
    if value == 2 {
        return TIGHT;
    }
    if value < 4 {
        return GIVEN;
    }
    keyword_class(value)
}

// An assignment with the mode that function_form gives.
#[tactic(auto, unfolding(tables::specs::Class::assignment_class, tables::specs::Choice::where_is))]
fn assignment_class(value: u64, mode: u64) -> u64
    ensures { result ≡ assignment_class_def value mode }
{
    match mode {
        NOT_GIVEN => keyword_class(value),
        UNNAMED => if value == 2 {
            TIGHT
        } else {
            keyword_class(value)
        },
        _ => named_class(value),
    }
}

#[tactic(auto, unfolding(tables::specs::Class::body_class))]
fn body_class(mode: u64) -> u64
    ensures { result ≡ body_class_def mode }
{
    match mode {
        mode::OPEN => OPEN_BODY,
        mode::PLAIN => PLAIN_BODY,
        _ => ENDED_BODY,
    }
}

// Atoms, access items and patterns.
#[tactic(auto, unfolding(tables::specs::Class::later_class))]
fn later_class(kind: u64) -> u64
    ensures { result ≡ later_class_def kind }
{
    if kind <= node::GROUP {
        return ATOM;
    }
    if kind <= node::INVOKE_TABLE {
        return ITEM;
    }
    if kind <= node::MODIFIER {
        return PATTERN;
    }
    NOTHING
}

#[tactic(auto, unfolding(tables::specs::Class::class, tables::specs::Choice::where_zero))]
pub fn class(kind: u64, value: u64, mode: u64) -> u64
    ensures { result ≡ class_def kind value mode }
{
    match kind {
        node::ABSENT => ABSENT,
        node::LIST => mode,
        node::EXPRESSION => STATEMENT,
        node::LOOP => STATEMENT,
        node::WHILE_LOOP => STATEMENT,
        node::FOR_LOOP => STATEMENT,
        node::ASSERT => STATEMENT,
        node::STMT_LIST => body_class(mode),
        node::CONTINUE => CONTROL,
        node::BREAK => CONTROL,
        node::RETURN => CONTROL,
        node::PRIMARY => if mode == 0 { BARE } else { PRIMARY },
        node::UNARY_OP => UNARY,
        node::BINARY_OP => binary_class(value),
        node::ASSIGNMENT => assignment_class(value, mode),
        node::UNPACK => if mode == 0 { LONE } else { TIGHT },
        node::TUPLE => TUPLE,
        node::TABLE => TIGHT,
        node::IF_EXPR => TIGHT,
        node::BLOCK => TIGHT,
        node::FUNCTION_DEF => if mode == 0 { TIGHT } else { NAMED },
        node::TABLE_ITEM => TABLE_ITEM,
        node::EXPR_BLOCK => BLOCK,
        node::CONDITIONAL_BRANCH => BRANCH,
        node::SIGNATURE_DEF => SIGNATURE,
        node::PARAM_DEF => PARAM,
        node::DEFAULT_DEF => DEFAULT,
        node::FIELD_ATTRIBUTE => FIELD,
        node::FIELD_INDEX => FIELD,
        _ => later_class(kind),
    }
}

// A list of n defaults: of these there is one at most.
#[tactic(auto, unfolding(tables::specs::Class::default_list))]
fn default_list(n: u64) -> u64
    ensures { result ≡ default_list_def n }
{
    if 1 < n {
        return NOTHING;
    }
    LISTS + DEFAULT
}

// A list of n members that are no expressions, the last one of the class c.
#[tactic(auto, unfolding(tables::specs::Class::plain_list))]
fn plain_list(n: u64, c: u64) -> u64
    ensures { result ≡ plain_list_def n c }
{
    if LISTS <= c {
        return NOTHING;
    }
    if c == DEFAULT {
        return default_list(n);
    }
    LISTS + c
}

// A list of one expression that is no operand.
#[tactic(auto, unfolding(tables::specs::Class::argument_list))]
fn argument_list(c: u64) -> u64
    ensures { result ≡ argument_list_def c }
{
    match c {
        LOCAL => ARGUMENT,
        KEYWORD => ARGUMENT,
        _ => NOTHING,
    }
}

// A list of n members, the last one of the class c.
#[tactic(auto, unfolding(tables::specs::Class::list_class))]
pub fn list_class(n: u64, c: u64) -> u64
    ensures { result ≡ list_class_def n c }
{
    if n == 0 {
        return EMPTY;
    }
    if c <= LAST_OPERATOR {
        return OPERANDS;
    }
    if PATTERN <= c {
        return plain_list(n, c);
    }
    if n == 1 {
        return argument_list(c);
    }
    NOTHING
}
