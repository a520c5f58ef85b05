// Which classes a place takes. A demand is least + 100 × most + 10,000 × other: it takes the classes from least to most, and the class
// «other» where that is not 0 (Absent, the empty list, or another that stands apart).
// Stays a number: tried as a struct of the two and an Option, proved, the check of labels of sums takes 0.96 to 1.05 of the time of commit 1d7870e, where 1 is the bar (the mean of
// six layouts, several runs); with the number 0.90 to 0.94.
ghost use Rattle.std.specs.Prelude.{◌≡◌};
ghost use Rattle.tables.specs.Demand.{of_members as of_members_def, left_side as left_side_def, right_side as right_side_def, assigned as assigned_def, inside as inside_def, defaults as defaults_def, first_demand as first_demand_def, second_demand as second_demand_def, third_demand as third_demand_def, demand as demand_def, fits as fits_def};

use crate::class;
use crate::mode::BOTH;
use crate::operators::level;
use crate::target::NOT_GIVEN;
use tree::node;

// Any expression, or Absent; the same but for `...` alone, as in a statement.
const EXPR: u64 = class::LONE + 100 * class::KEYWORD;

const EXPR_OR_ABSENT: u64 = EXPR + 10000 * class::ABSENT;

const STATED: u64 = class::PRIMARY + 100 * class::KEYWORD;

const STATED_OR_ABSENT: u64 = STATED + 10000 * class::ABSENT;

// A member of a tuple, an argument of several, a table's value.
const OPERAND: u64 = class::LONE + 100 * class::LAST_OPERATOR;

// Under a unary operator.
const UNARY: u64 = class::LONE + 100 * class::UNARY;

// What binds tighter than operators.
const TIGHT: u64 = class::LONE + 100 * class::TIGHT;

// An atom, alone or with a path, or Absent; an atom; a primary with or without a path.
const PRIMARY_OR_ABSENT: u64 = class::PRIMARY + 100 * class::ATOM + 10000 * class::ABSENT;

const ATOM: u64 = 101 * class::ATOM;

const RECEIVER: u64 = 101 * class::PRIMARY + 10000 * class::BARE;

// Inside a group without modifier; under a modifier what is no assignment, and what is one of its action.
const GROUPED: u64 = class::LONE + 100 * class::LOCAL;

const UNASSIGNED: u64 = class::LONE + 100 * class::TUPLE;

const GIVEN: u64 = class::LONE + 100 * class::GIVEN;

// Any expression, or a function with a name; a plain assignment, as the only argument.
const EXPR_OR_NAMED: u64 = EXPR + 10000 * class::NAMED;

const ASSIGNMENT: u64 = class::LOCAL + 100 * class::KEYWORD;

const PATTERN: u64 = 101 * class::PATTERN;

const PATTERN_OR_ABSENT: u64 = PATTERN + 10000 * class::ABSENT;

const CONTROL_OR_ABSENT: u64 = 101 * class::CONTROL + 10000 * class::ABSENT;

const FIELD: u64 = 101 * class::FIELD;

const PARAM_OR_ABSENT: u64 = 101 * class::PARAM + 10000 * class::ABSENT;

const SIGNATURE: u64 = 101 * class::SIGNATURE;

const BLOCK: u64 = 101 * class::BLOCK;

const BLOCK_OR_ABSENT: u64 = BLOCK + 10000 * class::ABSENT;

// A statement list: any; before a result, which wants no control; without a result, which wants no expression last.
const BODY: u64 = class::OPEN_BODY + 100 * class::ENDED_BODY;

const BODY_BEFORE: u64 = class::OPEN_BODY + 100 * class::PLAIN_BODY;

const BODY_ALONE: u64 = class::PLAIN_BODY + 100 * class::ENDED_BODY;

// Lists. Only those of members, branches and patterns may not be empty.
const MEMBERS: u64 = 101 * class::OPERANDS;

const ARGUMENTS: u64 = class::OPERANDS + 100 * class::ARGUMENT + 10000 * class::EMPTY;

const STATEMENTS: u64 = 101 * (class::LISTS + class::STATEMENT) + 10000 * class::EMPTY;

const ITEMS: u64 = 101 * (class::LISTS + class::ITEM) + 10000 * class::EMPTY;

const TABLE_ITEMS: u64 = 101 * (class::LISTS + class::TABLE_ITEM) + 10000 * class::EMPTY;

const PARAMS: u64 = 101 * (class::LISTS + class::PARAM) + 10000 * class::EMPTY;

const DEFAULTS: u64 = 101 * (class::LISTS + class::DEFAULT) + 10000 * class::EMPTY;

const BRANCHES: u64 = 101 * (class::LISTS + class::BRANCH);

const PATTERNS: u64 = 101 * (class::LISTS + class::PATTERN);

// What a list of a class demands of its members: their class.
#[tactic(auto, unfolding(tables::specs::Demand::of_members))]
fn of_members(list: u64) -> u64
    ensures { result ≡ of_members_def list }
{
    if list == class::OPERANDS {
        return OPERAND;
    }
    if list == class::ARGUMENT {
        return ASSIGNMENT;
    }
    if list <= class::ARGUMENT {
        return class::NOTHING;
    }
    if class::NOTHING <= list {
        return class::NOTHING;
    }
    101 * (list - class::LISTS)
}

// An operator's left side is of its own level or tighter, its right side tighter.
#[tactic(auto, unfolding(tables::specs::Demand::left_side))]
fn left_side(value: u64) -> u64
    ensures { result ≡ left_side_def value }
{
    100 * level(value) + UNARY
}

#[tactic(auto, unfolding(tables::specs::Demand::right_side))]
fn right_side(value: u64) -> u64
    ensures { result ≡ right_side_def value }
{
    100 * level(value) + TIGHT
}

// An assignment's right side has a name where `fun` with the target can give it.
#[tactic(auto, unfolding(tables::specs::Demand::assigned))]
fn assigned(value: u64, mode: u64) -> u64
    ensures { result ≡ assigned_def value mode }
{
    if mode == NOT_GIVEN {
        return EXPR;
    }
    if value < 4 {
        return EXPR_OR_NAMED;
    }
    EXPR
}

// Inside a group, whose mode is 0 or 1 + the action of the assignment in it.
#[tactic(auto, unfolding(tables::specs::Demand::inside))]
fn inside(value: u64, mode: u64) -> u64
    ensures { result ≡ inside_def value mode }
{
    if value == 0 {
        return GROUPED;
    }
    if mode == 0 {
        return UNASSIGNED;
    }
    if mode == value {
        return GIVEN;
    }
    class::NOTHING
}

// A default and a variadic parameter, mode 3, don't stand together.
#[tactic(auto, unfolding(tables::specs::Demand::defaults))]
fn defaults(mode: u64) -> u64
    ensures { result ≡ defaults_def mode }
{
    if mode == BOTH {
        return class::NOTHING;
    }
    DEFAULTS
}

#[tactic(auto, unfolding(tables::specs::Demand::first_demand, tables::specs::Choice::where_zero))]
fn first_demand(kind: u64, value: u64, mode: u64) -> u64
    ensures { result ≡ first_demand_def kind value mode }
{
    match kind {
        node::EXPRESSION => STATED,
        node::LOOP => BODY,
        node::WHILE_LOOP => EXPR,
        node::FOR_LOOP => PATTERN,
        node::ASSERT => EXPR,
        node::STMT_LIST => STATEMENTS,
        node::BREAK => EXPR_OR_ABSENT,
        node::RETURN => EXPR_OR_ABSENT,
        node::PRIMARY => ATOM,
        node::UNARY_OP => UNARY,
        node::BINARY_OP => left_side(value),
        node::ASSIGNMENT => PATTERN,
        node::UNPACK => PRIMARY_OR_ABSENT,
        node::TUPLE => MEMBERS,
        node::TABLE => TABLE_ITEMS,
        node::IF_EXPR => BRANCHES,
        node::BLOCK => BLOCK,
        node::FUNCTION_DEF => SIGNATURE,
        node::TABLE_ITEM => FIELD,
        node::EXPR_BLOCK => if mode == 0 { BODY_ALONE } else { BODY_BEFORE },
        node::CONDITIONAL_BRANCH => EXPR,
        node::SIGNATURE_DEF => PARAMS,
        node::DEFAULT_DEF => EXPR,
        node::FIELD_INDEX => EXPR,
        node::GROUP => inside(value, mode),
        node::INDEX => EXPR,
        node::INVOKE => ARGUMENTS,
        node::INVOKE_TABLE => TABLE_ITEMS,
        node::ATTRIBUTE_PATTERN => RECEIVER,
        node::INDEX_PATTERN => RECEIVER,
        node::TUPLE_PATTERN => PATTERNS,
        node::PACK => PATTERN_OR_ABSENT,
        node::MODIFIER => PATTERN,
        _ => class::NOTHING,
    }
}

#[tactic(auto, unfolding(tables::specs::Demand::second_demand))]
fn second_demand(kind: u64, value: u64, mode: u64) -> u64
    ensures { result ≡ second_demand_def kind value mode }
{
    match kind {
        node::WHILE_LOOP => BODY,
        node::FOR_LOOP => EXPR,
        node::STMT_LIST => CONTROL_OR_ABSENT,
        node::PRIMARY => ITEMS,
        node::BINARY_OP => right_side(value),
        node::ASSIGNMENT => assigned(value, mode),
        node::IF_EXPR => BLOCK_OR_ABSENT,
        node::FUNCTION_DEF => BLOCK,
        node::TABLE_ITEM => OPERAND,
        node::EXPR_BLOCK => STATED_OR_ABSENT,
        node::CONDITIONAL_BRANCH => BLOCK,
        node::SIGNATURE_DEF => defaults(mode),
        node::INDEX_PATTERN => EXPR,
        _ => class::NOTHING,
    }
}

#[tactic(auto, unfolding(tables::specs::Demand::third_demand))]
fn third_demand(kind: u64) -> u64
    ensures { result ≡ third_demand_def kind }
{
    match kind {
        node::FOR_LOOP => BODY,
        node::SIGNATURE_DEF => PARAM_OR_ABSENT,
        _ => class::NOTHING,
    }
}

// What a node demands of its child number j.
#[tactic(auto, unfolding(tables::specs::Demand::demand))]
pub fn demand(kind: u64, value: u64, mode: u64, j: u64) -> u64
    ensures { result ≡ demand_def kind value mode j }
{
    if kind == node::LIST {
        return of_members(mode);
    }
    match j {
        1 => first_demand(kind, value, mode),
        2 => second_demand(kind, value, mode),
        _ => third_demand(kind),
    }
}

// Whether a class meets a demand.
#[tactic(auto, unfolding(tables::specs::Demand::fits))]
pub fn fits(demand: u64, class: u64) -> bool
    ensures { result ≡ fits_def demand class }
{
    if class == demand / 10000 {
        return true;
    }
    if class < demand % 100 {
        return false;
    }
    class <= demand / 100 % 100
}
