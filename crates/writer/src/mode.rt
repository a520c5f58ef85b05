// What of a node's children its own record does not say, as one number: the mode. Most are read off records near the node's end; for that of an
// assignment of a function, and of a function, records are passed over.
ghost use Rattle.writer.specs.Stack.{Somewhere, Says};
ghost use Rattle.tables.specs.Children.{kind_in, value_in, children_in};
ghost use Rattle.tables.specs.Check.{body_mode as body_mode_def, signature_mode as signature_mode_def, group_mode as group_mode_def, inner_mode as inner_mode_def, inner_class as inner_class_def, mode_of, class_in};
ghost use Rattle.writer.specs.Form.{by_fun, FormAt};

use crate::class::{NOTHING, class, list_class};
use crate::form::{Form, Place, fun_gives};
use crate::records::{count_at, kid_of, kind_at, last_of, value_at};
use crate::target::{NOT_GIVEN, function_form};
use tree::node;

// Stays numbers, here and in target.rt: a mode is one number for nodes of all kinds, and that of most is a count, a kind, a name or an action of the records. An enum for these
// would be made a number where it is found, and be taken from one again where `class` and `demand` use it.

// A statement list: without control, whose last statement is an expression; any other without control; with control.
pub const OPEN: u64 = 0;

pub const PLAIN: u64 = 1;

pub const ENDED: u64 = 2;

// A signature: required parameters only; a default; a variadic parameter; both.
pub const REQUIRED: u64 = 0;

pub const DEFAULT: u64 = 1;

pub const VARIADIC: u64 = 2;

pub const BOTH: u64 = 3;

// The mode of a statement list.
fn body_mode(records: &[u64], p: usize) -> u64
    requires { Somewhere records.now p }
    ensures { Says records.now p (λ m. body_mode_def (children_in m)) result }
{
    if kind_at(records, last_of(records, p)) != node::ABSENT {
        return ENDED;
    }
    let suite = kid_of(records, p, 1);
    if kind_at(records, last_of(records, suite)) == node::EXPRESSION {
        OPEN
    } else {
        PLAIN
    }
}

// The mode of a signature.
fn signature_mode(records: &[u64], p: usize) -> u64
    requires { Somewhere records.now p }
    ensures { Says records.now p (λ m. signature_mode_def (children_in m)) result }
{
    let defaults = count_at(records, kid_of(records, p, 2));
    if kind_at(records, last_of(records, p)) == node::ABSENT {
        if defaults == 0 { REQUIRED } else { DEFAULT }
    } else if defaults == 0 {
        VARIADIC
    } else {
        BOTH
    }
}

// A group: 0, or 1 + the action of the assignment in it.
fn group_mode(records: &[u64], p: usize) -> u64
    requires { Somewhere records.now p }
    ensures { Says records.now p (λ m. group_mode_def (children_in m)) result }
{
    let inner = last_of(records, p);
    if kind_at(records, inner) == node::ASSIGNMENT {
        return 1 + value_at(records, inner) % 4;
    }
    0
}

// A node that is no list. Primary: the number of items of its path. Assignment: function_form. FunctionDef: the signature's name.
// Unpack, IfExpr, ExprBlock, Pack: the kind of the last child, 0 for Absent.
pub fn inner_mode(records: &[u64], p: usize) -> u64
    requires { Somewhere records.now p }
    ensures { Says records.now p (λ m. inner_mode_def (kind_in m) (children_in m)) result }
{
    match kind_at(records, p) {
        node::LIST => NOTHING,
        node::STMT_LIST => body_mode(records, p),
        node::PRIMARY => count_at(records, last_of(records, p)),
        node::ASSIGNMENT => function_form(records, p),
        node::UNPACK => kind_at(records, last_of(records, p)),
        node::IF_EXPR => kind_at(records, last_of(records, p)),
        node::FUNCTION_DEF => value_at(records, kid_of(records, p, 1)),
        node::EXPR_BLOCK => kind_at(records, last_of(records, p)),
        node::SIGNATURE_DEF => signature_mode(records, p),
        node::GROUP => group_mode(records, p),
        node::PACK => kind_at(records, last_of(records, p)),
        _ => 0,
    }
}

fn inner_class(records: &[u64], p: usize) -> u64
    requires { Somewhere records.now p }
    ensures { Says records.now p inner_class_def result }
{
    class(
        kind_at(records, p),
        value_at(records, p),
        inner_mode(records, p),
    )
}

// Any node. A list's mode is its class, by its last member.
fn mode(records: &[u64], p: usize) -> u64
    requires { Somewhere records.now p }
    ensures { Says records.now p (λ m. mode_of (kind_in m) (children_in m)) result }
{
    if kind_at(records, p) == node::LIST {
        let c = inner_class(records, last_of(records, p));
        return list_class(count_at(records, p), c);
    }
    inner_mode(records, p)
}

// Out of line, as serves_at: only of trees that are not kept it is asked, and written in place the two make the decision take 3 to 6 % more instructions of any.
#[inline(never)]
pub fn class_at(records: &[u64], p: usize) -> u64
    requires { Somewhere records.now p }
    ensures { Says records.now p class_in result }
{
    class(kind_at(records, p), value_at(records, p), mode(records, p))
}

// Whether `fun` with the target gives an assignment at a place.
fn given_by_fun(records: &[u64], p: usize, place: Place) -> bool
    requires { Somewhere records.now p }
    ensures { Says records.now p (λ m. by_fun place (value_in m) (children_in m)) result }
{
    fun_gives(place, value_at(records, p)) && function_form(records, p) != NOT_GIVEN
}

// How the node that ends at p is written at a place.
pub fn form_at(records: &[u64], p: usize, place: Place) -> Form
    requires { Somewhere records.now p }
    ensures { FormAt records.now p place result }
{
    match kind_at(records, p) {
        node::ASSIGNMENT => Form {
            place,
            told: u64::from(given_by_fun(records, p, place)),
        },
        node::IF_EXPR | node::EXPR_BLOCK | node::PACK => Form {
            place,
            told: kind_at(records, last_of(records, p)),
        },
        node::SIGNATURE_DEF => Form {
            place,
            told: signature_mode(records, p),
        },
        _ => Form { place, told: 0 },
    }
}
