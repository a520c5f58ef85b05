// `fun` with a target: whether it can give an assignment, and which trees serve it.
ghost use Rattle.std.specs.Prelude.{false, ◌&&◌};
ghost use Rattle.std.specs.Option.{option_map_or};
ghost use Rattle.tree.specs.Tree.{head_kind};
ghost use Rattle.grammar.specs.Canonical.Write.{tail_of, target_atom as target_atom_def, target_items as target_items_def, target_path, is_target as is_target_def};
ghost use Rattle.writer.specs.Stack.{Here, Somewhere, Says, Skipped, kid_in};
ghost use Rattle.writer.specs.Standing.{Tells, first_of, name_serves, serves as serves_def};
ghost use Rattle.tables.specs.Children.{kind_in, value_in, children_in};
ghost use Rattle.tables.specs.Kinds.{gives_name as gives_name_def};
ghost use Rattle.tables.specs.Check.{function_form as function_form_def};
ghost use Rattle.writer.specs.Verdict.{Fit};

use crate::kinds::{gives_name, target_atom, target_item};
use crate::records::{count_at, kid_of, kind_at, skip, value_at};
use tree::node;

// The modes of an assignment, which stay numbers (mode.rt): `fun` with a target can't give it, whatever its action; it can, and the signature has no name; it can, and the signature has one.
pub const NOT_GIVEN: u64 = 0;

pub const UNNAMED: u64 = 1;

pub const NAMED: u64 = 2;

// Whether the items of a path, the children of the list that ends at p, are members and indexes; and where the path begins.
fn target_items(records: &[u64], p: usize) -> Option<usize>
    requires { Here records.now p }
    ensures { Fit records.now p (λ t. target_items_def (children_in (Some t))) result }
{
    let mut q = p - 2;
    for _ in 0..count_at(records, p) {
        if !target_item(kind_at(records, q)) {
            return None;
        }
        q = skip(records, q);
    }
    Some(q)
}

// Whether the receiver that ends at p can begin a target: an atom that is no group, and a path without calls.
pub fn target_receiver(records: &[u64], p: usize) -> bool
    requires { Somewhere records.now p }
    ensures { Says records.now p (λ m. target_atom_def (head_kind (children_in m)) && target_path (tail_of (children_in m))) result }
{
    let path = kid_of(records, p, 2);
    if path == 0 {
        return false;
    }
    // the atom ends where the path begins
    match target_items(records, path) {
        Some(atom) => target_atom(kind_at(records, atom)),
        None => false,
    }
}

// Whether the pattern that ends at p can be a target.
fn is_target(records: &[u64], p: usize) -> bool
    requires { Somewhere records.now p }
    ensures { Says records.now p (λ m. option_map_or is_target_def m false) result }
{
    let receiver = kid_of(records, p, 1);
    match kind_at(records, p) {
        node::IDENTIFIER_PATTERN => true,
        node::ATTRIBUTE_PATTERN => target_receiver(records, receiver),
        node::INDEX_PATTERN => target_receiver(records, receiver),
        _ => false,
    }
}

// Whether a signature's name, 0 or 1 + it, is the one that the tree that ends at p gives as a target.
pub fn gives_name_at(records: &[u64], p: usize, name: u64) -> bool
    requires { Somewhere records.now p }
    ensures { Says records.now p (λ m. gives_name_def (kind_in m) (value_in m) name) result }
{
    gives_name(kind_at(records, p), value_at(records, p), name)
}

// Whether `fun` with a target can give the assignment that ends at p, whatever its action.
pub fn function_form(records: &[u64], p: usize) -> u64
    requires { Somewhere records.now p }
    ensures { Says records.now p (λ m. function_form_def (children_in m)) result }
{
    let function = kid_of(records, p, 2);
    if kind_at(records, function) != node::FUNCTION_DEF {
        return NOT_GIVEN;
    }
    let signature = kid_of(records, function, 1);
    if signature == 0 {
        return NOT_GIVEN;
    }
    // the function's records begin where its signature's do
    let target = skip(records, signature);
    let name = value_at(records, signature);
    if !gives_name_at(records, target, name) {
        return NOT_GIVEN;
    }
    if !is_target(records, target) {
        return NOT_GIVEN;
    }
    if name == 0 {
        return UNNAMED;
    }
    NAMED
}

// Whether the function that ends at p, whose signature has the name and which begins at b, has the name that the tree before it gives as a target.
pub fn function_serves(records: &[u64], p: usize, name: u64, b: usize) -> bool
    requires { Here records.now p × Says records.now p (λ m. value_in (kid_in 1 m)) name × Skipped records.now p b }
    ensures { Tells records.now p (λ t s. name_serves (children_in (Some t)) (first_of s)) result }
{
    if count_at(records, p) == 0 {
        return false;
    }
    gives_name_at(records, b, name)
}

// Whether the items of the path that ends at p are members and indexes.
fn path_serves(records: &[u64], p: usize) -> bool
    requires { Here records.now p }
    ensures { Tells records.now p (λ t s. target_items_def (children_in (Some t))) result }
{
    target_items(records, p).is_some()
}

// Whether the tree that ends at p serves a `fun` with a target: as the target or a part of it, or as the function behind it. Out of line, as class_at (mode.rt).
#[inline(never)]
pub fn serves_at(records: &[u64], p: usize) -> bool
    requires { Here records.now p }
    ensures { Tells records.now p serves_def result }
{
    match kind_at(records, p) {
        node::LIST => path_serves(records, p),
        node::PRIMARY => target_receiver(records, p),
        node::ATTRIBUTE_PATTERN => target_receiver(records, kid_of(records, p, 1)),
        node::INDEX_PATTERN => target_receiver(records, kid_of(records, p, 1)),
        node::FUNCTION_DEF => {
            let name = value_at(records, kid_of(records, p, 1));
            function_serves(records, p, name, skip(records, p))
        }
        _ => false,
    }
}
