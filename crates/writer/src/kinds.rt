// What the kinds of nodes say of targets, labels and closing parentheses.
ghost use Rattle.std.specs.Prelude.{◌≡◌};
ghost use Rattle.grammar.specs.Canonical.Write.{target_atom as target_atom_def};
ghost use Rattle.tables.specs.Kinds.{target_item as target_item_def, name_is as name_is_def, gives_name as gives_name_def, passes as passes_def, unlabelled as unlabelled_def, closed as closed_def};

use tree::node;

// Stays an arm for each kind, here and in most of the other tables: joined by `|`, or in `matches!`, they make the writer take a tenth more time.

// An atom that is no group can begin a target.
pub fn target_atom(kind: u64) -> bool
    ensures { result ≡ target_atom_def kind }
{
    match kind {
        node::NIL => true,
        node::IDENTIFIER => true,
        node::BOOLEAN_LITERAL => true,
        node::INTEGER_LITERAL => true,
        node::FLOAT_LITERAL => true,
        node::STRING_LITERAL => true,
        _ => false,
    }
}

// A path of members and indexes goes on a target.
#[tactic(auto, unfolding(tables::specs::Kinds::target_item))]
pub fn target_item(kind: u64) -> bool
    ensures { result ≡ target_item_def kind }
{
    match kind {
        node::ATTRIBUTE => true,
        node::INDEX => true,
        _ => false,
    }
}

// Whether a signature's name, 0 or 1 + it, is 1 + this one.
// Stays 0 for none, here and in target.rt: both are values of records, and nothing is done with them but this.
#[tactic(auto, unfolding(tables::specs::Kinds::name_is))]
fn name_is(value: u64, name: u64) -> bool
    ensures { result ≡ name_is_def value name }
{
    name.checked_sub(1) == Some(value)
}

// Whether a signature's name, 0 or 1 + it, is the one that a target of this kind and value gives.
#[tactic(auto, unfolding(tables::specs::Kinds::gives_name))]
pub fn gives_name(kind: u64, value: u64, name: u64) -> bool
    ensures { result ≡ gives_name_def kind value name }
{
    if kind == node::IDENTIFIER_PATTERN {
        name_is(value, name)
    } else {
        name == 0
    }
}

// Whether a node begins with its first child, where a label could be the first token.
#[tactic(auto, unfolding(tables::specs::Kinds::passes))]
pub fn passes(kind: u64) -> bool
    ensures { result ≡ passes_def kind }
{
    match kind {
        node::LIST => true,
        node::BINARY_OP => true,
        node::TUPLE => true,
        _ => false,
    }
}

// Whether the children of a node may not begin with a label: what begins a statement, and the value of a break without one.
#[tactic(auto, unfolding(tables::specs::Kinds::unlabelled))]
pub fn unlabelled(kind: u64, value: u64) -> bool
    ensures { result ≡ unlabelled_def kind value }
{
    match kind {
        node::EXPRESSION => true,
        node::EXPR_BLOCK => true,
        node::BREAK => value == 0,
        _ => false,
    }
}

// Whether a child of the node may end in a tuple of one member: `)` comes behind it, or it is the node's own parent that decides.
#[tactic(auto, unfolding(tables::specs::Kinds::closed))]
pub fn closed(kind: u64) -> bool
    ensures { result ≡ closed_def kind }
{
    match kind {
        node::LIST => true,
        node::ASSIGNMENT => true,
        node::DEFAULT_DEF => true,
        node::GROUP => true,
        _ => false,
    }
}
