// Whether a record's own numbers are in the range of its kind.
ghost use Rattle.std.specs.Prelude.{◌≡◌};
ghost use Rattle.tables.specs.Sound.{top as top_def, exceeds as exceeds_def, arity as arity_def, sound as sound_def};

use crate::operators::LAST_BINARY;
use tree::node;

// Names are numbered up to this.
const NAME: u64 = 4294967295;

// A label is 0 or 1 + its name.
const LABEL: u64 = 4294967296;

// A name with its access is twice the name, and 1 more for `var`.
const NAMED: u64 = 8589934591;

// The largest value that a record of a kind has, where there is one.
#[tactic(auto, unfolding(tables::specs::Sound::top))]
fn top(kind: u64) -> u64
    ensures { result ≡ top_def kind }
{
    match kind {
        node::LOOP => LABEL,
        node::WHILE_LOOP => LABEL,
        node::FOR_LOOP => LABEL,
        node::CONTINUE => LABEL,
        node::BREAK => LABEL,
        node::UNARY_OP => 3,
        node::BINARY_OP => LAST_BINARY,
        node::ASSIGNMENT => 43,
        node::BLOCK => LABEL,
        node::PARAM_DEF => NAMED,
        node::DEFAULT_DEF => NAMED,
        node::FIELD_ATTRIBUTE => NAMED,
        node::IDENTIFIER => NAME,
        node::BOOLEAN_LITERAL => 1,
        node::STRING_LITERAL => NAME,
        node::GROUP => 4,
        node::ATTRIBUTE => NAME,
        node::IDENTIFIER_PATTERN => NAME,
        node::ATTRIBUTE_PATTERN => NAME,
        node::MODIFIER => 3,
        _ => 0,
    }
}

// Whether a value is too large for its kind. A signature's name is compared with its target's, and the bits of a number may be any.
#[tactic(auto, unfolding(tables::specs::Sound::exceeds))]
fn exceeds(kind: u64, value: u64) -> bool
    ensures { result ≡ exceeds_def kind value }
{
    match kind {
        node::SIGNATURE_DEF => false,
        node::INTEGER_LITERAL => false,
        node::FLOAT_LITERAL => false,
        _ => top(kind) < value,
    }
}

// How many children a node of a kind has, lists aside.
#[tactic(auto, unfolding(tables::specs::Sound::arity))]
fn arity(kind: u64) -> u64
    ensures { result ≡ arity_def kind }
{
    match kind {
        node::ABSENT => 0,
        node::WHILE_LOOP => 2,
        node::FOR_LOOP => 3,
        node::STMT_LIST => 2,
        node::CONTINUE => 0,
        node::PRIMARY => 2,
        node::BINARY_OP => 2,
        node::ASSIGNMENT => 2,
        node::IF_EXPR => 2,
        node::FUNCTION_DEF => 2,
        node::TABLE_ITEM => 2,
        node::EXPR_BLOCK => 2,
        node::CONDITIONAL_BRANCH => 2,
        node::SIGNATURE_DEF => 3,
        node::PARAM_DEF => 0,
        node::FIELD_ATTRIBUTE => 0,
        node::NIL => 0,
        node::EMPTY_TUPLE => 0,
        node::IDENTIFIER => 0,
        node::BOOLEAN_LITERAL => 0,
        node::INTEGER_LITERAL => 0,
        node::FLOAT_LITERAL => 0,
        node::STRING_LITERAL => 0,
        node::ATTRIBUTE => 0,
        node::IDENTIFIER_PATTERN => 0,
        node::INDEX_PATTERN => 2,
        _ => 1,
    }
}

// Whether a record of a node with n children has numbers of its kind's range.
#[tactic(auto, unfolding(tables::specs::Sound::sound))]
pub fn sound(kind: u64, value: u64, n: u64) -> bool
    ensures { result ≡ sound_def kind value n }
{
    if node::MODIFIER < kind {
        return false;
    }
    if exceeds(kind, value) {
        return false;
    }
    if kind == node::LIST {
        return true;
    }
    n == arity(kind)
}
