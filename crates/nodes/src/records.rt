// The records that end a tree, behind those of its children, and what is looked for in the store.
// Stays a store and a place, two parameters, here and in fields.rt: the store is lent whole, and each function answers a place in it.
ghost use Rattle.std.specs.Prelude.{◌≡◌, List, [], ◌∷◌, ◌++◌, ℕ, ◌+◌, ◌-◌, ◌*◌, ◌%◌, ◌≤◌, ◌<◌, length, take, drop, get_or};
ghost use Rattle.tree.specs.NodeKind;
ghost use Rattle.tree.specs.Tree.{Tree, none, records, all_records};
ghost use Rattle.tree.specs.Node;
ghost use Rattle.tree.specs.Store.{Emitted};
ghost use Rattle.tree.specs.Records.{Small};
ghost use Rattle.grammar.specs.Reading.Pattern.{to_pattern as to_pattern_def, modified as modified_def};
ghost use Rattle.grammar.specs.Reading.Look.{expect_pattern as expect_pattern_def};
ghost use Rattle.grammar.specs.Reading.Primary.{with_action as with_action_def, literal as literal_def, arguments};
ghost use Rattle.grammar.specs.Reading.Block.{block_of};
ghost use Rattle.grammar.specs.Reading.Function.{target_name as target_name_def};
ghost use Rattle.grammar.specs.Reading.Stmt.{stmt_list_of, lone_ellipsis as lone_ellipsis_def};
ghost use Rattle.pattern.specs.Contract.{ATree, Whole};
ghost use Rattle.scan.specs.Parts.{keyword_code};
ghost use Rattle.scan.specs.Post.{Writes};
ghost use Rattle.nodes.specs.Parts.{tuple_words, path_words, unpack_end as unpack_end_def, expression_end as expression_end_def};
ghost use Rattle.nodes.specs.Ends.{Added, Ended, Shape, AShape, Counts, CountsAfter, Any, as_it_is, Marked, Carries};
ghost use Rattle.nodes.specs.Lists.{Closing, Blocked, Closable, Unders};

use pattern::deciding::can_be_pattern;
use pattern::moving::move_to_pattern;
use scan::tokens::atom_error;
use scan::{Action, Cursor, Failure, Halt, Listed, number};
use token::kind;
use tree::{block_result, emit, node, word};

// The kind of the node whose record ends at a.
fn kind_of(store: &[u64], a: usize) -> u64
    requires { (2 ≤ a) × (a ≤ length store.now) }
    ensures { result ≡ get_or store.now (a - 2) 0 % 256 }
{
    store[a - 2] % word::CHILD
}

// The list of the n trees before a.
pub fn list_end(store: &mut [u64], a: usize, n: u64) -> usize
    requires { (a + 2 ≤ length store.old) × (n ≤ 65537) }
    ensures { Emitted a (1 + 256 * n) 0 result store.old store.new }
{
    emit(store, a, word::LIST + word::CHILD * n, 0)
}

pub fn tuple_end(store: &mut [u64], a: usize, n: u64) -> usize
    requires { (a + 4 ≤ length store.old) × (n ≤ 65537) }
    ensures { Ended all_records (CountsAfter n) tuple_words as_it_is a 4 result store.old store.new }
{
    let b = list_end(store, a, n);
    emit(store, b, word::TUPLE, 0)
}

// An identifier or a literal, from the token behind which the cursor stands.
pub fn literal(store: &mut [u64], kind: u64, value: u64, cursor: Cursor) -> Result<Cursor, Halt>
    requires { cursor.at + 2 ≤ length store.old }
    ensures { (T : List ℕ) → cursor.pos ≤ length T → Writes records (λ q. literal_def (record { kind = kind; newline = 0; value = value }) q (drop cursor.pos T)) T cursor.pos cursor.pos 2 cursor.at (take cursor.at store.old) store.old store.new result }
{
    let (word, value) = match kind {
        kind::IDENTIFIER => (word::IDENTIFIER, value),
        kind::NIL => (word::NIL, 0),
        kind::TRUE => (word::BOOLEAN_LITERAL, 1),
        kind::FALSE => (word::BOOLEAN_LITERAL, 0),
        kind::INTEGER_LITERAL => (word::INTEGER_LITERAL, value),
        kind::FLOAT_LITERAL => (word::FLOAT_LITERAL, value),
        kind::STRING_LITERAL => (word::STRING_LITERAL, value),
        _ => {
            return Err(Halt::Fail(Failure {
                error: atom_error(kind),
                pos: cursor.pos,
            }));
        }
    };
    Ok(Cursor {
        at: emit(store, cursor.at, word, value),
        ..cursor
    })
}

// A group's modifier is handed to an assignment inside.
fn with_action(store: &mut [u64], a: usize, modifier: Option<Action>)
    requires { (2 ≤ a) × (a ≤ length store.old) }
    ensures { (X : List ℕ) (t : Tree) → Small t → take a store.old ≡ X ++ records t → take a store.new ≡ X ++ records (with_action_def (keyword_code modifier) t) }
{
    let Some(action) = modifier else {
        return;
    };
    if kind_of(store, a) == node::ASSIGNMENT {
        let value = store[a - 1];
        store[a - 1] = u64::from(action) + 4 * (value / 4);
    }
}

// What a group's record has for its modifier: 0, or 1 + its action.
fn modifier_value(modifier: Option<Action>) -> u64
    ensures { result ≡ keyword_code modifier }
{
    match modifier {
        Some(action) => 1 + u64::from(action),
        None => 0,
    }
}

pub fn group_end(store: &mut [u64], a: usize, modifier: Option<Action>) -> usize
    requires { (2 ≤ a) × (a + 2 ≤ length store.old) }
    ensures { Ended records Small records (λ t. Node.group (keyword_code modifier) (with_action_def (keyword_code modifier) t)) a 2 result store.old store.new }
{
    with_action(store, a, modifier);
    emit(store, a, word::GROUP, modifier_value(modifier))
}

// `Absent`, and the record over it.
fn absent_under(store: &mut [u64], a: usize, word: u64) -> usize
    requires { a + 4 ≤ length store.old }
    ensures { Added a 4 (0 ∷ 0 ∷ word ∷ 0 ∷ []) result store.old store.new }
{
    let b = emit(store, a, word::ABSENT, 0);
    emit(store, b, word, 0)
}

// `...` alone.
#[tactic(auto, unfolding(tree::specs::Tree::records, tree::specs::Tree::count))]
pub fn lone_unpack(store: &mut [u64], a: usize) -> usize
    requires { a + 4 ≤ length store.old }
    ensures { Added a 4 (records (Node.unpack Node.absent)) result store.old store.new }
{
    absent_under(store, a, word::UNPACK)
}

// `...` behind what was read.
pub fn unpack_end(store: &mut [u64], cursor: Cursor) -> Result<Cursor, Halt>
    requires { (2 ≤ cursor.at) × (cursor.at + 2 ≤ length store.old) }
    ensures { (X : List ℕ) (t : Tree) (T : List ℕ) → Small t → take cursor.at store.old ≡ X ++ records t → cursor.pos ≤ length T → Writes records (λ q. unpack_end_def t q (drop cursor.pos T)) T cursor.pos cursor.pos 2 cursor.at X store.old store.new result }
{
    if kind_of(store, cursor.at) == node::UNPACK {
        return Err(Halt::Fail(Failure {
            error: number::NESTED_ELLIPSIS,
            pos: cursor.pos,
        }));
    }
    Ok(Cursor {
        at: emit(store, cursor.at, word::UNPACK, 0),
        ..cursor
    })
}

// A call without arguments.
pub fn bare_call(store: &mut [u64], a: usize) -> usize
    requires { a + 4 ≤ length store.old }
    ensures { Added a 4 (records (Node.invoke none)) result store.old store.new }
{
    let b = list_end(store, a, 0);
    emit(store, b, word::INVOKE, 0)
}

// A call: a tuple's members are the arguments, and its list stays; anything else is one argument.
pub fn call_end(store: &mut [u64], a: usize) -> usize
    requires { (2 ≤ a) × (a + 4 ≤ length store.old) }
    ensures { Ended records Shape records (λ t. Node.invoke (arguments t)) a 4 result store.old store.new }
{
    if kind_of(store, a) == node::TUPLE {
        return emit(store, a - 2, word::INVOKE, 0);
    }
    let b = list_end(store, a, 1);
    emit(store, b, word::INVOKE, 0)
}

// Behind an atom and n access items: an atom without a path is itself.
pub fn path_end(store: &mut [u64], a: usize, n: u64) -> usize
    requires { (a + 4 ≤ length store.old) × (n ≤ 65537) }
    ensures { Ended all_records (Counts n) path_words as_it_is a 4 result store.old store.new }
{
    if n == 0 {
        return a;
    }
    let b = list_end(store, a, n);
    emit(store, b, word::PRIMARY, 0)
}

// The expression from `from` up to the cursor becomes a pattern: it is decided over the whole first, with the store only read, and then moved. Where it cannot be one: the error e, and the store as it was.
pub fn expect_pattern(
    store: &mut [u64],
    from: usize,
    e: u64,
    cursor: Cursor,
) -> Result<Cursor, Halt>
    requires { ATree store.old from cursor.at }
    ensures { (t : Tree) (T : List ℕ) → Whole t store.old from cursor.at → cursor.pos ≤ length T → Writes records (λ q. expect_pattern_def e (to_pattern_def t) q (drop cursor.pos T)) T cursor.pos cursor.pos 0 cursor.at (take from store.old) store.old store.new result }
{
    if !can_be_pattern(store, from, cursor.at) {
        return Err(Halt::Fail(Failure {
            error: e,
            pos: cursor.pos,
        }));
    }
    Ok(Cursor {
        at: move_to_pattern(store, from, cursor.at),
        ..cursor
    })
}

// A pattern under a modifier.
pub fn modified(store: &mut [u64], a: usize, modifier: Option<Action>) -> usize
    requires { a + 2 ≤ length store.old }
    ensures { Ended records Any records (modified_def (keyword_code modifier)) a 2 result store.old store.new }
{
    match modifier {
        Some(action) => emit(store, a, word::MODIFIER, u64::from(action)),
        None => a,
    }
}

// The name that a function's target gives to the signature, 0 or 1 + it: a name alone is the target's first token, which carries `value`.
pub fn target_name(store: &[u64], a: usize, value: u64) -> u64
    requires { (2 ≤ a) × (a ≤ length store.now) × (get_or store.now (a - 2) 0 % 256 ≡ NodeKind.IdentifierPattern → value < 4294967296) }
    ensures { (X : List ℕ) (t : Tree) → Small t → take a store.now ≡ X ++ records t → Carries value t → result ≡ target_name_def t }
{
    if kind_of(store, a) == node::IDENTIFIER_PATTERN {
        return value + 1;
    }
    0
}

// Whether the expression before a is `...` alone.
fn lone_ellipsis(store: &[u64], a: usize) -> bool
    requires { AShape store.now a }
    ensures { (X : List ℕ) (t : Tree) → Shape t → take a store.now ≡ X ++ records t → result ≡ lone_ellipsis_def t }
{
    if kind_of(store, a) != node::UNPACK {
        return false;
    }
    store[a - 4] == word::ABSENT
}

// An expression as a statement.
pub fn expression_end(store: &mut [u64], cursor: Cursor) -> Result<Cursor, Halt>
    requires { AShape store.old cursor.at × (cursor.at + 2 ≤ length store.old) }
    ensures { (X : List ℕ) (t : Tree) (T : List ℕ) → Shape t → take cursor.at store.old ≡ X ++ records t → cursor.pos ≤ length T → Writes records (λ q. expression_end_def t q (drop cursor.pos T)) T cursor.pos cursor.pos 2 cursor.at X store.old store.new result }
{
    if lone_ellipsis(store, cursor.at) {
        return Err(Halt::Fail(Failure {
            error: number::ELLIPSIS_NOT_ALLOWED,
            pos: cursor.pos,
        }));
    }
    Ok(Cursor {
        at: emit(store, cursor.at, word::EXPRESSION, 0),
        ..cursor
    })
}

// Where the words of a statement that was written from a to b start, if it is an expression statement.
pub fn mark(store: &[u64], a: usize, b: usize) -> Option<usize>
    requires { (2 ≤ b) × (b ≤ length store.now) }
    ensures { (X : List ℕ) (t : Tree) → Small t → take b store.now ≡ X ++ records t → Marked t a result }
{
    if store[b - 2] == word::EXPRESSION {
        return Some(a);
    }
    None
}

// The statement list of n statements without control.
fn suite_end(store: &mut [u64], a: usize, n: u64) -> usize
    requires { (a + 6 ≤ length store.old) × (n ≤ 65537) }
    ensures { Added a 6 ((1 + 256 * n) ∷ 0 ∷ 0 ∷ 0 ∷ 519 ∷ 0 ∷ []) result store.old store.new }
{
    let b = list_end(store, a, n);
    absent_under(store, b, word::STMT_LIST)
}

// A block without result, behind its statement list.
fn resultless(store: &mut [u64], a: usize) -> usize
    requires { a + 4 ≤ length store.old }
    ensures { Added a 4 (0 ∷ 0 ∷ 534 ∷ 0 ∷ []) result store.old store.new }
{
    absent_under(store, a, word::EXPR_BLOCK)
}

// A block of n statements without control (`ExprBlock::from`): the last one is the result, if it is an expression statement, which then begins at `last`.
fn block_end(store: &mut [u64], a: usize, n: u64, last: Option<usize>) -> usize
    requires { Closing (length store.old) 10 a n last }
    ensures { Blocked a n last result store.old store.new }
{
    match last {
        None => {
            let b = suite_end(store, a, n);
            resultless(store, b)
        }
        Some(from) => {
            block_result(store, from, a - 2, n - 1);
            emit(store, a + 4, word::EXPR_BLOCK, 0)
        }
    }
}

// A list that was read as a block, and the node over it.
pub fn block_under(store: &mut [u64], list: Listed, word: u64, value: u64) -> Cursor
    requires { Closable (length store.old) 12 list }
    ensures { Unders block_of word value 12 store.old store.new list result }
{
    let block = match list {
        Listed::Suite(suite) => Cursor {
            at: block_end(store, suite.end.at, suite.count, suite.last),
            ..suite.end
        },
        Listed::Control(end) => {
            let at = emit(store, end.at, word::STMT_LIST, 0);
            Cursor {
                at: resultless(store, at),
                ..end
            }
        }
    };
    Cursor {
        at: emit(store, block.at, word, value),
        ..block
    }
}

// A list that was read as a statement list, and the node over it.
// Stays beside `block_under`: what ends the list is another in both arms, and the rest is one line.
pub fn list_under(store: &mut [u64], list: Listed, word: u64, value: u64) -> Cursor
    requires { Closable (length store.old) 8 list }
    ensures { Unders stmt_list_of word value 8 store.old store.new list result }
{
    let body = match list {
        Listed::Suite(suite) => Cursor {
            at: suite_end(store, suite.end.at, suite.count),
            ..suite.end
        },
        Listed::Control(end) => Cursor {
            at: emit(store, end.at, word::STMT_LIST, 0),
            ..end
        },
    };
    Cursor {
        at: emit(store, body.at, word, value),
        ..body
    }
}

// A conditional of n branches without else.
pub fn if_end(store: &mut [u64], a: usize, n: u64) -> usize
    requires { (a + 6 ≤ length store.old) × (n ≤ 65537) }
    ensures { Added a 6 ((1 + 256 * n) ∷ 0 ∷ 0 ∷ 0 ∷ 530 ∷ 0 ∷ []) result store.old store.new }
{
    let b = list_end(store, a, n);
    absent_under(store, b, word::IF_EXPR)
}
