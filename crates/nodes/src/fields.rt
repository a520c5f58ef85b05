// Names that are read in tables, paths and parameter lists, and the parameters of a function.
ghost use Rattle.std.specs.Prelude.{◌≡◌, List, [], ◌∷◌, ◌++◌, ℕ, ◌+◌, ◌≤◌, ◌<◌, length, take, drop};
ghost use Rattle.token.specs.Kind;
ghost use Rattle.tree.specs.Tree.{Tree, records};
ghost use Rattle.grammar.specs.Reading.Number;
ghost use Rattle.grammar.specs.Reading.Look.{expect as expect_def};
ghost use Rattle.grammar.specs.Reading.Primary.{member_access, field_name as field_name_def};
ghost use Rattle.grammar.specs.Reading.Function.{required as a_required, variadic as a_variadic, default as a_default, Params, param_mode as param_mode_def};
ghost use Rattle.scan.specs.Post.{Finds, itself, Writes};
ghost use Rattle.nodes.specs.Parts.{named_field as named_field_def, item_end as item_end_def, param_name as param_name_def, variadic_head, param_kind as param_kind_def, param_head as param_head_def, separator as separator_def, join, signature_words};
ghost use Rattle.nodes.specs.Ends.{Added, Ended, as_it_is};
ghost use Rattle.nodes.specs.Parameters.{name_bound, NamedBelow, Heads, required_words, params_words, variadic_of, with_default, Fitting, Joins, JoinedBy, One};

use crate::records::list_end;
use crate::{Counts, Head, Joined, Parameter};
use scan::tokens::{expect, expect_name, look};
use scan::{Cursor, Failure, Found, Halt, number};
use token::kind;
use tree::{emit, word};

// `parse_member_access`, behind `.`.
pub fn member(tokens: &[u64], store: &mut [u64], cursor: Cursor) -> Result<Cursor, Halt>
    requires { (cursor.pos ≤ length tokens.now) × (cursor.at + 2 ≤ length store.old) }
    ensures { Writes records (λ q. member_access q (drop cursor.pos tokens.now)) tokens.now cursor.pos (cursor.pos + 2) 2 cursor.at (take cursor.at store.old) store.old store.new result }
{
    let name = expect_name(tokens, number::MEMBER_NAME, cursor.pos)?;
    Ok(Cursor {
        pos: name.pos,
        at: emit(store, cursor.at, word::ATTRIBUTE, name.number),
    })
}

// A table field's name behind `var` or `let`.
fn field_name(
    tokens: &[u64],
    store: &mut [u64],
    access: u64,
    e: u64,
    cursor: Cursor,
) -> Result<Cursor, Halt>
    requires { (cursor.pos ≤ length tokens.now) × (cursor.at + 2 ≤ length store.old) × (access ≤ 1) }
    ensures { Writes records (λ q. field_name_def access e q (drop cursor.pos tokens.now)) tokens.now cursor.pos (cursor.pos + 2) 2 cursor.at (take cursor.at store.old) store.old store.new result }
{
    let name = expect_name(tokens, e, cursor.pos)?;
    let value = name.number * 2 + access;
    Ok(Cursor {
        pos: name.pos,
        at: emit(store, cursor.at, word::FIELD_ATTRIBUTE, value),
    })
}

// A table field that is no index, from the token behind which the cursor stands.
pub fn named_field(
    tokens: &[u64],
    store: &mut [u64],
    kind: u64,
    value: u64,
    cursor: Cursor,
) -> Result<Cursor, Halt>
    requires { (cursor.pos ≤ length tokens.now) × (cursor.at + 2 ≤ length store.old) × (kind ≡ Kind.Identifier → value < 4294967296) }
    ensures { Writes records (λ q. named_field_def kind value q (drop cursor.pos tokens.now)) tokens.now cursor.pos cursor.pos 2 cursor.at (take cursor.at store.old) store.old store.new result }
{
    match kind {
        kind::VAR => field_name(tokens, store, 1, number::NAME_AFTER_VAR, cursor),
        kind::LET => field_name(tokens, store, 0, number::NAME_AFTER_LET, cursor),
        kind::IDENTIFIER => Ok(Cursor {
            at: emit(store, cursor.at, word::FIELD_ATTRIBUTE, value * 2),
            ..cursor
        }),
        _ => Err(Halt::Fail(Failure {
            error: number::INVALID_FIELD,
            pos: cursor.pos,
        })),
    }
}

// What must stand behind a table item, and is taken: a comma, 0; or `}`, 1.
// Stays a number, as in `param_mode` and `separator`: the definition has a number too, and a bool would be made of it here and a number again in each law.
pub fn item_end(tokens: &[u64], pos: usize) -> Result<Found, Halt>
    requires { pos ≤ length tokens.now }
    ensures { Finds itself (λ q. item_end_def q (drop pos tokens.now)) tokens.now pos (pos + 2) (pos + 2) 2 result }
{
    let token = look(tokens, pos)?;
    let pos = pos + 2;
    match token.kind {
        kind::COMMA => Ok(Found { pos, number: 0 }),
        kind::CLOSE_BRACE => Ok(Found { pos, number: 1 }),
        _ => Err(Halt::Fail(Failure {
            error: number::TABLE_CLOSING,
            pos,
        })),
    }
}

// The access before a parameter's name; anything but a name behind it is left.
fn param_mode(tokens: &[u64], pos: usize) -> Result<Found, Halt>
    requires { pos ≤ length tokens.now }
    ensures { Finds itself (λ q. param_mode_def q (drop pos tokens.now)) tokens.now pos pos pos 2 result }
{
    let token = look(tokens, pos)?;
    match token.kind {
        kind::VAR => Ok(Found {
            pos: pos + 2,
            number: 1,
        }),
        kind::LET => Ok(Found {
            pos: pos + 2,
            number: 0,
        }),
        kind::IDENTIFIER => Ok(Found { pos, number: 0 }),
        _ => Err(Halt::Fail(Failure {
            error: number::INVALID_PARAM,
            pos,
        })),
    }
}

// A parameter's name with its access.
fn param_name(tokens: &[u64], pos: usize) -> Result<Found, Halt>
    requires { pos ≤ length tokens.now }
    ensures { Finds itself (λ q. param_name_def q (drop pos tokens.now)) tokens.now pos (pos + 2) pos name_bound result }
{
    let mode = param_mode(tokens, pos)?;
    let name = expect_name(tokens, number::INVALID_PARAM, mode.pos)?;
    Ok(Found {
        pos: name.pos,
        number: name.number * 2 + mode.number,
    })
}

// Behind a variadic parameter: no default.
fn variadic_param(tokens: &[u64], v: u64, pos: usize) -> Result<Head, Halt>
    requires { (pos ≤ length tokens.now) × (v < name_bound) }
    ensures { Heads (λ q. variadic_head v q (drop pos tokens.now)) tokens.now pos pos result }
{
    let token = look(tokens, pos)?;
    if token.kind == kind::OP_ASSIGN {
        return Err(Halt::Fail(Failure {
            error: number::VARIADIC_DEFAULT,
            pos,
        }));
    }
    Ok(Head::Variadic(pos, v))
}

// Behind a parameter's name: `...`, `=`, or neither.
fn param_kind(tokens: &[u64], v: u64, pos: usize) -> Result<Head, Halt>
    requires { (pos ≤ length tokens.now) × (v < name_bound) }
    ensures { Heads (λ q. param_kind_def v q (drop pos tokens.now)) tokens.now pos pos result }
{
    let token = look(tokens, pos)?;
    match token.kind {
        kind::ELLIPSIS => variadic_param(tokens, v, pos + 2),
        kind::OP_ASSIGN => Ok(Head::Default(pos + 2, v)),
        _ => Ok(Head::Required(pos, v)),
    }
}

// A parameter, up to its default's expression.
pub fn param_head(tokens: &[u64], pos: usize) -> Result<Head, Halt>
    requires { pos ≤ length tokens.now }
    ensures { Heads (λ q. param_head_def q (drop pos tokens.now)) tokens.now pos (pos + 2) result }
{
    let name = param_name(tokens, pos)?;
    param_kind(tokens, name.number, name.pos)
}

// The list of the required parameters stands before the first default.
pub fn required_end(store: &mut [u64], a: usize, counts: Counts) -> usize
    requires { (a + 2 ≤ length store.old) × (counts.required ≤ 65536) }
    ensures { Added a 2 (required_words counts.required counts.default) result store.old store.new }
{
    if counts.default == 0 {
        return list_end(store, a, counts.required);
    }
    a
}

// The variadic parameter, or `Absent`.
fn variadic_end(store: &mut [u64], a: usize, variadic: Option<u64>) -> usize
    requires { a + 2 ≤ length store.old }
    ensures { Added a 2 (records (variadic_of variadic)) result store.old store.new }
{
    match variadic {
        Some(v) => emit(store, a, word::PARAM_DEF, v),
        None => emit(store, a, word::ABSENT, 0),
    }
}

// The children of a signature, behind its parameters.
pub fn params_end(store: &mut [u64], a: usize, counts: Counts) -> usize
    requires { (a + 6 ≤ length store.old) × (counts.required ≤ 65536) × (counts.default ≤ 65536) }
    ensures { Ended params_words (λ ps. Fitting ps counts) signature_words as_it_is a 6 result store.old store.new }
{
    let b = required_end(store, a, counts);
    let d = list_end(store, b, counts.default);
    variadic_end(store, d, counts.variadic)
}

// The signature, behind its children: what must stand there is `)`.
pub fn signature_end(
    tokens: &[u64],
    store: &mut [u64],
    name: u64,
    cursor: Cursor,
) -> Result<Cursor, Halt>
    requires { (cursor.pos ≤ length tokens.now) × (cursor.at + 2 ≤ length store.old) }
    ensures { Writes (λ tok. 792 ∷ name ∷ []) (λ q. expect_def Kind.CloseParen Number.params_closing q (drop cursor.pos tokens.now)) tokens.now cursor.pos (cursor.pos + 2) 2 cursor.at (take cursor.at store.old) store.old store.new result }
{
    let pos = expect(
        tokens,
        kind::CLOSE_PAREN,
        number::PARAMS_CLOSING,
        cursor.pos,
    )?;
    Ok(Cursor {
        pos,
        at: emit(store, cursor.at, word::SIGNATURE_DEF, name),
    })
}

// What must stand behind a parameter: a comma, which is taken, 1; or `)`, 0.
fn separator(tokens: &[u64], pos: usize) -> Result<Found, Halt>
    requires { pos ≤ length tokens.now }
    ensures { Finds itself (λ q. separator_def q (drop pos tokens.now)) tokens.now pos pos pos 2 result }
{
    let token = look(tokens, pos)?;
    match token.kind {
        kind::COMMA => Ok(Found {
            pos: pos + 2,
            number: 1,
        }),
        kind::CLOSE_PAREN => Ok(Found { pos, number: 0 }),
        _ => Err(Halt::Fail(Failure {
            error: number::INVALID_PARAM,
            pos,
        })),
    }
}

fn join_required(
    tokens: &[u64],
    store: &mut [u64],
    v: u64,
    counts: Counts,
    cursor: Cursor,
) -> Result<Joined, Halt>
    requires { (cursor.pos ≤ length tokens.now) × (cursor.at + 2 ≤ length store.old) × (counts.required ≤ 65536) × NamedBelow counts.variadic }
    ensures { (X : List ℕ) (ps : Params) → Fitting ps counts → take cursor.at store.old ≡ X ++ params_words ps → Joins (λ q. join ps (a_required v) q (drop cursor.pos tokens.now)) X tokens.now cursor.pos counts cursor.at store.old store.new result }
{
    let pos = separator(tokens, cursor.pos)?.pos;
    if 0 < counts.default {
        return Err(Halt::Fail(Failure {
            error: number::PARAM_ORDER,
            pos: cursor.pos,
        }));
    }
    let at = emit(store, cursor.at, word::PARAM_DEF, v);
    Ok(Joined {
        end: Cursor { pos, at },
        counts: Counts {
            required: counts.required + 1,
            ..counts
        },
    })
}

fn join_variadic(tokens: &[u64], v: u64, counts: Counts, cursor: Cursor) -> Result<Joined, Halt>
    requires { (cursor.pos ≤ length tokens.now) × (v < name_bound) }
    ensures { (S X : List ℕ) (ps : Params) → Fitting ps counts → take cursor.at S ≡ X ++ params_words ps → Joins (λ q. join ps (a_variadic v) q (drop cursor.pos tokens.now)) X tokens.now cursor.pos counts cursor.at S S result }
{
    let behind = separator(tokens, cursor.pos)?;
    if behind.number == 1 {
        return Err(Halt::Fail(Failure {
            error: number::VARIADIC_NOT_LAST,
            pos: cursor.pos,
        }));
    }
    Ok(Joined {
        end: Cursor {
            pos: behind.pos,
            ..cursor
        },
        counts: Counts {
            variadic: Some(v),
            ..counts
        },
    })
}

fn join_default(tokens: &[u64], counts: Counts, cursor: Cursor) -> Result<Joined, Halt>
    requires { (cursor.pos ≤ length tokens.now) × (counts.default ≤ 65536) × NamedBelow counts.variadic }
    ensures { (S X : List ℕ) (ps : Params) (v : ℕ) (e : Tree) → Fitting ps counts → take cursor.at S ≡ X ++ params_words (with_default ps v e) → Joins (λ q. join ps (a_default v e) q (drop cursor.pos tokens.now)) X tokens.now cursor.pos counts cursor.at S S result }
{
    let pos = separator(tokens, cursor.pos)?.pos;
    Ok(Joined {
        end: Cursor { pos, ..cursor },
        counts: Counts {
            default: counts.default + 1,
            ..counts
        },
    })
}

// A parameter joins those before it, which end at `at`, and the token behind it is passed over if it is a comma.
pub fn joined(
    tokens: &[u64],
    store: &mut [u64],
    one: Parameter,
    counts: Counts,
    at: usize,
) -> Result<Joined, Halt>
    requires { One (length tokens.now) (length store.old) at one × (counts.required ≤ 65536) × (counts.default ≤ 65536) × NamedBelow counts.variadic }
    ensures { JoinedBy tokens.now counts at store.old store.new one result }
{
    match one {
        Parameter::Required(pos, v) => {
            join_required(tokens, store, v, counts, Cursor { pos, at })
        }
        Parameter::Variadic(pos, v) => join_variadic(tokens, v, counts, Cursor { pos, at }),
        Parameter::Default(end) => join_default(tokens, counts, end),
    }
}
