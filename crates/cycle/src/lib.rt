// The reading functions that call one another: words of tokens in, records of trees out, and errors that wait.
#![tactic(auto)]

ghost use Rattle.std.specs.Prelude.{◌≡◌, ◌+◌, ◌≤◌, length, drop};
ghost use Rattle.operator.specs.Operator.{level_count};
ghost use Rattle.tree.specs.Tree.{none, records};
ghost use Rattle.grammar.specs.Reading.Look.{action as action_def};
ghost use Rattle.grammar.specs.Reading.Expr.{binop_expr, tuple_expr, expr as expr_def};
ghost use Rattle.grammar.specs.Reading.Primary.{group_expr, atom as atom_def, indexing_expr, table_field, table_item, table_literal, invocation, path as path_def, primary as primary_def, unpack_expr};
ghost use Rattle.grammar.specs.Reading.Block.{body as body_def, block_expr, expr_label, if_expr as if_expr_def};
ghost use Rattle.grammar.specs.Reading.Function.{param as param_def, function_param_list, function_def, function_assignment_target, function_decl_expr};
ghost use Rattle.grammar.specs.Reading.Stmt.{loop as loop_def, lvalue_list, for_loop, stmt_label, stmt as stmt_def, control_value, control_flow, synchronize, caught as caught_def};
ghost use Rattle.grammar.specs.Reading.Depth.{primary_expr, at_depth};
ghost use Rattle.scan.specs.Post.{Ready, Lent, Reading, Crosses};
ghost use Rattle.scan.specs.Parts.{action_number, keyword_code, until};
ghost use Rattle.cycle.specs.Parts.{Which, control_kind, tail as tail_def, part as part_def, list_words, arm as arm_def, whiles as whiles_def, whiles_words, turn as turn_def};
ghost use Rattle.nodes.specs.Parts.{tuple_words, path_words, signature_words};
ghost use Rattle.cycle.specs.Lists.{Lists, Enters};
ghost use Rattle.nodes.specs.Parameters.{ParamsRead};

use grammar::limit;
use nodes::fields::{
    item_end, joined, member, named_field, param_head, params_end, required_end, signature_end,
};
use nodes::records::{
    bare_call, block_under, call_end, expect_pattern, expression_end, group_end, if_end, list_end,
    list_under, literal, lone_unpack, mark, modified, path_end, target_name, tuple_end, unpack_end,
};
use nodes::{Counts, Head, Parameter};
use operator::{
    PRECEDENCE_END, PRECEDENCE_START, precedence_level, which_assignment_op, which_binary_op,
    which_unary_op,
};
use scan::queue::{Waiting, control_last, synchronized};
use scan::tokens::{
    assign_keyword, continues, ends_control, expect, halts, is_control, look, not_allowed, past,
    try_label, unassigned,
};
use scan::{Action, Cursor, Entry, Failure, Halt, Listed, Suite, Until, number};
use token::kind;
use tree::{emit, word};

// A control, the last of a statement list.
#[derive(Clone, Copy)]
enum Control {
    Continue,
    Break,
    Return,
}

// The control that a token of this kind begins, if it begins one.
// Stays a function and no TryFrom: that a kind is none is an answer here, and no error.
fn which_control(kind: u64) -> Option<Control>
    ensures { Which kind result }
{
    match kind {
        kind::CONTINUE => Some(Control::Continue),
        kind::BREAK => Some(Control::Break),
        kind::RETURN => Some(Control::Return),
        _ => None,
    }
}

// The action of an assignment: `AssignLocal` without a keyword.
fn action(keyword: Option<Action>) -> Action
    ensures { action_number result ≡ action_def (keyword_code keyword) }
{
    keyword.unwrap_or(Action::AssignLocal)
}

// Stays tokens, store, queue and depth apart: a struct that holds what is lent takes a name of its own in each of the 40 contracts for what it held before and after,
// where `store.old` and `queue.new` stand now; and `Ready` says of a place what no place alone has, that the tokens and the store reach so far.
// Stays a number, for a label and for a signature's name, 0 or 1 + it: it goes into a record as it was read.
// Stays `loop`, where one is written: what is read says how far it goes, and `n` counts members for a record and is no index.
// A member is called with the depths that are left: `unop`, `rhs` and `list` may begin where one is left,
// and go on with one less; the others hand on what they are given.

// `parse_unary_expr`.
#[cycle(reading)]
fn unop(
    tokens: &[u64],
    store: &mut [u64],
    queue: &mut Waiting,
    depth: usize,
    cursor: Cursor,
) -> Result<Cursor, Halt>
    requires { Ready (length tokens.now) (length store.old) cursor.pos cursor.at }
    ensures { Reading records (at_depth depth).unary tokens.now cursor.pos (cursor.pos + 2) 20 cursor.at store.old queue.old store.new queue.new result }
{
    if depth == 0 {
        return Err(Halt::Stop(limit::TOO_DEEP));
    }
    let token = look(tokens, cursor.pos)?;
    let Some(op) = which_unary_op(token.kind) else {
        return term(tokens, store, queue, depth - 1, cursor);
    };
    let next = Cursor {
        pos: cursor.pos + 2,
        ..cursor
    };
    let operand = unop(tokens, store, queue, depth - 1, next)?;
    Ok(Cursor {
        at: emit(store, operand.at, word::UNARY_OP, u64::from(op)),
        ..operand
    })
}

// `parse_primary_expr`.
#[cycle(reading)]
fn term(
    tokens: &[u64],
    store: &mut [u64],
    queue: &mut Waiting,
    depth: usize,
    cursor: Cursor,
) -> Result<Cursor, Halt>
    requires { Ready (length tokens.now) (length store.old) cursor.pos cursor.at }
    ensures { Reading records (primary_expr (at_depth depth)) tokens.now cursor.pos (cursor.pos + 2) 20 cursor.at store.old queue.old store.new queue.new result }
{
    let token = look(tokens, cursor.pos)?;
    let next = Cursor {
        pos: cursor.pos + 2,
        ..cursor
    };
    match token.kind {
        kind::CLASS => Err(Halt::Fail(Failure {
            error: number::CLASS_DEFINITION,
            pos: next.pos,
        })),
        kind::FUN => fun(tokens, store, queue, depth, next),
        kind::IF => cond(tokens, store, queue, depth, next),
        kind::BEGIN => block(tokens, store, queue, depth, 0, next),
        kind::OPEN_BRACE => {
            let items = table(tokens, store, queue, depth, next)?;
            Ok(Cursor {
                at: emit(store, items.at, word::TABLE, 0),
                ..items
            })
        }
        kind::LABEL => begin(tokens, store, queue, depth, token.value + 1, next),
        _ => dots(tokens, store, queue, depth, cursor),
    }
}

// `parse_unpack_expr`.
#[cycle(reading)]
fn dots(
    tokens: &[u64],
    store: &mut [u64],
    queue: &mut Waiting,
    depth: usize,
    cursor: Cursor,
) -> Result<Cursor, Halt>
    requires { Ready (length tokens.now) (length store.old) cursor.pos cursor.at }
    ensures { Reading records (unpack_expr (at_depth depth)) tokens.now cursor.pos (cursor.pos + 2) 20 cursor.at store.old queue.old store.new queue.new result }
{
    let token = look(tokens, cursor.pos)?;
    if token.kind == kind::ELLIPSIS {
        return Ok(Cursor {
            pos: cursor.pos + 2,
            at: lone_unpack(store, cursor.at),
        });
    }
    let operand = prim(tokens, store, queue, depth, cursor)?;
    let other = look(tokens, operand.pos)?;
    if other.kind == kind::ELLIPSIS {
        let end = Cursor {
            pos: operand.pos + 2,
            ..operand
        };
        return unpack_end(store, end);
    }
    Ok(operand)
}

// `parse_primary`.
#[cycle(reading)]
fn prim(
    tokens: &[u64],
    store: &mut [u64],
    queue: &mut Waiting,
    depth: usize,
    cursor: Cursor,
) -> Result<Cursor, Halt>
    requires { Ready (length tokens.now) (length store.old) cursor.pos cursor.at }
    ensures { Reading records (primary_def (at_depth depth)) tokens.now cursor.pos (cursor.pos + 2) 20 cursor.at store.old queue.old store.new queue.new result }
{
    let receiver = atom(tokens, store, queue, depth, cursor)?;
    path(tokens, store, queue, depth, true, receiver)
}

// The access items behind an atom, and what they make of it. `calls`: invocations are allowed.
#[cycle(reading)]
fn path(
    tokens: &[u64],
    store: &mut [u64],
    queue: &mut Waiting,
    depth: usize,
    calls: bool,
    cursor: Cursor,
) -> Result<Cursor, Halt>
    requires { Ready (length tokens.now) (length store.old) cursor.pos cursor.at }
    ensures { Reading path_words (λ q ts. path_def (at_depth depth) calls (length ts) none q ts) tokens.now cursor.pos cursor.pos 8 cursor.at store.old queue.old store.new queue.new result }
{
    let mut end = cursor;
    let mut n: u64 = 0;
    loop {
        let token = look(tokens, end.pos)?;
        if !continues(calls, token.kind, token.newline) {
            return Ok(Cursor {
                at: path_end(store, end.at, n),
                ..end
            });
        }
        let next = Cursor {
            pos: end.pos + 2,
            ..end
        };
        end = part(tokens, store, queue, depth, token.kind, next)?;
        n += 1;
    }
}

// One access item, behind its first token, of the kind k: a member, an index, an invocation or a table.
#[cycle(reading)]
fn part(
    tokens: &[u64],
    store: &mut [u64],
    queue: &mut Waiting,
    depth: usize,
    k: u64,
    cursor: Cursor,
) -> Result<Cursor, Halt>
    requires { Ready (length tokens.now) (length store.old) cursor.pos cursor.at × Lent (length tokens.now) (length store.old) cursor.pos cursor.at }
    ensures { Reading records (part_def (at_depth depth) k) tokens.now cursor.pos cursor.pos 6 cursor.at store.old queue.old store.new queue.new result }
{
    match k {
        kind::OP_ACCESS => member(tokens, store, cursor),
        kind::OPEN_SQUARE => {
            let place = index(tokens, store, queue, depth, cursor)?;
            Ok(Cursor {
                at: emit(store, place.at, word::INDEX, 0),
                ..place
            })
        }
        kind::OPEN_PAREN => call(tokens, store, queue, depth, cursor),
        _ => {
            let items = table(tokens, store, queue, depth, cursor)?;
            Ok(Cursor {
                at: emit(store, items.at, word::INVOKE_TABLE, 0),
                ..items
            })
        }
    }
}

// `parse_atom`.
#[cycle(reading)]
fn atom(
    tokens: &[u64],
    store: &mut [u64],
    queue: &mut Waiting,
    depth: usize,
    cursor: Cursor,
) -> Result<Cursor, Halt>
    requires { Ready (length tokens.now) (length store.old) cursor.pos cursor.at }
    ensures { Reading records (atom_def (at_depth depth)) tokens.now cursor.pos (cursor.pos + 2) 20 cursor.at store.old queue.old store.new queue.new result }
{
    let token = look(tokens, cursor.pos)?;
    let next = Cursor {
        pos: cursor.pos + 2,
        ..cursor
    };
    if token.kind == kind::OPEN_PAREN {
        return group(tokens, store, queue, depth, next);
    }
    literal(store, token.kind, token.value, next)
}

// `parse_group_expr`, behind `(`.
#[cycle(reading)]
fn group(
    tokens: &[u64],
    store: &mut [u64],
    queue: &mut Waiting,
    depth: usize,
    cursor: Cursor,
) -> Result<Cursor, Halt>
    requires { Ready (length tokens.now) (length store.old) cursor.pos cursor.at }
    ensures { Reading records (group_expr (at_depth depth)) tokens.now cursor.pos cursor.pos 8 cursor.at store.old queue.old store.new queue.new result }
{
    let token = look(tokens, cursor.pos)?;
    if token.kind == kind::CLOSE_PAREN {
        return Ok(Cursor {
            pos: cursor.pos + 2,
            at: emit(store, cursor.at, word::EMPTY_TUPLE, 0),
        });
    }
    let modifier = assign_keyword(tokens, cursor.pos)?;
    let start = Cursor {
        pos: modifier.pos,
        ..cursor
    };
    let inner = expr(tokens, store, queue, depth, start)?;
    let pos = expect(tokens, kind::CLOSE_PAREN, number::GROUP_CLOSING, inner.pos)?;
    Ok(Cursor {
        pos,
        at: group_end(store, inner.at, modifier.action),
    })
}

// `parse_indexing_expr`, behind `[`.
#[cycle(reading)]
fn index(
    tokens: &[u64],
    store: &mut [u64],
    queue: &mut Waiting,
    depth: usize,
    cursor: Cursor,
) -> Result<Cursor, Halt>
    requires { Ready (length tokens.now) (length store.old) cursor.pos cursor.at }
    ensures { Reading records (indexing_expr (at_depth depth)) tokens.now cursor.pos cursor.pos 8 cursor.at store.old queue.old store.new queue.new result }
{
    let inner = expr(tokens, store, queue, depth, cursor)?;
    let pos = expect(tokens, kind::CLOSE_SQUARE, number::INDEX_CLOSING, inner.pos)?;
    Ok(Cursor { pos, ..inner })
}

// `parse_invocation`, behind `(`.
#[cycle(reading)]
fn call(
    tokens: &[u64],
    store: &mut [u64],
    queue: &mut Waiting,
    depth: usize,
    cursor: Cursor,
) -> Result<Cursor, Halt>
    requires { Ready (length tokens.now) (length store.old) cursor.pos cursor.at }
    ensures { Reading records (invocation (at_depth depth)) tokens.now cursor.pos cursor.pos 8 cursor.at store.old queue.old store.new queue.new result }
{
    let token = look(tokens, cursor.pos)?;
    if token.kind == kind::CLOSE_PAREN {
        return Ok(Cursor {
            pos: cursor.pos + 2,
            at: bare_call(store, cursor.at),
        });
    }
    let inner = expr(tokens, store, queue, depth, cursor)?;
    let pos = expect(
        tokens,
        kind::CLOSE_PAREN,
        number::ARGUMENTS_CLOSING,
        inner.pos,
    )?;
    Ok(Cursor {
        pos,
        at: call_end(store, inner.at),
    })
}

// `parse_table_literal`, behind `{`: the items and their list.
#[cycle(reading)]
fn table(
    tokens: &[u64],
    store: &mut [u64],
    queue: &mut Waiting,
    depth: usize,
    cursor: Cursor,
) -> Result<Cursor, Halt>
    requires { Ready (length tokens.now) (length store.old) cursor.pos cursor.at }
    ensures { Reading list_words (table_literal (at_depth depth)) tokens.now cursor.pos cursor.pos 8 cursor.at store.old queue.old store.new queue.new result }
{
    let mut end = cursor;
    let mut n: u64 = 0;
    loop {
        let token = look(tokens, end.pos)?;
        if token.kind == kind::CLOSE_BRACE {
            return Ok(Cursor {
                pos: end.pos + 2,
                at: list_end(store, end.at, n),
            });
        }
        let one = item(tokens, store, queue, depth, end)?;
        let closing = item_end(tokens, one.pos)?;
        end = Cursor {
            pos: closing.pos,
            ..one
        };
        n += 1;
        if closing.number == 1 {
            return Ok(Cursor {
                at: list_end(store, end.at, n),
                ..end
            });
        }
    }
}

// One `TableItem`.
#[cycle(reading)]
fn item(
    tokens: &[u64],
    store: &mut [u64],
    queue: &mut Waiting,
    depth: usize,
    cursor: Cursor,
) -> Result<Cursor, Halt>
    requires { Ready (length tokens.now) (length store.old) cursor.pos cursor.at }
    ensures { Reading records (table_item (at_depth depth)) tokens.now cursor.pos cursor.pos 8 cursor.at store.old queue.old store.new queue.new result }
{
    let field = key(tokens, store, queue, depth, cursor)?;
    let pos = expect(tokens, kind::OP_ASSIGN, number::MISSING_ASSIGN, field.pos)?;
    let start = Cursor { pos, ..field };
    let value = binop(tokens, store, queue, depth, PRECEDENCE_START, start)?;
    Ok(Cursor {
        at: emit(store, value.at, word::TABLE_ITEM, 0),
        ..value
    })
}

// `parse_table_field`.
#[cycle(reading)]
fn key(
    tokens: &[u64],
    store: &mut [u64],
    queue: &mut Waiting,
    depth: usize,
    cursor: Cursor,
) -> Result<Cursor, Halt>
    requires { Ready (length tokens.now) (length store.old) cursor.pos cursor.at }
    ensures { Reading records (table_field (at_depth depth)) tokens.now cursor.pos cursor.pos 8 cursor.at store.old queue.old store.new queue.new result }
{
    let token = look(tokens, cursor.pos)?;
    let next = Cursor {
        pos: cursor.pos + 2,
        ..cursor
    };
    if token.kind != kind::OPEN_SQUARE {
        return named_field(tokens, store, token.kind, token.value, next);
    }
    let place = index(tokens, store, queue, depth, next)?;
    Ok(Cursor {
        at: emit(store, place.at, word::FIELD_INDEX, 0),
        ..place
    })
}

// `parse_binop_expr_levels`, by climbing: one loop takes the operators of every level up to this one, and reads the right side of each at the level below its own.
#[cycle(reading)]
fn binop(
    tokens: &[u64],
    store: &mut [u64],
    queue: &mut Waiting,
    depth: usize,
    level: u64,
    cursor: Cursor,
) -> Result<Cursor, Halt>
    requires { Ready (length tokens.now) (length store.old) cursor.pos cursor.at × (level ≤ level_count) }
    ensures { Reading records (binop_expr (at_depth depth) level) tokens.now cursor.pos (cursor.pos + 2) 20 cursor.at store.old queue.old store.new queue.new result }
{
    if level == PRECEDENCE_END {
        return unop(tokens, store, queue, depth, cursor);
    }
    let mut left = unop(tokens, store, queue, depth, cursor)?;
    loop {
        let token = look(tokens, left.pos)?;
        let Some(op) = which_binary_op(token.kind) else {
            return Ok(left);
        };
        let l = precedence_level(op);
        if level < l {
            return Ok(left);
        }
        let start = Cursor {
            pos: left.pos + 2,
            ..left
        };
        let right = binop(tokens, store, queue, depth, l - 1, start)?;
        left = Cursor {
            at: emit(store, right.at, word::BINARY_OP, u64::from(op)),
            ..right
        };
    }
}

// `parse_tuple_expr`.
#[cycle(reading)]
fn tuple(
    tokens: &[u64],
    store: &mut [u64],
    queue: &mut Waiting,
    depth: usize,
    cursor: Cursor,
) -> Result<Cursor, Halt>
    requires { Ready (length tokens.now) (length store.old) cursor.pos cursor.at }
    ensures { Reading records (tuple_expr (at_depth depth)) tokens.now cursor.pos (cursor.pos + 2) 16 cursor.at store.old queue.old store.new queue.new result }
{
    let first = binop(tokens, store, queue, depth, PRECEDENCE_START, cursor)?;
    let token = look(tokens, first.pos)?;
    if token.kind == kind::COMMA {
        return tail(tokens, store, queue, depth, first);
    }
    Ok(first)
}

// The members of a tuple, after the first; a last comma counts only before `CloseParen`.
#[cycle(reading)]
fn tail(
    tokens: &[u64],
    store: &mut [u64],
    queue: &mut Waiting,
    depth: usize,
    cursor: Cursor,
) -> Result<Cursor, Halt>
    requires { Ready (length tokens.now) (length store.old) cursor.pos cursor.at × Lent (length tokens.now) (length store.old) cursor.pos cursor.at }
    ensures { Reading tuple_words (λ q ts. tail_def (at_depth depth) (length ts) none q ts) tokens.now cursor.pos cursor.pos 4 cursor.at store.old queue.old store.new queue.new result }
{
    let mut end = cursor;
    let mut n: u64 = 1;
    loop {
        let token = look(tokens, end.pos)?;
        if token.kind != kind::COMMA {
            return Ok(Cursor {
                at: tuple_end(store, end.at, n),
                ..end
            });
        }
        let next = Cursor {
            pos: end.pos + 2,
            ..end
        };
        let other = look(tokens, next.pos)?;
        if other.kind == kind::CLOSE_PAREN {
            return Ok(Cursor {
                at: tuple_end(store, end.at, n),
                ..next
            });
        }
        end = binop(tokens, store, queue, depth, PRECEDENCE_START, next)?;
        n += 1;
    }
}

// `parse_assignment_expr`, and so `parse_expr_variant` and `parse_expr`.
#[cycle(reading)]
fn expr(
    tokens: &[u64],
    store: &mut [u64],
    queue: &mut Waiting,
    depth: usize,
    cursor: Cursor,
) -> Result<Cursor, Halt>
    requires { Ready (length tokens.now) (length store.old) cursor.pos cursor.at }
    ensures { Reading records (expr_def (at_depth depth)) tokens.now cursor.pos (cursor.pos + 2) 16 cursor.at store.old queue.old store.new queue.new result }
{
    let keyword = assign_keyword(tokens, cursor.pos)?;
    let start = Cursor {
        pos: keyword.pos,
        ..cursor
    };
    let left = tuple(tokens, store, queue, depth, start)?;
    let token = look(tokens, left.pos)?;
    let Some(op) = which_assignment_op(token.kind) else {
        return unassigned(keyword.action, left);
    };
    let next = Cursor {
        pos: left.pos + 2,
        ..left
    };
    let target = expect_pattern(store, cursor.at, number::CANNOT_ASSIGN, next)?;
    let right = rhs(tokens, store, queue, depth, target)?;
    let value = u64::from(action(keyword.action)) + 4 * u64::from(op);
    Ok(Cursor {
        at: emit(store, right.at, word::ASSIGNMENT, value),
        ..right
    })
}

// The right side of an assignment.
#[cycle(reading)]
fn rhs(
    tokens: &[u64],
    store: &mut [u64],
    queue: &mut Waiting,
    depth: usize,
    cursor: Cursor,
) -> Result<Cursor, Halt>
    requires { Ready (length tokens.now) (length store.old) cursor.pos cursor.at }
    ensures { Reading records (at_depth depth).right tokens.now cursor.pos (cursor.pos + 2) 16 cursor.at store.old queue.old store.new queue.new result }
{
    if depth == 0 {
        return Err(Halt::Stop(limit::TOO_DEEP));
    }
    expr(tokens, store, queue, depth - 1, cursor)
}

// A list up to `End`, and one token, unseen: behind a control that was not last it may be any.
#[cycle(reading)]
fn body(
    tokens: &[u64],
    store: &mut [u64],
    queue: &mut Waiting,
    depth: usize,
    cursor: Cursor,
) -> Result<Listed, Halt>
    requires { Ready (length tokens.now) (length store.old) cursor.pos cursor.at }
    ensures { Lists (body_def (at_depth depth) queue.old (drop cursor.pos tokens.now)) tokens.now cursor.pos 24 cursor.at store.old queue.old store.new queue.new result }
{
    let statements = list(tokens, store, queue, depth, Until::End, cursor)?;
    past(tokens, statements)
}

// `parse_block_expr`, behind `begin`, with a label, 0 or 1 + its name.
#[cycle(reading)]
fn block(
    tokens: &[u64],
    store: &mut [u64],
    queue: &mut Waiting,
    depth: usize,
    label: u64,
    cursor: Cursor,
) -> Result<Cursor, Halt>
    requires { Ready (length tokens.now) (length store.old) cursor.pos cursor.at }
    ensures { Reading records (block_expr (at_depth depth) label) tokens.now cursor.pos cursor.pos 8 cursor.at store.old queue.old store.new queue.new result }
{
    let statements = body(tokens, store, queue, depth, cursor)?;
    Ok(block_under(store, statements, word::BLOCK, label))
}

// `parse_expr_label`, behind the label.
#[cycle(reading)]
fn begin(
    tokens: &[u64],
    store: &mut [u64],
    queue: &mut Waiting,
    depth: usize,
    label: u64,
    cursor: Cursor,
) -> Result<Cursor, Halt>
    requires { Ready (length tokens.now) (length store.old) cursor.pos cursor.at }
    ensures { Reading records (expr_label (at_depth depth) label) tokens.now cursor.pos cursor.pos 8 cursor.at store.old queue.old store.new queue.new result }
{
    let token = look(tokens, cursor.pos)?;
    if token.kind != kind::BEGIN {
        return Err(Halt::Fail(Failure {
            error: number::LABEL_ALONE,
            pos: cursor.pos,
        }));
    }
    let next = Cursor {
        pos: cursor.pos + 2,
        ..cursor
    };
    block(tokens, store, queue, depth, label, next)
}

// `parse_if_expr`, behind `if`. Any token but `End` and `Else` behind a branch acts as `Elif`.
#[cycle(reading)]
fn cond(
    tokens: &[u64],
    store: &mut [u64],
    queue: &mut Waiting,
    depth: usize,
    cursor: Cursor,
) -> Result<Cursor, Halt>
    requires { Ready (length tokens.now) (length store.old) cursor.pos cursor.at }
    ensures { Reading records (if_expr_def (at_depth depth)) tokens.now cursor.pos cursor.pos 8 cursor.at store.old queue.old store.new queue.new result }
{
    let mut end = cursor;
    let mut n: u64 = 0;
    loop {
        let branch = arm(tokens, store, queue, depth, end)?;
        let token = look(tokens, branch.pos)?;
        end = Cursor {
            pos: branch.pos + 2,
            ..branch
        };
        n += 1;
        match token.kind {
            kind::END => {
                return Ok(Cursor {
                    at: if_end(store, end.at, n),
                    ..end
                });
            }
            kind::ELSE => {
                let at = list_end(store, end.at, n);
                let otherwise = body(tokens, store, queue, depth, Cursor { at, ..end })?;
                return Ok(block_under(store, otherwise, word::IF_EXPR, 0));
            }
            _ => {}
        }
    }
}

// One branch of a conditional: the condition, `then`, and the list up to `Elif`, `Else` or `End`.
#[cycle(reading)]
fn arm(
    tokens: &[u64],
    store: &mut [u64],
    queue: &mut Waiting,
    depth: usize,
    cursor: Cursor,
) -> Result<Cursor, Halt>
    requires { Ready (length tokens.now) (length store.old) cursor.pos cursor.at }
    ensures { Reading records (arm_def (at_depth depth)) tokens.now cursor.pos cursor.pos 8 cursor.at store.old queue.old store.new queue.new result }
{
    let condition = expr(tokens, store, queue, depth, cursor)?;
    let pos = expect(tokens, kind::THEN, number::MISSING_THEN, condition.pos)?;
    let start = Cursor { pos, ..condition };
    let statements = list(tokens, store, queue, depth, Until::Branch, start)?;
    Ok(block_under(store, statements, word::CONDITIONAL_BRANCH, 0))
}

// `parse_function_decl_expr`, behind `fun`: with a target it is an assignment, as after `let`.
#[cycle(reading)]
fn fun(
    tokens: &[u64],
    store: &mut [u64],
    queue: &mut Waiting,
    depth: usize,
    cursor: Cursor,
) -> Result<Cursor, Halt>
    requires { Ready (length tokens.now) (length store.old) cursor.pos cursor.at }
    ensures { Reading records (function_decl_expr (at_depth depth)) tokens.now cursor.pos cursor.pos 8 cursor.at store.old queue.old store.new queue.new result }
{
    let token = look(tokens, cursor.pos)?;
    if token.kind == kind::OPEN_PAREN {
        return def(tokens, store, queue, depth, 0, cursor);
    }
    let target = dest(tokens, store, queue, depth, cursor)?;
    let name = target_name(store, target.at, token.value);
    let function = def(tokens, store, queue, depth, name, target)?;
    Ok(Cursor {
        at: emit(store, function.at, word::ASSIGNMENT, 2),
        ..function
    })
}

// `parse_function_assignment_target`: no invocation in its path.
#[cycle(reading)]
fn dest(
    tokens: &[u64],
    store: &mut [u64],
    queue: &mut Waiting,
    depth: usize,
    cursor: Cursor,
) -> Result<Cursor, Halt>
    requires { Ready (length tokens.now) (length store.old) cursor.pos cursor.at }
    ensures { Reading records (function_assignment_target (at_depth depth)) tokens.now cursor.pos cursor.pos 8 cursor.at store.old queue.old store.new queue.new result }
{
    let receiver = atom(tokens, store, queue, depth, cursor)?;
    let target = path(tokens, store, queue, depth, false, receiver)?;
    expect_pattern(store, cursor.at, number::FUNCTION_TARGET, target)
}

// `parse_function_def`; name is what the signature has for a name, 0 or 1 + it.
#[cycle(reading)]
fn def(
    tokens: &[u64],
    store: &mut [u64],
    queue: &mut Waiting,
    depth: usize,
    name: u64,
    cursor: Cursor,
) -> Result<Cursor, Halt>
    requires { Ready (length tokens.now) (length store.old) cursor.pos cursor.at }
    ensures { Reading records (function_def (at_depth depth) name) tokens.now cursor.pos cursor.pos 10 cursor.at store.old queue.old store.new queue.new result }
{
    let pos = expect(tokens, kind::OPEN_PAREN, number::PARAMS_OPENING, cursor.pos)?;
    let start = Cursor { pos, ..cursor };
    let parameters = sig(tokens, store, queue, depth, start)?;
    let signature = signature_end(tokens, store, name, parameters)?;
    let statements = body(tokens, store, queue, depth, signature)?;
    Ok(block_under(store, statements, word::FUNCTION_DEF, 0))
}

// `parse_function_param_list`: the children of the signature.
#[cycle(reading)]
fn sig(
    tokens: &[u64],
    store: &mut [u64],
    queue: &mut Waiting,
    depth: usize,
    cursor: Cursor,
) -> Result<Cursor, Halt>
    requires { Ready (length tokens.now) (length store.old) cursor.pos cursor.at × Lent (length tokens.now) (length store.old) cursor.pos cursor.at }
    ensures { Reading signature_words (function_param_list (at_depth depth)) tokens.now cursor.pos cursor.pos 2 cursor.at store.old queue.old store.new queue.new result }
{
    let mut end = cursor;
    let mut counts = Counts {
        required: 0,
        default: 0,
        variadic: None,
    };
    loop {
        let token = look(tokens, end.pos)?;
        if token.kind == kind::CLOSE_PAREN {
            return Ok(Cursor {
                at: params_end(store, end.at, counts),
                ..end
            });
        }
        let one = param(tokens, store, queue, depth, counts, end)?;
        let all = joined(tokens, store, one, counts, end.at)?;
        end = all.end;
        counts = all.counts;
    }
}

// One parameter, up to what must be a comma or `)`; a default takes commas into a tuple.
#[cycle(reading)]
fn param(
    tokens: &[u64],
    store: &mut [u64],
    queue: &mut Waiting,
    depth: usize,
    counts: Counts,
    cursor: Cursor,
) -> Result<Parameter, Halt>
    requires { Ready (length tokens.now) (length store.old) cursor.pos cursor.at × (counts.required ≤ 65536) }
    ensures { ParamsRead (param_def (at_depth depth) queue.old (drop cursor.pos tokens.now)) tokens.now cursor.pos counts.required counts.default cursor.at store.old queue.old store.new queue.new result }
{
    match param_head(tokens, cursor.pos)? {
        Head::Required(pos, v) => Ok(Parameter::Required(pos, v)),
        Head::Variadic(pos, v) => Ok(Parameter::Variadic(pos, v)),
        Head::Default(pos, v) => {
            let at = required_end(store, cursor.at, counts);
            let value = expr(tokens, store, queue, depth, Cursor { pos, at })?;
            Ok(Parameter::Default(Cursor {
                at: emit(store, value.at, word::DEFAULT_DEF, v),
                ..value
            }))
        }
    }
}

// `parse_stmt`, whose callers have passed over separators.
#[cycle(reading)]
pub fn stmt(
    tokens: &[u64],
    store: &mut [u64],
    queue: &mut Waiting,
    depth: usize,
    cursor: Cursor,
) -> Result<Cursor, Halt>
    requires { Ready (length tokens.now) (length store.old) cursor.pos cursor.at }
    ensures { Reading records (stmt_def (at_depth depth)) tokens.now cursor.pos (cursor.pos + 2) 14 cursor.at store.old queue.old store.new queue.new result }
{
    let token = look(tokens, cursor.pos)?;
    let next = Cursor {
        pos: cursor.pos + 2,
        ..cursor
    };
    match token.kind {
        kind::LOOP => loops(tokens, store, queue, depth, 0, next),
        kind::WHILE => whiles(tokens, store, queue, depth, word::WHILE_LOOP, 0, next),
        kind::FOR => each(tokens, store, queue, depth, 0, next),
        kind::LABEL => label(tokens, store, queue, depth, token.value + 1, next),
        kind::ASSERT => {
            let condition = expr(tokens, store, queue, depth, next)?;
            Ok(Cursor {
                at: emit(store, condition.at, word::ASSERT, 0),
                ..condition
            })
        }
        _ => {
            if is_control(token.kind) {
                return Err(Halt::Fail(Failure {
                    error: not_allowed(token.kind),
                    pos: next.pos,
                }));
            }
            let expression = expr(tokens, store, queue, depth, cursor)?;
            expression_end(store, expression)
        }
    }
}

// `parse_stmt_label`, behind the label, 1 + its name.
#[cycle(reading)]
fn label(
    tokens: &[u64],
    store: &mut [u64],
    queue: &mut Waiting,
    depth: usize,
    label: u64,
    cursor: Cursor,
) -> Result<Cursor, Halt>
    requires { Ready (length tokens.now) (length store.old) cursor.pos cursor.at }
    ensures { Reading records (stmt_label (at_depth depth) label) tokens.now cursor.pos cursor.pos 8 cursor.at store.old queue.old store.new queue.new result }
{
    let token = look(tokens, cursor.pos)?;
    let next = Cursor {
        pos: cursor.pos + 2,
        ..cursor
    };
    match token.kind {
        kind::LOOP => loops(tokens, store, queue, depth, label, next),
        kind::WHILE => whiles(tokens, store, queue, depth, word::WHILE_LOOP, label, next),
        kind::FOR => each(tokens, store, queue, depth, label, next),
        _ => Err(Halt::Fail(Failure {
            error: number::LABEL_ALONE,
            pos: cursor.pos,
        })),
    }
}

// `parse_loop`, behind `loop`, with a label, 0 or 1 + its name.
#[cycle(reading)]
fn loops(
    tokens: &[u64],
    store: &mut [u64],
    queue: &mut Waiting,
    depth: usize,
    label: u64,
    cursor: Cursor,
) -> Result<Cursor, Halt>
    requires { Ready (length tokens.now) (length store.old) cursor.pos cursor.at }
    ensures { Reading records (loop_def (at_depth depth) label) tokens.now cursor.pos cursor.pos 8 cursor.at store.old queue.old store.new queue.new result }
{
    let statements = body(tokens, store, queue, depth, cursor)?;
    Ok(list_under(store, statements, word::LOOP, label))
}

// `parse_while_loop`, behind `while`; and the same behind `in` of a for loop, whose record has another word.
#[cycle(reading)]
fn whiles(
    tokens: &[u64],
    store: &mut [u64],
    queue: &mut Waiting,
    depth: usize,
    word: u64,
    label: u64,
    cursor: Cursor,
) -> Result<Cursor, Halt>
    requires { Ready (length tokens.now) (length store.old) cursor.pos cursor.at }
    ensures { Reading (whiles_words word label) (whiles_def (at_depth depth)) tokens.now cursor.pos cursor.pos 8 cursor.at store.old queue.old store.new queue.new result }
{
    let over = expr(tokens, store, queue, depth, cursor)?;
    let pos = expect(tokens, kind::DO, number::MISSING_DO, over.pos)?;
    let statements = body(tokens, store, queue, depth, Cursor { pos, ..over })?;
    Ok(list_under(store, statements, word, label))
}

// `parse_for_loop`, behind `for`.
#[cycle(reading)]
fn each(
    tokens: &[u64],
    store: &mut [u64],
    queue: &mut Waiting,
    depth: usize,
    label: u64,
    cursor: Cursor,
) -> Result<Cursor, Halt>
    requires { Ready (length tokens.now) (length store.old) cursor.pos cursor.at }
    ensures { Reading records (for_loop (at_depth depth) label) tokens.now cursor.pos cursor.pos 8 cursor.at store.old queue.old store.new queue.new result }
{
    let left = lhs(tokens, store, queue, depth, cursor)?;
    let pos = expect(tokens, kind::IN, number::MISSING_DO, left.pos)?;
    let start = Cursor { pos, ..left };
    whiles(tokens, store, queue, depth, word::FOR_LOOP, label, start)
}

// `parse_lvalue_list`.
#[cycle(reading)]
fn lhs(
    tokens: &[u64],
    store: &mut [u64],
    queue: &mut Waiting,
    depth: usize,
    cursor: Cursor,
) -> Result<Cursor, Halt>
    requires { Ready (length tokens.now) (length store.old) cursor.pos cursor.at }
    ensures { Reading records (lvalue_list (at_depth depth)) tokens.now cursor.pos cursor.pos 8 cursor.at store.old queue.old store.new queue.new result }
{
    let keyword = assign_keyword(tokens, cursor.pos)?;
    let start = Cursor {
        pos: keyword.pos,
        ..cursor
    };
    let left = tuple(tokens, store, queue, depth, start)?;
    let target = expect_pattern(store, cursor.at, number::CANNOT_ASSIGN, left)?;
    Ok(Cursor {
        at: modified(store, target.at, keyword.action),
        ..target
    })
}

// The value of a break or return, or `Absent`.
#[cycle(reading)]
fn val(
    tokens: &[u64],
    store: &mut [u64],
    queue: &mut Waiting,
    depth: usize,
    cursor: Cursor,
) -> Result<Cursor, Halt>
    requires { Ready (length tokens.now) (length store.old) cursor.pos cursor.at × Lent (length tokens.now) (length store.old) cursor.pos cursor.at }
    ensures { Reading records (control_value (at_depth depth)) tokens.now cursor.pos cursor.pos 6 cursor.at store.old queue.old store.new queue.new result }
{
    let token = look(tokens, cursor.pos)?;
    if ends_control(token.kind) {
        return Ok(Cursor {
            at: emit(store, cursor.at, word::ABSENT, 0),
            ..cursor
        });
    }
    expr(tokens, store, queue, depth, cursor)
}

// `try_parse_control_flow`, behind its token.
#[cycle(reading)]
fn jump(
    tokens: &[u64],
    store: &mut [u64],
    queue: &mut Waiting,
    depth: usize,
    control: Control,
    cursor: Cursor,
) -> Result<Cursor, Halt>
    requires { Ready (length tokens.now) (length store.old) cursor.pos cursor.at × Lent (length tokens.now) (length store.old) cursor.pos cursor.at }
    ensures { Reading records (control_flow (at_depth depth) (control_kind control)) tokens.now cursor.pos cursor.pos 4 cursor.at store.old queue.old store.new queue.new result }
{
    match control {
        Control::Continue => {
            let label = try_label(tokens, cursor.pos)?;
            let at = emit(store, cursor.at, word::CONTINUE, label.number);
            Ok(Cursor { pos: label.pos, at })
        }
        Control::Break => {
            let label = try_label(tokens, cursor.pos)?;
            let start = Cursor {
                pos: label.pos,
                ..cursor
            };
            let value = val(tokens, store, queue, depth, start)?;
            Ok(Cursor {
                at: emit(store, value.at, word::BREAK, label.number),
                ..value
            })
        }
        Control::Return => {
            let value = val(tokens, store, queue, depth, cursor)?;
            Ok(Cursor {
                at: emit(store, value.at, word::RETURN, 0),
                ..value
            })
        }
    }
}

// `synchronize_stmt`: an expression that reads is dropped and ends it; one that fails, and a lexer error, are passed over.
#[cycle(reading)]
pub fn sync(
    tokens: &[u64],
    store: &mut [u64],
    queue: &mut Waiting,
    depth: usize,
    inside: bool,
    cursor: Cursor,
) -> Result<usize, Halt>
    requires { Ready (length tokens.now) (length store.old) cursor.pos cursor.at }
    ensures { Crosses (synchronize (at_depth depth) inside (length (drop cursor.pos tokens.now)) queue.old (drop cursor.pos tokens.now)) tokens.now cursor.pos cursor.at store.old queue.old store.new queue.new result }
{
    let mut pos = cursor.pos;
    loop {
        match look(tokens, pos) {
            Ok(token) => {
                if halts(inside, token.kind) {
                    return Ok(pos);
                }
                match expr(tokens, store, queue, depth, Cursor { pos, ..cursor }) {
                    Ok(end) => return Ok(end.pos),
                    Err(Halt::Fail(failure)) => pos = failure.pos,
                    Err(Halt::Stop(n)) => return Err(Halt::Stop(n)),
                }
            }
            Err(Halt::Fail(failure)) => {
                if failure.error == number::END_OF_TOKENS {
                    return Ok(pos);
                }
                pos = failure.pos;
            }
            Err(Halt::Stop(n)) => return Err(Halt::Stop(n)),
        }
    }
}

// `catch_error_and_sync`: an error of a statement of a list is caught, but for the end of the tokens. It waits at the back,
// and reading goes on where it can.
#[cycle(reading)]
fn catch(
    tokens: &[u64],
    store: &mut [u64],
    queue: &mut Waiting,
    depth: usize,
    f: Failure,
    at: usize,
) -> Result<usize, Halt>
    requires { Ready (length tokens.now) (length store.old) f.pos at }
    ensures { Crosses (caught_def (at_depth depth) f.error queue.old (drop f.pos tokens.now)) tokens.now f.pos at store.old queue.old store.new queue.new result }
{
    if f.error == number::END_OF_TOKENS {
        return Err(Halt::Fail(f));
    }
    queue.try_push(f.error)?;
    let pos = sync(tokens, store, queue, depth, true, Cursor { pos: f.pos, at })?;
    synchronized(tokens, queue, pos)?;
    Ok(pos)
}

// One place of a statement list, behind the statements so far, where a token of this kind stands that does not end it.
#[cycle(reading)]
fn turn(
    tokens: &[u64],
    store: &mut [u64],
    queue: &mut Waiting,
    depth: usize,
    end: Until,
    kind: u64,
    suite: Suite,
) -> Result<Entry, Halt>
    requires { Ready (length tokens.now) (length store.old) suite.end.pos suite.end.at × (suite.end.pos + 2 ≤ length tokens.now) × (suite.count ≤ 65536) }
    ensures { Enters (turn_def (at_depth depth) (until end) kind (drop (suite.end.pos + 2) tokens.now) queue.old (drop suite.end.pos tokens.now)) tokens.now suite.end.pos suite.count suite.end.at store.old queue.old store.new queue.new result }
{
    let place = suite.end;
    if let Some(control) = which_control(kind) {
        let start = Cursor {
            pos: place.pos + 2,
            at: list_end(store, place.at, suite.count),
        };
        return match jump(tokens, store, queue, depth, control, start) {
            Ok(next) => {
                let pos = control_last(tokens, queue, end, kind, next.pos)?;
                Ok(Entry::Control(Cursor { pos, ..next }))
            }
            Err(Halt::Fail(f)) => {
                let pos = catch(tokens, store, queue, depth, f, place.at)?;
                Ok(Entry::Caught(pos))
            }
            Err(Halt::Stop(n)) => Err(Halt::Stop(n)),
        };
    }
    match stmt(tokens, store, queue, depth, place) {
        Ok(next) => Ok(Entry::Stmt(next)),
        Err(Halt::Fail(f)) => {
            let pos = catch(tokens, store, queue, depth, f, place.at)?;
            Ok(Entry::Caught(pos))
        }
        Err(Halt::Stop(n)) => Err(Halt::Stop(n)),
    }
}

// `parse_stmt_list`, up to where it ends.
#[cycle(reading)]
fn list(
    tokens: &[u64],
    store: &mut [u64],
    queue: &mut Waiting,
    depth: usize,
    end: Until,
    cursor: Cursor,
) -> Result<Listed, Halt>
    requires { Ready (length tokens.now) (length store.old) cursor.pos cursor.at }
    ensures { Lists ((at_depth depth).list (until end) queue.old (drop cursor.pos tokens.now)) tokens.now cursor.pos 8 cursor.at store.old queue.old store.new queue.new result }
{
    if depth == 0 {
        return Err(Halt::Stop(limit::TOO_DEEP));
    }
    let mut suite = Suite {
        end: cursor,
        count: 0,
        last: None,
    };
    loop {
        let token = look(tokens, suite.end.pos)?;
        if token.kind == kind::SEMICOLON {
            suite.end.pos += 2;
            continue;
        }
        if end.ends(token.kind) {
            return Ok(Listed::Suite(suite));
        }
        match turn(tokens, store, queue, depth - 1, end, token.kind, suite)? {
            Entry::Stmt(next) => {
                suite.last = mark(store, suite.end.at, next.at);
                suite.count += 1;
                suite.end = next;
            }
            Entry::Control(next) => return Ok(Listed::Control(next)),
            Entry::Caught(pos) => suite.end.pos = pos,
        }
    }
}
