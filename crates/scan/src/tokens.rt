// What stands at a place of the tokens, and what is read of them without recursion.
// Stays tokens and a place, two parameters, as in crates/cycle: the tokens are lent whole, and each function answers a place in them.
ghost use Rattle.std.specs.Prelude.{◌≡◌, ◌&&◌, ◌||◌, suc, ◌+◌, ◌≤◌, eqb, length, drop};
ghost use Rattle.token.specs.Kind;
ghost use Rattle.grammar.specs.Reading.Look.{expect as expect_def, try_label as try_label_def, keyword as keyword_def, try_assign_keyword};
ghost use Rattle.grammar.specs.Reading.Expr.{keyword_alone as keyword_alone_def};
ghost use Rattle.grammar.specs.Reading.Primary.{atom_error as atom_error_def};
ghost use Rattle.grammar.specs.Reading.Stmt.{ends as ends_def, is_control as is_control_def, not_last as not_last_def, starts_stmt};
ghost use Rattle.grammar.specs.Reading.Next.{start as start_def};
ghost use Rattle.scan.specs.Post.{Saw, Reads, Finds, itself, value_of};
ghost use Rattle.scan.specs.Parts.{action_number, keyword_code, keyword_found, unassigned_result, goes_on, not_allowed as not_allowed_def, until};
ghost use Rattle.scan.specs.Lists.{Within, Passes};

use crate::{Action, Cursor, Failure, Found, Halt, Keyword, Listed, Suite, Until, number};
use grammar::limit;
use token::{Token, Unread, kind};

pub fn look(tokens: &[u64], pos: usize) -> Result<Token, Halt>
    requires { pos ≤ length tokens.now }
    ensures { Saw tokens.now pos result }
{
    match token::look(tokens, pos) {
        Ok(token) => Ok(token),
        Err(Unread::LexerError) => Err(Halt::Fail(Failure {
            error: number::LEXER_ERROR,
            pos: pos + 2,
        })),
        Err(Unread::Nothing) => Err(Halt::Fail(Failure {
            error: number::END_OF_TOKENS,
            pos,
        })),
        Err(Unread::Bad) => Err(Halt::Stop(limit::MALFORMED)),
    }
}

// The next token is taken, and is of the kind k; else the error e. Answers past which word the reading stands.
pub fn expect(tokens: &[u64], k: u64, e: u64, pos: usize) -> Result<usize, Halt>
    requires { pos ≤ length tokens.now }
    ensures { Reads (λ q. expect_def k e q (drop pos tokens.now)) tokens.now pos (pos + 2) result }
{
    let token = look(tokens, pos)?;
    let pos = pos + 2;
    if token.kind != k {
        return Err(Halt::Fail(Failure { error: e, pos }));
    }
    Ok(pos)
}

// The next token is taken, and is a name; else the error e.
pub fn expect_name(tokens: &[u64], e: u64, pos: usize) -> Result<Found, Halt>
    requires { pos ≤ length tokens.now }
    ensures { Finds value_of (λ q. expect_def Kind.Identifier e q (drop pos tokens.now)) tokens.now pos (pos + 2) (pos + 2) 4294967296 result }
{
    let token = look(tokens, pos)?;
    let pos = pos + 2;
    if token.kind != kind::IDENTIFIER {
        return Err(Halt::Fail(Failure { error: e, pos }));
    }
    Ok(Found {
        pos,
        number: token.value,
    })
}

// `try_parse_label`: 0, or 1 + the label's name.
pub fn try_label(tokens: &[u64], pos: usize) -> Result<Found, Halt>
    requires { pos ≤ length tokens.now }
    ensures { Finds itself (λ q. try_label_def q (drop pos tokens.now)) tokens.now pos pos (pos + 2) 4294967297 result }
{
    let token = look(tokens, pos)?;
    if token.kind != kind::LABEL {
        return Ok(Found { pos, number: 0 });
    }
    Ok(Found {
        pos: pos + 2,
        number: token.value + 1,
    })
}

// The action that a token of this kind stands for before an assignment.
// Stays a function and no TryFrom: that a kind is none is an answer here, and no error.
fn keyword(kind: u64) -> Option<Action>
    ensures { keyword_code result ≡ keyword_def kind }
{
    match kind {
        kind::LOCAL => Some(Action::AssignLocal),
        kind::NONLOCAL => Some(Action::AssignNonLocal),
        kind::LET => Some(Action::DeclImmutable),
        kind::VAR => Some(Action::DeclMutable),
        _ => None,
    }
}

// `try_parse_assign_keyword`.
pub fn assign_keyword(tokens: &[u64], pos: usize) -> Result<Keyword, Halt>
    requires { pos ≤ length tokens.now }
    ensures { Finds itself (λ q. try_assign_keyword q (drop pos tokens.now)) tokens.now pos pos (pos + 2) 5 (keyword_found result) }
{
    match keyword(look(tokens, pos)?.kind) {
        Some(action) => Ok(Keyword {
            pos: pos + 2,
            action: Some(action),
        }),
        None => Ok(Keyword { pos, action: None }),
    }
}

// The error of a keyword that no assignment follows.
fn keyword_alone(action: Action) -> u64
    ensures { result ≡ keyword_alone_def (suc (action_number action)) }
{
    match action {
        Action::AssignLocal => number::LOCAL_ALONE,
        Action::AssignNonLocal => number::NONLOCAL_ALONE,
        Action::DeclImmutable => number::LET_ALONE,
        Action::DeclMutable => number::VAR_ALONE,
    }
}

// An expression that no assignment operator follows: it may not have a keyword before it.
#[tactic(auto, unfolding(crate::specs::Parts::unassigned_result, grammar::specs::Reading::Result::ifb))]
pub fn unassigned(keyword: Option<Action>, cursor: Cursor) -> Result<Cursor, Halt>
    ensures { result ≡ unassigned_result (keyword_code keyword) cursor }
{
    match keyword {
        Some(action) => Err(Halt::Fail(Failure {
            error: keyword_alone(action),
            pos: cursor.pos,
        })),
        None => Ok(cursor),
    }
}

// The error of a token that is no atom.
pub fn atom_error(kind: u64) -> u64
    ensures { result ≡ atom_error_def kind }
{
    match kind {
        kind::CLASS => number::CLASS_NEEDS_PARENS,
        kind::FUN => number::FUN_NEEDS_PARENS,
        kind::LET => number::LET_NEEDS_PARENS,
        kind::VAR => number::VAR_NEEDS_PARENS,
        kind::BEGIN => number::BEGIN_NEEDS_PARENS,
        kind::IF | kind::LABEL => number::OTHER_NEEDS_PARENS,
        kind::CLOSE_PAREN => number::UNMATCHED_PAREN,
        kind::CLOSE_SQUARE => number::UNMATCHED_SQUARE,
        kind::CLOSE_BRACE => number::UNMATCHED_BRACE,
        _ => number::NO_EXPRESSION,
    }
}

// Whether a token goes on a path. A call is none where calls are not allowed, or where it begins a line.
pub fn continues(calls: bool, kind: u64, newline: u64) -> bool
    ensures { result ≡ goes_on calls kind newline }
{
    match kind {
        kind::OP_ACCESS | kind::OPEN_SQUARE => true,
        kind::OPEN_PAREN | kind::OPEN_BRACE => calls && newline == 0,
        _ => false,
    }
}

impl Until {
    // Whether a token of this kind ends the list.
    pub fn ends(self, kind: u64) -> bool
        ensures { result ≡ ends_def (until self) kind }
    {
        match kind {
            kind::END => true,
            kind::ELIF | kind::ELSE => matches!(self, Until::Branch),
            _ => false,
        }
    }
}

// Whether a break or return has no value before this token.
pub fn ends_control(kind: u64) -> bool
    ensures { result ≡ (ends_def 1 kind || eqb kind Kind.Semicolon) }
{
    kind == kind::SEMICOLON || Until::Branch.ends(kind)
}

// Stays beside cycle's `which_control`: here is asked only whether, and no control is made.
pub fn is_control(kind: u64) -> bool
    ensures { result ≡ is_control_def kind }
{
    matches!(kind, kind::CONTINUE | kind::BREAK | kind::RETURN)
}

// The error of a control where none is allowed.
pub fn not_allowed(kind: u64) -> u64
    ensures { result ≡ not_allowed_def kind }
{
    match kind {
        kind::CONTINUE => number::CONTINUE_NOT_ALLOWED,
        kind::BREAK => number::BREAK_NOT_ALLOWED,
        _ => number::RETURN_NOT_ALLOWED,
    }
}

// The error of a control that is not last in its list.
// Stays beside `not_allowed`: they are two columns of the table of errors, and one function over both would take the column's number.
pub fn not_last(kind: u64) -> u64
    ensures { result ≡ not_last_def kind }
{
    match kind {
        kind::CONTINUE => number::CONTINUE_NOT_LAST,
        kind::BREAK => number::BREAK_NOT_LAST,
        _ => number::RETURN_NOT_LAST,
    }
}

// Where a resynchronization stops: at a token that starts a statement, and in a block before its end.
pub fn halts(inside: bool, kind: u64) -> bool
    ensures { result ≡ (starts_stmt kind || (inside && eqb kind Kind.End)) }
{
    match kind {
        kind::EOF
        | kind::SEMICOLON
        | kind::WHILE
        | kind::LOOP
        | kind::FOR
        | kind::LABEL
        | kind::ASSERT => true,
        kind::END => inside,
        _ => is_control(kind),
    }
}

// The token behind a list is taken.
pub fn past(tokens: &[u64], list: Listed) -> Result<Listed, Halt>
    requires { Within (length tokens.now) list }
    ensures { Passes tokens.now list result }
{
    match list {
        Listed::Suite(suite) => {
            let end = suite.end;
            look(tokens, end.pos)?;
            let end = Cursor {
                pos: end.pos + 2,
                ..end
            };
            Ok(Listed::Suite(Suite { end, ..suite }))
        }
        Listed::Control(end) => {
            look(tokens, end.pos)?;
            Ok(Listed::Control(Cursor {
                pos: end.pos + 2,
                ..end
            }))
        }
    }
}

// At the top level separators are passed over; `EOF`, which stays unread, or no token is the end, here as the error `END`. Answers past which word a
// statement begins.
// Stays `loop`: the tokens say how far it goes.
pub fn start(tokens: &[u64], pos: usize) -> Result<usize, Halt>
    requires { pos ≤ length tokens.now }
    ensures { Reads (λ q. start_def (length (drop pos tokens.now)) q (drop pos tokens.now)) tokens.now pos pos result }
{
    let mut pos = pos;
    loop {
        match look(tokens, pos) {
            Ok(token) => match token.kind {
                kind::EOF => {
                    return Err(Halt::Fail(Failure {
                        error: number::END,
                        pos,
                    }));
                }
                kind::SEMICOLON => pos += 2,
                _ => return Ok(pos),
            },
            Err(Halt::Fail(failure)) => {
                if failure.error == number::END_OF_TOKENS {
                    return Err(Halt::Fail(Failure {
                        error: number::END,
                        pos,
                    }));
                }
                return Err(Halt::Fail(failure));
            }
            Err(Halt::Stop(n)) => return Err(Halt::Stop(n)),
        }
    }
}
