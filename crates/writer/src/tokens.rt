// The tokens of a node: before its children, behind each and behind all. A token is named by its kind.
ghost use Rattle.std.specs.Prelude.{◌≡◌};
ghost use Rattle.tables.specs.Tokens.{label_token as label_token_def, access_token as access_token_def, modifier_token as modifier_token_def, assignment_token as assignment_token_def, later_first_token as later_first_token_def, first_token as first_token_def, second_token as second_token_def, third_token as third_token_def, between as between_def, assigns as assigns_def, first_after as first_after_def, after_token as after_token_def, behind_token as behind_token_def, last_token as last_token_def, name_in as name_in_def, label_in as label_in_def, carried as carried_def};
ghost use Rattle.token.specs.Kind;
ghost use Rattle.tables.specs.Choice.{where_is};
ghost use Rattle.tables.specs.Form.{Branches, Targeted};
ghost use Rattle.tables.specs.Operators.{NoToken};
ghost use Rattle.writer.specs.Form.{place_number, assignment_number, form_of_head};
ghost use Rattle.writer.specs.Text.{token_in, ForToken};

use crate::form::{Form, Head, Place};
use crate::mode::VARIADIC;
use crate::operators::{assign_token, keyword_of, op_token, unary_token};
use token::kind;
use tree::node;

#[tactic(auto, unfolding(tables::specs::Tokens::label_token, tables::specs::Choice::where_zero, crate::specs::Text::token_in))]
fn label_token(value: u64) -> Option<u64>
    ensures { result ≡ token_in (label_token_def value) }
{
    (value != 0).then_some(kind::LABEL)
}

// A name's access, where read-only has no keyword.
#[tactic(auto, unfolding(tables::specs::Tokens::access_token, tables::specs::Choice::where_zero, crate::specs::Text::token_in))]
fn access_token(value: u64) -> Option<u64>
    ensures { result ≡ token_in (access_token_def value) }
{
    (value % 2 != 0).then_some(kind::VAR)
}

// A group's modifier, 0 or 1 + its action.
#[tactic(auto, unfolding(tables::specs::Tokens::modifier_token, crate::specs::Text::token_in))]
fn modifier_token(value: u64) -> Option<u64>
    ensures { result ≡ token_in (modifier_token_def value) }
{
    Some(keyword_of(value.checked_sub(1)?))
}

// What an assignment begins with: `fun`, or its keyword where it stands by itself and its action has one.
#[tactic(auto, unfolding(tables::specs::Tokens::assignment_token, tables::specs::Choice::where_zero, crate::specs::Text::token_in))]
fn assignment_token(value: u64, form: Form) -> Option<u64>
    ensures { result ≡ token_in (assignment_token_def value (assignment_number form)) }
{
    if form.told != 0 {
        return Some(kind::FUN);
    }
    match form.place {
        Place::Own => (value % 4 != 0).then_some(keyword_of(value % 4)),
        _ => None,
    }
}

// What a list begins with: its branches do.
#[tactic(auto, unfolding(tables::specs::Choice::where_is, crate::specs::Text::token_in))]
fn list_token(place: Place) -> Option<u64>
    ensures { result ≡ token_in (where_is (place_number place) Branches Kind.If NoToken) }
{
    match place {
        Place::Branches => Some(kind::IF),
        _ => None,
    }
}

// What a function begins with, but behind a target.
#[tactic(auto, unfolding(tables::specs::Choice::where_is, crate::specs::Text::token_in))]
fn function_token(place: Place) -> Option<u64>
    ensures { result ≡ token_in (where_is (place_number place) Targeted NoToken Kind.Fun) }
{
    match place {
        Place::Targeted => None,
        _ => Some(kind::FUN),
    }
}

// The token behind the member number j of n of a list.
#[tactic(auto, unfolding(tables::specs::Tokens::between, tables::specs::Choice::where_is, crate::specs::Text::token_in))]
fn between(place: Place, n: u64, j: u64) -> Option<u64>
    ensures { result ≡ token_in (between_def (place_number place) n j) }
{
    match place {
        Place::Commas => (j != n).then_some(kind::COMMA),
        Place::Members => (j != n || n == 1).then_some(kind::COMMA),
        Place::Suite => Some(kind::SEMICOLON),
        Place::Branches => (j != n).then_some(kind::ELIF),
        Place::Leading => Some(kind::COMMA),
        _ => None,
    }
}

#[tactic(auto, unfolding(tables::specs::Tokens::assigns, tables::specs::Choice::where_is, crate::specs::Text::token_in))]
fn assigns(value: u64, form: Form) -> Option<u64>
    ensures { result ≡ token_in (assigns_def value (assignment_number form)) }
{
    if form.told != 0 {
        return None;
    }
    assign_token(value / 4)
}

#[tactic(auto, unfolding(tables::specs::Tokens::label_in))]
fn label_in(value: u64) -> u64
    ensures { result ≡ label_in_def value }
{
    value.saturating_sub(1)
}

impl Head {
    // The first token before the children, of atoms, access items and patterns.
    #[tactic(auto, unfolding(tables::specs::Tokens::later_first_token, tables::specs::Choice::where_is, tables::specs::Choice::where_zero, crate::specs::Text::token_in))]
    fn later_first_token(self) -> Option<u64>
        ensures { result ≡ token_in (later_first_token_def self.kind self.value (form_of_head self)) }
    {
        match self.kind {
            node::NIL => Some(kind::NIL),
            node::EMPTY_TUPLE => Some(kind::OPEN_PAREN),
            node::IDENTIFIER => Some(kind::IDENTIFIER),
            node::BOOLEAN_LITERAL if self.value == 0 => Some(kind::FALSE),
            node::BOOLEAN_LITERAL => Some(kind::TRUE),
            node::INTEGER_LITERAL => Some(kind::INTEGER_LITERAL),
            node::FLOAT_LITERAL => Some(kind::FLOAT_LITERAL),
            node::STRING_LITERAL => Some(kind::STRING_LITERAL),
            node::GROUP => Some(kind::OPEN_PAREN),
            node::ATTRIBUTE => Some(kind::OP_ACCESS),
            node::INDEX => Some(kind::OPEN_SQUARE),
            node::INVOKE => Some(kind::OPEN_PAREN),
            node::INVOKE_TABLE => Some(kind::OPEN_BRACE),
            node::IDENTIFIER_PATTERN => Some(kind::IDENTIFIER),
            node::TUPLE_PATTERN => Some(kind::OPEN_PAREN),
            node::PACK => (self.form.told == node::PACK).then_some(kind::OPEN_PAREN),
            node::MODIFIER => Some(kind::OPEN_PAREN),
            _ => None,
        }
    }

    // The same of any kind.
    #[tactic(auto, unfolding(tables::specs::Tokens::first_token, tables::specs::Choice::where_is, crate::specs::Text::token_in))]
    pub fn first_token(self) -> Option<u64>
        ensures { result ≡ token_in (first_token_def self.kind self.value (form_of_head self)) }
    {
        match self.kind {
            node::LIST => list_token(self.form.place),
            node::LOOP => label_token(self.value),
            node::WHILE_LOOP => label_token(self.value),
            node::FOR_LOOP => label_token(self.value),
            node::ASSERT => Some(kind::ASSERT),
            node::CONTINUE => Some(kind::CONTINUE),
            node::BREAK => Some(kind::BREAK),
            node::RETURN => Some(kind::RETURN),
            node::UNARY_OP => unary_token(self.value),
            node::ASSIGNMENT => assignment_token(self.value, self.form),
            node::TABLE => Some(kind::OPEN_BRACE),
            node::BLOCK => label_token(self.value),
            node::FUNCTION_DEF => function_token(self.form.place),
            node::SIGNATURE_DEF => Some(kind::OPEN_PAREN),
            node::PARAM_DEF => access_token(self.value),
            node::DEFAULT_DEF => access_token(self.value),
            node::FIELD_ATTRIBUTE => access_token(self.value),
            node::FIELD_INDEX => Some(kind::OPEN_SQUARE),
            _ => self.later_first_token(),
        }
    }

    // The second token before the children.
    #[tactic(auto, unfolding(tables::specs::Tokens::second_token, crate::specs::Text::token_in))]
    pub fn second_token(self) -> Option<u64>
        ensures { result ≡ token_in (second_token_def self.kind self.value) }
    {
        match self.kind {
            node::LOOP => Some(kind::LOOP),
            node::WHILE_LOOP => Some(kind::WHILE),
            node::FOR_LOOP => Some(kind::FOR),
            node::CONTINUE => label_token(self.value),
            node::BREAK => label_token(self.value),
            node::BLOCK => Some(kind::BEGIN),
            node::PARAM_DEF => Some(kind::IDENTIFIER),
            node::DEFAULT_DEF => Some(kind::IDENTIFIER),
            node::FIELD_ATTRIBUTE => Some(kind::IDENTIFIER),
            node::EMPTY_TUPLE => Some(kind::CLOSE_PAREN),
            node::GROUP => modifier_token(self.value),
            node::ATTRIBUTE => Some(kind::IDENTIFIER),
            node::MODIFIER => Some(keyword_of(self.value)),
            _ => None,
        }
    }

    // The third one: behind a default's name.
    #[tactic(auto, unfolding(tables::specs::Tokens::third_token, tables::specs::Choice::where_is, crate::specs::Text::token_in))]
    pub fn third_token(self) -> Option<u64>
        ensures { result ≡ token_in (third_token_def self.kind) }
    {
        (self.kind == node::DEFAULT_DEF).then_some(kind::OP_ASSIGN)
    }

    // The token behind the first child of a node that is no list.
    #[tactic(auto, unfolding(tables::specs::Tokens::first_after, tables::specs::Choice::where_zero, crate::specs::Text::token_in))]
    fn first_after(self) -> Option<u64>
        ensures { result ≡ token_in (first_after_def self.kind self.value (form_of_head self)) }
    {
        match self.kind {
            node::WHILE_LOOP => Some(kind::DO),
            node::FOR_LOOP => Some(kind::IN),
            node::BINARY_OP => op_token(self.value),
            node::ASSIGNMENT => assigns(self.value, self.form),
            node::IF_EXPR => (self.form.told != 0).then_some(kind::ELSE),
            node::TABLE_ITEM => Some(kind::OP_ASSIGN),
            node::CONDITIONAL_BRANCH => Some(kind::THEN),
            node::INDEX_PATTERN => Some(kind::OPEN_SQUARE),
            _ => None,
        }
    }

    // The token behind the child number j of n.
    #[tactic(auto, unfolding(tables::specs::Tokens::after_token, tables::specs::Choice::where_is, crate::specs::Text::token_in))]
    pub fn after_token(self, n: u64, j: u64) -> Option<u64>
        ensures { result ≡ token_in (after_token_def self.kind self.value (form_of_head self) n j) }
    {
        if self.kind == node::LIST {
            return between(self.form.place, n, j);
        }
        match j {
            1 => self.first_after(),
            2 => (self.kind == node::FOR_LOOP).then_some(kind::DO),
            _ => None,
        }
    }

    // The first token behind all children.
    #[tactic(auto, unfolding(tables::specs::Tokens::behind_token, tables::specs::Choice::where_is, tables::specs::Choice::where_zero, crate::specs::Text::token_in))]
    pub fn behind_token(self) -> Option<u64>
        ensures { result ≡ token_in (behind_token_def self.kind (form_of_head self)) }
    {
        match self.kind {
            node::LOOP => Some(kind::END),
            node::WHILE_LOOP => Some(kind::END),
            node::FOR_LOOP => Some(kind::END),
            node::UNPACK => Some(kind::ELLIPSIS),
            node::TABLE => Some(kind::CLOSE_BRACE),
            node::IF_EXPR => Some(kind::END),
            node::BLOCK => Some(kind::END),
            node::FUNCTION_DEF => Some(kind::END),
            node::EXPR_BLOCK => (self.form.told != 0).then_some(kind::SEMICOLON),
            node::SIGNATURE_DEF => (self.form.told == VARIADIC).then_some(kind::ELLIPSIS),
            node::FIELD_INDEX => Some(kind::CLOSE_SQUARE),
            node::GROUP => Some(kind::CLOSE_PAREN),
            node::INDEX => Some(kind::CLOSE_SQUARE),
            node::INVOKE => Some(kind::CLOSE_PAREN),
            node::INVOKE_TABLE => Some(kind::CLOSE_BRACE),
            node::ATTRIBUTE_PATTERN => Some(kind::OP_ACCESS),
            node::INDEX_PATTERN => Some(kind::CLOSE_SQUARE),
            node::TUPLE_PATTERN => Some(kind::CLOSE_PAREN),
            node::PACK => (self.form.told == node::PACK).then_some(kind::CLOSE_PAREN),
            node::MODIFIER => Some(kind::CLOSE_PAREN),
            _ => None,
        }
    }

    // The last token behind all children.
    #[tactic(auto, unfolding(tables::specs::Tokens::last_token, crate::specs::Text::token_in))]
    pub fn last_token(self) -> Option<u64>
        ensures { result ≡ token_in (last_token_def self.kind) }
    {
        match self.kind {
            node::SIGNATURE_DEF => Some(kind::CLOSE_PAREN),
            node::ATTRIBUTE_PATTERN => Some(kind::IDENTIFIER),
            node::PACK => Some(kind::ELLIPSIS),
            _ => None,
        }
    }

    // A name in a node's value: with its access in parameters and fields.
    #[tactic(auto, unfolding(tables::specs::Tokens::name_in))]
    fn name_in(self) -> u64
        ensures { result ≡ name_in_def self.kind self.value }
    {
        match self.kind {
            node::PARAM_DEF => self.value / 2,
            node::DEFAULT_DEF => self.value / 2,
            node::FIELD_ATTRIBUTE => self.value / 2,
            _ => self.value,
        }
    }

    // The value of a token of a node, by its kind.
    #[tactic(auto, unfolding(tables::specs::Tokens::carried))]
    fn carried_by(self, token: u64) -> u64
        ensures { result ≡ carried_def self.kind self.value token }
    {
        match token {
            kind::IDENTIFIER => self.name_in(),
            kind::STRING_LITERAL | kind::INTEGER_LITERAL | kind::FLOAT_LITERAL => self.value,
            kind::LABEL => label_in(self.value),
            _ => 0,
        }
    }

    // The same of a token, if there is one; that of none is 0.
    pub fn carried(self, token: Option<u64>) -> u64
        ensures { ForToken token (λ c. result ≡ carried_def self.kind self.value c) }
    {
        match token {
            Some(token) => self.carried_by(token),
            None => 0,
        }
    }
}
