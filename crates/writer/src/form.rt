// How a node is written, and the depth that it takes.
ghost use Rattle.std.specs.Prelude.{◌≡◌};
ghost use Rattle.tables.specs.Form.{fun_gives as fun_gives_def, first_place as first_place_def, second_place as second_place_def, place_of as place_of_def, base as base_def, first_deeper as first_deeper_def, second_deeper as second_deeper_def, deeper as deeper_def};
ghost use Rattle.writer.specs.Form.{place_number, form_of_head};

use tree::node;

// What a node's parent says of how it is written (Place in crates/grammar/specs/Canonical/Write.antt).
#[derive(Clone, Copy, Debug, PartialEq, Eq)]
pub enum Place {
    // By itself.
    Own,
    // Under a group's modifier.
    Modified,
    // A function behind its target.
    Targeted,
    // A list with commas between.
    Commas,
    // The same, and one behind a single member.
    Members,
    // A semicolon behind each.
    Suite,
    // `if`, and `elif` between.
    Branches,
    // Nothing between.
    Row,
    // A comma behind each: required parameters with others behind them.
    Leading,
}

// How a node is written: its place, and what its children say. An assignment: 1 where `fun` with the target gives it, else 0. IfExpr, ExprBlock and Pack: the
// kind of the last child. A signature: its mode. All others: 0.
#[derive(Clone, Copy, Debug, PartialEq, Eq)]
pub struct Form {
    pub place: Place,
    // Stays a number: for most kinds it is a kind of the records, which may be any.
    pub told: u64,
}

// A node as it is written: its kind and value, and its form.
#[derive(Clone, Copy, Debug, PartialEq, Eq)]
pub struct Head {
    pub kind: u64,
    pub value: u64,
    pub form: Form,
}

// Whether `fun` gives an assignment's action at its place: `let`, or that of the group around it.
#[tactic(auto, unfolding(tables::specs::Form::fun_gives))]
pub fn fun_gives(place: Place, value: u64) -> bool
    ensures { result ≡ fun_gives_def (place_number place) value }
{
    match place {
        Place::Own => value == 2,
        Place::Modified => value < 4,
        _ => false,
    }
}

// The depth that a node takes at least.
#[tactic(auto, unfolding(tables::specs::Form::base))]
pub fn base(kind: u64) -> u64
    ensures { result ≡ base_def kind }
{
    match kind {
        node::ABSENT => 0,
        node::LIST => 0,
        node::EXPRESSION => 0,
        node::LOOP => 0,
        node::WHILE_LOOP => 0,
        node::FOR_LOOP => 0,
        node::ASSERT => 0,
        node::CONTINUE => 0,
        node::BREAK => 0,
        node::RETURN => 0,
        node::PRIMARY => 0,
        node::BINARY_OP => 0,
        node::TUPLE => 0,
        node::TABLE_ITEM => 0,
        node::CONDITIONAL_BRANCH => 0,
        node::SIGNATURE_DEF => 0,
        node::PARAM_DEF => 0,
        node::DEFAULT_DEF => 0,
        node::FIELD_ATTRIBUTE => 0,
        node::FIELD_INDEX => 0,
        node::ATTRIBUTE => 0,
        node::ATTRIBUTE_PATTERN => 0,
        _ => 1,
    }
}

impl Head {
    #[tactic(auto, unfolding(tables::specs::Form::first_place, tables::specs::Choice::where_zero))]
    fn first_place(self) -> Place
        ensures { place_number result ≡ first_place_def self.kind self.value (form_of_head self) }
    {
        match self.kind {
            node::STMT_LIST => Place::Suite,
            node::TUPLE => Place::Members,
            node::TABLE => Place::Commas,
            node::IF_EXPR => Place::Branches,
            node::SIGNATURE_DEF => if self.form.told == 0 {
                Place::Commas
            } else {
                Place::Leading
            },
            node::GROUP => if self.value == 0 {
                Place::Own
            } else {
                Place::Modified
            },
            node::INVOKE => Place::Commas,
            node::INVOKE_TABLE => Place::Commas,
            node::TUPLE_PATTERN => Place::Members,
            _ => Place::Own,
        }
    }

    #[tactic(auto, unfolding(tables::specs::Form::second_place, tables::specs::Choice::where_is))]
    fn second_place(self) -> Place
        ensures { place_number result ≡ second_place_def self.kind (form_of_head self) }
    {
        match self.kind {
            node::PRIMARY => Place::Row,
            node::ASSIGNMENT => if self.form.told == 0 {
                Place::Own
            } else {
                Place::Targeted
            },
            node::SIGNATURE_DEF => Place::Commas,
            _ => Place::Own,
        }
    }

    // The place of the child number j, from 1.
    #[tactic(auto, unfolding(tables::specs::Form::place_of))]
    pub fn place_of(self, j: u64) -> Place
        ensures { place_number result ≡ place_of_def self.kind self.value (form_of_head self) j }
    {
        match j {
            1 => self.first_place(),
            2 => self.second_place(),
            _ => Place::Own,
        }
    }

    #[tactic(auto, unfolding(tables::specs::Form::first_deeper, tables::specs::Choice::where_is))]
    fn first_deeper(self) -> u64
        ensures { result ≡ first_deeper_def self.kind (form_of_head self) }
    {
        match self.kind {
            node::STMT_LIST => 1,
            node::UNARY_OP => 1,
            node::TABLE => 1,
            node::IF_EXPR => 1,
            node::BLOCK => 1,
            node::FUNCTION_DEF => 1,
            node::GROUP => 1,
            node::INDEX => 1,
            node::INVOKE => 1,
            node::INVOKE_TABLE => 1,
            node::TUPLE_PATTERN => 1,
            node::PACK => if self.form.told == node::PACK { 1 } else { 0 },
            node::MODIFIER => 1,
            _ => 0,
        }
    }

    #[tactic(auto, unfolding(tables::specs::Form::second_deeper, tables::specs::Choice::where_is))]
    fn second_deeper(self) -> u64
        ensures { result ≡ second_deeper_def self.kind (form_of_head self) }
    {
        match self.kind {
            node::STMT_LIST => 1,
            node::ASSIGNMENT => if self.form.told == 0 { 1 } else { 0 },
            node::IF_EXPR => 1,
            node::FUNCTION_DEF => 1,
            node::EXPR_BLOCK => 1,
            node::INDEX_PATTERN => 1,
            _ => 0,
        }
    }

    // How much deeper the child number j is: never more than the node's base.
    #[tactic(auto, unfolding(tables::specs::Form::deeper))]
    pub fn deeper(self, j: u64) -> u64
        ensures { result ≡ deeper_def self.kind (form_of_head self) j }
    {
        match j {
            1 => self.first_deeper(),
            2 => self.second_deeper(),
            _ => 0,
        }
    }
}
