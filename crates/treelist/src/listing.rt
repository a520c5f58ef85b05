// The lines of the listing, as text.
ghost use Rattle.std.specs.Prelude.{◌≡◌, Some};
ghost use Rattle.treelist.specs.Listing.{name_at as name_at_def, node_line, answer_text};

use grammar::Answer;
use std::fmt;
use tree::word::CHILD;

// The names of the node kinds in their order.
const NAMES: [&str; 47] = [
    "Absent",
    "List",
    "Expression",
    "Loop",
    "WhileLoop",
    "ForLoop",
    "Assert",
    "StmtList",
    "Continue",
    "Break",
    "Return",
    "Primary",
    "UnaryOp",
    "BinaryOp",
    "Assignment",
    "Unpack",
    "Tuple",
    "Table",
    "IfExpr",
    "Block",
    "FunctionDef",
    "TableItem",
    "ExprBlock",
    "ConditionalBranch",
    "SignatureDef",
    "ParamDef",
    "DefaultDef",
    "FieldAttribute",
    "FieldIndex",
    "Nil",
    "EmptyTuple",
    "Identifier",
    "BooleanLiteral",
    "IntegerLiteral",
    "FloatLiteral",
    "StringLiteral",
    "Group",
    "Attribute",
    "Index",
    "Invoke",
    "InvokeTable",
    "IdentifierPattern",
    "AttributePattern",
    "IndexPattern",
    "TuplePattern",
    "Pack",
    "Modifier",
];

// The name at a place; none past them.
#[tactic(auto, unfolding(crate::specs::Listing::name_at))]
fn name_at(names: &[&'static str], place: u64) -> &'static str
    ensures { result.now ≡ name_at_def names.now place }
{
    names.get(place as usize).copied().unwrap_or("")
}

// A node's line, of the two words of its record.
#[derive(Clone, Copy)]
pub struct NodeLine {
    pub first: u64,
    pub value: u64,
}

impl fmt::Display for NodeLine {
    ghost output = { λ n. Some (node_line n.first n.value) };

    fn fmt<W: fmt::Write>(&self, f: &mut fmt::Formatter<W>) -> fmt::Result {
        let NodeLine { first, value } = *self;
        let name = name_at(&NAMES, first % CHILD);
        let kids = first / CHILD;
        writeln!(f, "kind={name} kids={kids} value={value}")
    }
}

// An answer's line.
#[derive(Clone, Copy)]
pub struct AnswerLine(pub Answer);

impl fmt::Display for AnswerLine {
    ghost output = { λ a. Some (answer_text a.0) };

    fn fmt<W: fmt::Write>(&self, f: &mut fmt::Formatter<W>) -> fmt::Result {
        match self.0 {
            Answer::Tree(nodes) => writeln!(f, "answer=tree nodes={nodes}"),
            Answer::Error(kind) => writeln!(f, "answer=error number={}", u64::from(kind)),
            Answer::End => writeln!(f, "answer=end"),
            Answer::Stopped(number) => writeln!(f, "answer=stopped number={number}"),
            Answer::Refused(number) => writeln!(f, "answer=refused number={number}"),
        }
    }
}
