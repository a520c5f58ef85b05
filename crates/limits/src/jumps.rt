// The records of loops one in the other, and of a break or continue, a jump, in or beside them. Each contract holds where there was room; where
// there isn't, some of the records may be missing. That there is shows in the program's own run.
ghost use Rattle.std.specs.Prelude.{◌≡◌, ◌+◌, ◌*◌, ◌-◌, ◌≤◌, [], ◌∷◌, ◌++◌, OnOk};
ghost use Rattle.tree.specs.Tree.{records};
ghost use Rattle.tree.specs.Node.{expression};
ghost use Rattle.limits.specs.declared.jumps.Form.TheVariants.{Among, Condition};
ghost use Rattle.limits.specs.Nests.{record_number, parts, if_continue, jump_in, innermost, loop_ends, nest, function, before, behind};

use crate::words::Words;
use std::io;
use std::marker::Model;
use tree::word;

// The label of the outermost loop, and one that no loop round a jump has. The loops inside have the labels from 1 on, the innermost the first.
pub const OUTERMOST: u64 = 4294967296;

pub const OTHER: u64 = 4294967295;

// A signature without name and parameters: two lists, nothing variadic, the signature.
const SIGNATURE: [u64; 8] = [1, 0, 1, 0, 0, 0, 792, 0];

// What comes behind the list and control of a function's body: their statement list, no result, the body, the function, its statement, the list of that, no control.
const FUNCTION_END: [u64; 14] = [519, 0, 0, 0, 534, 0, 532, 0, 258, 0, 257, 0, 0, 0];

// And of an if's one branch: their statement list, no result, the block, the branch, the list of that, no else, the if.
const IF_END: [u64; 14] = [519, 0, 0, 0, 534, 0, 535, 0, 257, 0, 0, 0, 530, 0];

// How a jump stands in the innermost loop: a break or a continue of that, a continue in an if among statements or in a while's condition.
#[derive(Clone, Copy)]
pub enum Form {
    Break,
    Continue,
    Among,
    Condition,
}

impl Form {
    // The number of the jump's record.
    pub(crate) fn record(self) -> u64
        ensures { result ≡ record_number self }
    {
        match self {
            Form::Break | Form::Condition => 2,
            Form::Continue => 1,
            Form::Among => 4,
        }
    }

    // The same in a function, behind the four records of its signature.
    pub(crate) fn record_in_function(self) -> u64
        ensures { result ≡ record_number self + 4 }
    {
        self.record() + 4
    }
}

// A jump to a label, or without one where that is 0.
#[derive(Clone, Copy)]
pub struct Jump {
    pub form: Form,
    pub label: u64,
}

// Records, laid down one behind the other in memory that is lent.
#[derive(Drop)]
pub struct Records<'a> {
    words: Words<'a>,
}

impl<'a> Model for Records<'a> {
    ghost use Rattle.std.specs.Prelude.{List, ℕ};

    ghost Value = { List ℕ };

    ghost view = { λ r. r.words };
}

impl<'a> Records<'a> {
    pub(crate) fn new(memory: &'a mut [u64]) -> Records<'a>
        ensures { result ≡ [] }
    {
        Records {
            words: Words::new(memory),
        }
    }

    pub(crate) fn words(&self) -> &[u64]
        ensures { result.now ≡ self.now }
    {
        self.words.all()
    }

    fn put(&mut self, words: &[u64]) -> io::Result<()>
        ensures { OnOk result (self.new ≡ self.old ++ words.now) }
    {
        self.words.put(words)
    }

    // A list of so many statements, and no control.
    fn put_list(&mut self, statements: u64) -> io::Result<()>
        requires { statements ≤ 3 }
        ensures { OnOk result (self.new ≡ self.old ++ (1 + 256 * statements) ∷ 0 ∷ 0 ∷ 0 ∷ []) }
    {
        self.put(&[word::LIST + statements * word::CHILD, 0, word::ABSENT, 0])
    }

    // The expression `if a then continue LABEL end`.
    fn put_if(&mut self, label: u64) -> io::Result<()>
        ensures { OnOk result (self.new ≡ self.old ++ records (if_continue label)) }
    {
        self.put(&[word::IDENTIFIER, 7, word::LIST, 0, word::CONTINUE, label])?;
        self.put(&IF_END)
    }

    // The same as a statement.
    fn put_statement(&mut self, label: u64) -> io::Result<()>
        ensures { OnOk result (self.new ≡ self.old ++ records (expression (if_continue label))) }
    {
        self.put_if(label)?;
        self.put(&[word::EXPRESSION, 0])
    }

    // A list of `a`, such a statement and `a`, and no control.
    fn put_among(&mut self, label: u64) -> io::Result<()>
        ensures { OnOk result (self.new ≡ self.old ++ parts (jump_in Among label)) }
    {
        let name = [word::IDENTIFIER, 7, word::EXPRESSION, 0];
        self.put(&name)?;
        self.put_statement(label)?;
        self.put(&name)?;
        self.put_list(3)
    }

    // A list of a while with the other label and such an if as its condition, and no control.
    fn put_condition(&mut self, label: u64) -> io::Result<()>
        ensures { OnOk result (self.new ≡ self.old ++ parts (jump_in Condition label)) }
    {
        self.put_if(label)?;
        self.put_list(0)?;
        self.put(&[word::STMT_LIST, 0, word::WHILE_LOOP, OTHER])?;
        self.put_list(1)
    }

    // A list of statements and its control, with this jump.
    fn put_jump(&mut self, jump: Jump) -> io::Result<()>
        ensures { OnOk result (self.new ≡ self.old ++ parts (jump_in jump.form jump.label)) }
    {
        let label = jump.label;
        match jump.form {
            Form::Break => self.put(&[word::LIST, 0, word::ABSENT, 0, word::BREAK, label]),
            Form::Continue => self.put(&[word::LIST, 0, word::CONTINUE, label]),
            Form::Among => self.put_among(label),
            Form::Condition => self.put_condition(label),
        }
    }

    // The end of a loop behind its list and control.
    pub(crate) fn put_loop(&mut self, label: u64) -> io::Result<()>
        ensures { OnOk result (self.new ≡ self.old ++ 519 ∷ 0 ∷ 259 ∷ label ∷ []) }
    {
        self.put(&[word::STMT_LIST, 0, word::LOOP, label])
    }

    // The ends of so many loops but the outermost, and behind each the list and control that it stands in.
    pub(crate) fn put_loops(&mut self, times: u64) -> io::Result<()>
        ensures { OnOk result (self.new ≡ self.old ++ loop_ends (times - 1)) }
    {
        for label in 1..times {
            self.put_loop(label)?;
            self.put_list(1)?;
        }
        Ok(())
    }

    // The list and control in the innermost loop, with a jump or none.
    fn put_innermost(&mut self, jump: Option<Jump>) -> io::Result<()>
        ensures { OnOk result (self.new ≡ self.old ++ parts (innermost jump)) }
    {
        match jump {
            Some(jump) => self.put_jump(jump),
            None => self.put_list(0),
        }
    }

    // So many loops, with a jump in them or none.
    pub(crate) fn put_nest(&mut self, jump: Option<Jump>, times: u64) -> io::Result<()>
        ensures { OnOk result (self.new ≡ self.old ++ records (nest times (innermost jump))) }
    {
        self.put_innermost(jump)?;
        self.put_loops(times)?;
        self.put_loop(OUTERMOST)
    }

    // A jump in a function, with so many loops but the outermost between them, and the list and control that the function stands in.
    pub(crate) fn put_function(&mut self, jump: Jump, inside: u64) -> io::Result<()>
        ensures { OnOk result (self.new ≡ self.old ++ parts (function jump.form jump.label inside)) }
    {
        self.put(&SIGNATURE)?;
        self.put_jump(jump)?;
        self.put_loops(inside)?;
        self.put(&FUNCTION_END)
    }

    // A loop without a label, in which an if with a continue stands before so many loops.
    pub(crate) fn put_before(&mut self, label: u64, times: u64) -> io::Result<()>
        ensures { OnOk result (self.new ≡ self.old ++ records (before label times)) }
    {
        self.put_statement(label)?;
        self.put_nest(None, times)?;
        self.put_list(2)?;
        self.put_loop(0)
    }

    // A loop without a label, in which a continue stands in so many loops, and one to the same label behind them.
    pub(crate) fn put_behind(&mut self, label: u64, times: u64) -> io::Result<()>
        ensures { OnOk result (self.new ≡ self.old ++ records (behind label times)) }
    {
        let jump = Jump {
            form: Form::Continue,
            label,
        };
        self.put_nest(Some(jump), times)?;
        self.put(&[word::LIST + word::CHILD, 0, word::CONTINUE, label])?;
        self.put_loop(0)
    }
}
