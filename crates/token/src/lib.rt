// A token as two words of a lent run, and the one function that looks at it.
#![tactic(auto)]

ghost use Rattle.std.specs.Prelude.{◌≡◌, drop};
ghost use Rattle.token.specs.Look.{value_fits as value_fits_def, seen};

pub mod kind;

// A token: its kind, 1 if it is the first of its line and else 0, and the name number or bits that it carries.
// Stays a number for the line's first: the word has it so and the definition tests it so; a bool would be made of it here and a number again in each law.
#[derive(Clone, Copy)]
pub struct Token {
    pub kind: u64,
    pub newline: u64,
    pub value: u64,
}

// Why no token stands at a place: the lexer met an error there; no two words are left; the words are no token's.
#[derive(Clone, Copy)]
pub enum Unread {
    LexerError,
    Nothing,
    Bad,
}

// Names are numbered below this.
const NAMES: u64 = 4294967296;

// Whether a token of this kind can carry this value: a name's number, any bits of a literal, and 0 for all others.
fn value_fits(kind: u64, value: u64) -> bool
    ensures { result ≡ value_fits_def kind value }
{
    match kind {
        kind::IDENTIFIER | kind::STRING_LITERAL | kind::LABEL => value < NAMES,
        kind::INTEGER_LITERAL | kind::FLOAT_LITERAL => true,
        _ => value == 0,
    }
}

// The token of the word at this place and the one behind it. The place may lie past the end.
pub fn look(tokens: &[u64], at: usize) -> Result<Token, Unread>
    ensures { result ≡ seen (drop at tokens.now) }
{
    if tokens.len() < 2 {
        return Err(Unread::Nothing);
    }
    if tokens.len() - 2 < at {
        return Err(Unread::Nothing);
    }
    let word = tokens[at];
    let value = tokens[at + 1];
    let kind = word % 256;
    let newline = word / 256;
    if kind::LEXER_ERROR < kind {
        return Err(Unread::Bad);
    }
    if 1 < newline {
        return Err(Unread::Bad);
    }
    if !value_fits(kind, value) {
        return Err(Unread::Bad);
    }
    if kind == kind::LEXER_ERROR {
        return Err(Unread::LexerError);
    }
    Ok(Token {
        kind,
        newline,
        value,
    })
}
