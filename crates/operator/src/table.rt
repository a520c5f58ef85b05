// The operators in one table: a line for each token kind, from 0 to 76. Its four numbers are the unary operator that the kind is, the binary one, the level of the
// binary one, and the assignment operator. 0 is none. An operator is 1 + its number in a tree's record; an assignment operator is 1 for the plain `=`, and 2 + the
// number of its binary operator for the others. A level is from 1, which binds the tightest, to PRECEDENCE_START. docs/OPERATORS.md has the table for people.
// Stays rows of four numbers: document 02, P9, has the table so.

// The numbers of a line.
pub const UNARY: usize = 0;

pub const BINARY: usize = 1;

pub const LEVEL: usize = 2;

pub const ASSIGNMENT: usize = 3;

pub type Table = [[u8; 4]; 77];

pub const TABLE: Table = [
    [0, 0, 0, 0], // 0 OpenParen
    [0, 0, 0, 0], // 1 CloseParen
    [0, 0, 0, 0], // 2 OpenBrace
    [0, 0, 0, 0], // 3 CloseBrace
    [0, 0, 0, 0], // 4 OpenSquare
    [0, 0, 0, 0], // 5 CloseSquare
    [0, 0, 0, 0], // 6 Comma
    [0, 0, 0, 0], // 7 Colon
    [0, 0, 0, 0], // 8 Semicolon
    [0, 0, 0, 0], // 9 Ellipsis
    [0, 0, 0, 0], // 10 Decorator
    [2, 4, 2, 0], // 11 OpAdd
    [1, 5, 2, 0], // 12 OpSub
    [0, 1, 1, 0], // 13 OpMul
    [0, 2, 1, 0], // 14 OpDiv
    [0, 3, 1, 0], // 15 OpMod
    [0, 0, 0, 0], // 16 OpExp
    [3, 0, 0, 0], // 17 OpInv
    [0, 8, 4, 0], // 18 OpAnd
    [0, 10, 6, 0], // 19 OpOr
    [0, 9, 5, 0], // 20 OpXor
    [0, 6, 3, 0], // 21 OpLShift
    [0, 7, 3, 0], // 22 OpRShift
    [0, 0, 0, 5], // 23 OpAddAssign
    [0, 0, 0, 6], // 24 OpSubAssign
    [0, 0, 0, 2], // 25 OpMulAssign
    [0, 0, 0, 3], // 26 OpDivAssign
    [0, 0, 0, 4], // 27 OpModAssign
    [0, 0, 0, 9], // 28 OpAndAssign
    [0, 0, 0, 11], // 29 OpOrAssign
    [0, 0, 0, 10], // 30 OpXorAssign
    [0, 0, 0, 7], // 31 OpLShiftAssign
    [0, 0, 0, 8], // 32 OpRShiftAssign
    [0, 11, 7, 0], // 33 OpLT
    [0, 13, 7, 0], // 34 OpLE
    [0, 12, 7, 0], // 35 OpGT
    [0, 14, 7, 0], // 36 OpGE
    [0, 15, 8, 0], // 37 OpEQ
    [0, 16, 8, 0], // 38 OpNE
    [0, 0, 0, 1], // 39 OpAssign
    [0, 0, 0, 0], // 40 OpAccess
    [0, 17, 9, 0], // 41 And
    [0, 18, 10, 0], // 42 Or
    [4, 0, 0, 0], // 43 Not
    [0, 0, 0, 0], // 44 True
    [0, 0, 0, 0], // 45 False
    [0, 0, 0, 0], // 46 Nil
    [0, 0, 0, 0], // 47 Let
    [0, 0, 0, 0], // 48 Var
    [0, 0, 0, 0], // 49 Local
    [0, 0, 0, 0], // 50 NonLocal
    [0, 0, 0, 0], // 51 Del
    [0, 0, 0, 0], // 52 If
    [0, 0, 0, 0], // 53 Then
    [0, 0, 0, 0], // 54 Elif
    [0, 0, 0, 0], // 55 Else
    [0, 0, 0, 0], // 56 Begin
    [0, 0, 0, 0], // 57 Loop
    [0, 0, 0, 0], // 58 While
    [0, 0, 0, 0], // 59 For
    [0, 0, 0, 0], // 60 In
    [0, 0, 0, 0], // 61 Do
    [0, 0, 0, 0], // 62 Continue
    [0, 0, 0, 0], // 63 Break
    [0, 0, 0, 0], // 64 Return
    [0, 0, 0, 0], // 65 Fun
    [0, 0, 0, 0], // 66 Class
    [0, 0, 0, 0], // 67 Assert
    [0, 0, 0, 0], // 68 End
    [0, 0, 0, 0], // 69 Identifier
    [0, 0, 0, 0], // 70 StringLiteral
    [0, 0, 0, 0], // 71 IntegerLiteral
    [0, 0, 0, 0], // 72 FloatLiteral
    [0, 0, 0, 0], // 73 Label
    [0, 0, 0, 0], // 74 Comment
    [0, 0, 0, 0], // 75 EOF
    [0, 0, 0, 0], // 76 LexerError
];
