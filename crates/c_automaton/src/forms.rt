use loop_ir::WOp;

/// What a phrase in parentheses may be: an operand, a test, or either until an operator decides.
#[derive(Clone, Copy)]
pub enum Want {
    Operand,
    Test,
    Either,
}

/// An operator between two phrases: one of words, `<`, `==`, `&&` or `||`.
#[derive(Clone, Copy)]
pub enum Operator {
    Arithmetic(WOp),
    Less,
    Same,
    Both,
    Either,
}

/// A statement that an operand or a test belongs to: the one that sets a variable, with its number; that
/// reads into a variable from an array, with both numbers; that writes a word; the choice; the loop.
#[derive(Clone, Copy)]
pub enum Form {
    Set(u32),
    Read(u32, u32),
    Emit,
    If,
    While,
}

/// What comes behind the tokens that are awaited: the first parameter or `void`; what follows a
/// parameter; a further parameter; declarations and then statements; statements; what the variable of
/// this number is set to; the number that is returned; the phrase of a statement; nothing.
#[derive(Clone, Copy)]
pub enum Next {
    FirstParam,
    ParamEnd,
    FurtherParam,
    Declarations,
    Statements,
    Assigned(u32),
    Verdict,
    Phrase(Form),
    End,
}
