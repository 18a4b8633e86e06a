//! Statements and the blocks that they stand in.

ghost use Rattle.std.specs.Prelude.{◌≡◌, ◌∷◌, [], map, IfOk};
ghost use Rattle.c_automaton.specs.Automaton as automaton;
ghost use Rattle.c_automaton.specs.Automaton.{assigned, before_return, block_closes, declaration, finished, phrase, statement, unbegun, verdict_of, want_of};
ghost use Rattle.loop_ir.specs.StatementCopies.{statement_of};
ghost use Rattle.c_phrase_reader.specs.PhraseCopies.{if_taken, phrase_of, reading_of};
ghost use Rattle.c_program_reader.specs.StateCopies.{level_of, state_at, state_of};

use crate::blocks::{Level, Opening};
use crate::reader::{Point, ProgramReader};
use c_automaton::{Form, Next, Want};
use c_phrase_reader::Phrase;
use c_tokens::Symbol;
use c_words::{CToken, Keyword, Letter};
use loop_ir::{Stmt, Stmts, Verdict};
use std::mem;
use strm_num::NoMemory;

/// What the phrase of a statement may be.
fn want_of(form: Form) -> Want
    ensures { result ≡ want_of form }
{
    match form {
        Form::Set(_) | Form::Read(_, _) | Form::Emit => Want::Operand,
        Form::If | Form::While => Want::Test,
    }
}

/// Whether a statement is `return 0`.
fn returns_done(statement: &Stmt) -> bool
    ensures { before_return (statement_of statement.now ∷ []) ≡ if_taken result [] }
{
    matches!(statement, Stmt::Ret(Verdict::Done))
}

/// Takes the last statement off, and answers whether it was `return 0`.
fn take_return(statements: &mut Stmts) -> bool
    ensures { before_return (map statement_of statements.old)
        ≡ if_taken result (map statement_of statements.new) }
{
    match statements.pop() {
        Some(last) => {
            let done = returns_done(&last);
            drop(last);
            done
        }
        None => false,
    }
}

impl ProgramReader {
    /// The text ends behind the last `return 0` of the outermost block, which is no statement of it.
    fn text_ends(&mut self) -> Result<bool, NoMemory>
        ensures { IfOk result (λ taken. automaton.text_ends
            (before_return (map statement_of self.old.here)) (state_of self.old)
            ≡ if_taken taken (state_of self.new)) }
    {
        if !take_return(&mut self.here) {
            return Ok(false);
        }
        self.awaits(&[], Next::End)
    }

    /// The innermost block closes.
    fn block_closes(&mut self) -> Result<bool, NoMemory>
        ensures { IfOk result (λ taken. block_closes (map level_of self.old.around) (state_of self.old)
            ≡ if_taken taken (state_of self.new)) }
    {
        let Some(Level { before, opening }) = self.around.pop() else {
            return self.text_ends();
        };
        let block = mem::replace(&mut self.here, before);
        match opening {
            Opening::Then(test) => {
                let behind = [CToken::Key(Keyword::Else), CToken::Sym(Symbol::OpenBrace)];
                self.enters(Opening::Else(test, block), &behind)
            }
            Opening::Else(test, first) => {
                self.appends(Stmt::If(Box::into_inner(test), first, block), &[])
            }
            Opening::Body(test) => self.appends(Stmt::Loop(Box::into_inner(test), block), &[]),
        }
    }

    /// `return 0` or `return 1`, by the number behind `return`.
    pub fn verdict(&mut self, token: CToken) -> Result<bool, NoMemory>
        ensures { IfOk result (λ taken. verdict_of (state_of self.old) token
            ≡ if_taken taken (state_of self.new)) }
    {
        let verdict = match token {
            CToken::Bare(0) => Verdict::Done,
            CToken::Bare(1) => Verdict::Trap,
            _ => return Ok(false),
        };
        self.appends(Stmt::Ret(verdict), &[CToken::Sym(Symbol::Semicolon)])
    }

    /// The statement that begins with this keyword.
    fn keyword(&mut self, keyword: Keyword) -> Result<bool, NoMemory>
        ensures { IfOk result (λ taken. statement (state_of self.old) (CToken.Key keyword)
            ≡ if_taken taken (state_of self.new)) }
    {
        match keyword {
            Keyword::If => self.awaits(&[], Next::Phrase(Form::If)),
            Keyword::While => {
                let head = [
                    CToken::Sym(Symbol::OpenParen),
                    CToken::Bare(1),
                    CToken::Sym(Symbol::CloseParen),
                    CToken::Sym(Symbol::OpenBrace),
                    CToken::Key(Keyword::If),
                ];
                self.awaits(&head, Next::Phrase(Form::While))
            }
            Keyword::Emit => {
                self.awaits(&[CToken::Sym(Symbol::OpenParen)], Next::Phrase(Form::Emit))
            }
            Keyword::EndRow => {
                let behind = [
                    CToken::Sym(Symbol::OpenParen),
                    CToken::Sym(Symbol::CloseParen),
                    CToken::Sym(Symbol::Semicolon),
                ];
                self.appends(Stmt::EndRow, &behind)
            }
            Keyword::Return => self.awaits(&[], Next::Verdict),
            _ => Ok(false),
        }
    }

    /// A statement begins, or a block closes.
    pub fn statement(&mut self, token: CToken) -> Result<bool, NoMemory>
        ensures { IfOk result (λ taken. statement (state_of self.old) token
            ≡ if_taken taken (state_of self.new)) }
    {
        match token {
            CToken::Name(Letter::Variable, v) => {
                self.awaits(&[CToken::Sym(Symbol::Equal)], Next::Assigned(v))
            }
            CToken::Key(keyword) => self.keyword(keyword),
            CToken::Sym(Symbol::CloseBrace) => self.block_closes(),
            _ => Ok(false),
        }
    }

    /// A declaration or a statement begins, or a block closes.
    pub fn declaration(&mut self, token: CToken) -> Result<bool, NoMemory>
        ensures { IfOk result (λ taken. declaration (state_of self.old) token
            ≡ if_taken taken (state_of self.new)) }
    {
        match token {
            CToken::Key(Keyword::Uint64) => self.declaration_begins(),
            _ => self.statement(token),
        }
    }

    /// The phrase of a statement of this form has been read.
    fn finished(&mut self, form: Form, phrase: Phrase) -> Result<bool, NoMemory>
        ensures { (at : automaton.Point) → IfOk result (λ taken.
            finished form (phrase_of phrase) (state_at at self.old) ≡ if_taken taken (state_of self.new)) }
    {
        match (form, phrase) {
            (Form::Set(v), Phrase::Operand(w)) => {
                self.appends(
                    Stmt::Set(v, Box::into_inner(w)),
                    &[CToken::Sym(Symbol::Semicolon)],
                )
            }
            (Form::Read(v, a), Phrase::Operand(w)) => {
                let behind = [
                    CToken::Sym(Symbol::CloseBracket),
                    CToken::Sym(Symbol::Semicolon),
                ];
                self.appends(Stmt::Read(v, a, Box::into_inner(w)), &behind)
            }
            (Form::Emit, Phrase::Operand(w)) => {
                let behind = [
                    CToken::Sym(Symbol::CloseParen),
                    CToken::Sym(Symbol::Semicolon),
                ];
                self.appends(Stmt::Emit(Box::into_inner(w)), &behind)
            }
            (Form::If, Phrase::Test(t)) => {
                self.enters(Opening::Then(t), &[CToken::Sym(Symbol::OpenBrace)])
            }
            (Form::While, Phrase::Test(t)) => {
                let behind = [
                    CToken::Sym(Symbol::OpenBrace),
                    CToken::Sym(Symbol::CloseBrace),
                    CToken::Key(Keyword::Else),
                    CToken::Sym(Symbol::OpenBrace),
                    CToken::Key(Keyword::Break),
                    CToken::Sym(Symbol::Semicolon),
                    CToken::Sym(Symbol::CloseBrace),
                ];
                self.enters(Opening::Body(t), &behind)
            }
            _ => Ok(false),
        }
    }

    /// The phrase of a statement of this form begins or goes on.
    pub fn phrase(&mut self, form: Form, token: CToken) -> Result<bool, NoMemory>
        ensures { (at : automaton.Point) → IfOk result (λ taken.
            phrase form (reading_of self.old.reading) (state_at at self.old) token
            ≡ if_taken taken (state_of self.new)) }
    {
        if !self.reading.reads_on(self.alloc, want_of(form), token)? {
            return Ok(false);
        }
        match self.reading.whole() {
            Some(phrase) => self.finished(form, phrase),
            None => {
                self.point = Point::Within(form);
                Ok(true)
            }
        }
    }

    /// The phrase of a statement of this form begins.
    pub fn phrase_begins(&mut self, form: Form, token: CToken) -> Result<bool, NoMemory>
        ensures { IfOk result (λ taken. phrase form unbegun (state_of self.old) token
            ≡ if_taken taken (state_of self.new)) }
    {
        self.reading.clear();
        self.phrase(form, token)
    }

    /// Behind `v =` an item of an array comes, or an operand.
    pub fn assigned(&mut self, v: u32, token: CToken) -> Result<bool, NoMemory>
        ensures { IfOk result (λ taken. assigned v (state_of self.old) token
            ≡ if_taken taken (state_of self.new)) }
    {
        match token {
            CToken::Name(Letter::Array, a) => self.awaits(
                &[CToken::Sym(Symbol::OpenBracket)],
                Next::Phrase(Form::Read(v, a)),
            ),
            _ => self.phrase_begins(Form::Set(v), token),
        }
    }
}
