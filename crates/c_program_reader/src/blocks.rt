//! The blocks that are open, and what is added to them.

ghost use Rattle.std.specs.Prelude.{◌≡◌, IfOk};
ghost use Rattle.c_automaton.specs.Automaton.{awaits, entered, with_statement};
ghost use Rattle.c_automaton.specs.declared.forms.Next.TheVariants as next;
ghost use Rattle.loop_ir.specs.StatementCopies.{statement_of};
ghost use Rattle.c_phrase_reader.specs.PhraseCopies.{if_taken};
ghost use Rattle.c_program_reader.specs.StateCopies.{opening_of, state_of};

use crate::reader::ProgramReader;
use c_automaton::Next;
use c_words::CToken;
use loop_ir::{Stmt, Stmts, T};
use std::mem;
use strm_num::NoMemory;

/// What a block inside another belongs to: the first block of a choice; the second one, with the first;
/// the body of a loop.
#[derive(Drop)]
pub enum Opening {
    Then(Box<T>),
    Else(Box<T>, Stmts),
    Body(Box<T>),
}

/// A block that is open around another, with its statements so far.
#[derive(Drop)]
pub struct Level {
    pub before: Stmts,
    pub opening: Opening,
}

impl ProgramReader {
    /// Adds a statement to the innermost block, and awaits these tokens before the next one.
    pub fn appends(&mut self, statement: Stmt, tokens: &[CToken]) -> Result<bool, NoMemory>
        ensures { IfOk result (λ taken. awaits tokens.now next.Statements
            (with_statement (statement_of statement) (state_of self.old))
            ≡ if_taken taken (state_of self.new)) }
    {
        self.here.push(statement)?;
        self.awaits(tokens, Next::Statements)
    }

    /// Opens a block inside the innermost one, and awaits these tokens before its first statement.
    pub fn enters(&mut self, opening: Opening, tokens: &[CToken]) -> Result<bool, NoMemory>
        ensures { IfOk result (λ taken. awaits tokens.now next.Statements
            (entered (opening_of opening) (state_of self.old))
            ≡ if_taken taken (state_of self.new)) }
    {
        let before = mem::replace(&mut self.here, Stmts::new(self.alloc));
        self.around.push(Level { before, opening })?;
        self.awaits(tokens, Next::Statements)
    }
}
