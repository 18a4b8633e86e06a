//! What has been read of a program, and the steps over its tokens.

ghost use Rattle.std.specs.Prelude.{◌≡◌, ◌<◌, ◌^◌, cond, IfOk, Some, None, option_map};
ghost use Rattle.std.specs.Option.{ForSome};
ghost use Rattle.c_automaton.specs.Automaton.{at_next, awaits, finish, start, step};
ghost use Rattle.loop_ir.specs.StatementCopies.{routine_from};
ghost use Rattle.c_phrase_reader.specs.PhraseCopies.{if_taken};
ghost use Rattle.c_program_reader.specs.StateCopies.{routine_of, state_of};

use crate::awaited::await_all;
use crate::blocks::Level;
use c_automaton::{Form, Next};
use c_phrase_reader::Reading;
use c_tokens::Symbol;
use c_words::{CToken, Keyword, is_same};
use exact_reader::Stack;
use loop_ir::{InputKinds, Stmts};
use std::alloc::Global;
use strm_num::NoMemory;

/// The parts of a program.
#[derive(Drop)]
pub struct Parsed {
    /// The kinds of its parameters, in order.
    pub params: InputKinds,
    /// How many variables it declares.
    pub vars: u32,
    /// Its statements, without the `return 0` at the end.
    pub body: Stmts,
}

/// Tokens are awaited, and then this; or the phrase of a statement is being read.
#[derive(Clone, Copy)]
pub enum Point {
    Awaits(Next),
    Within(Form),
}

/// What has been read of a program, and what comes next.
#[derive(Drop)]
pub struct ProgramReader {
    pub alloc: Global,
    pub params: InputKinds,
    pub vars: u64,
    pub around: Stack<Level>,
    pub here: Stmts,
    pub awaited: Stack<CToken>,
    pub point: Point,
    pub reading: Reading,
}

/// The program of these parts.
fn program_from(params: InputKinds, vars: u64, body: Stmts) -> Parsed
    requires { vars < 2 ^ 32 }
    ensures { routine_of result ≡ routine_from params vars body }
{
    let vars = vars as u32;
    Parsed { params, vars, body }
}

impl ProgramReader {
    /// The reader before the first token.
    pub fn new(alloc: Global) -> Result<Self, NoMemory>
        ensures { IfOk result (λ reader. state_of reader ≡ start) }
    {
        let mut awaited = Stack::new(alloc);
        let head = [
            CToken::Key(Keyword::Int),
            CToken::Key(Keyword::Pipeline),
            CToken::Sym(Symbol::OpenParen),
        ];
        await_all(&mut awaited, &head)?;
        Ok(ProgramReader {
            alloc,
            params: InputKinds::new(alloc),
            vars: 0,
            around: Stack::new(alloc),
            here: Stmts::new(alloc),
            awaited,
            point: Point::Awaits(Next::FirstParam),
            reading: Reading::new(alloc),
        })
    }

    /// Awaits these tokens, and then this.
    pub fn awaits(&mut self, tokens: &[CToken], next: Next) -> Result<bool, NoMemory>
        ensures { IfOk result (λ taken. awaits tokens.now next (state_of self.old)
            ≡ if_taken taken (state_of self.new)) }
    {
        await_all(&mut self.awaited, tokens)?;
        self.point = Point::Awaits(next);
        Ok(true)
    }

    /// Takes the token that comes behind the awaited ones.
    fn take_next(&mut self, next: Next, token: CToken) -> Result<bool, NoMemory>
        ensures { IfOk result (λ taken. at_next next (state_of self.old) token
            ≡ if_taken taken (state_of self.new)) }
    {
        match next {
            Next::FirstParam => self.first_param(token),
            Next::ParamEnd => self.param_ends(token),
            Next::FurtherParam => self.param(token),
            Next::Declarations => self.declaration(token),
            Next::Statements => self.statement(token),
            Next::Assigned(v) => self.assigned(v, token),
            Next::Verdict => self.verdict(token),
            Next::Phrase(form) => self.phrase_begins(form, token),
            Next::End => Ok(false),
        }
    }

    /// Takes one token more, and answers whether a program may go on so. Where none does, the reader is of
    /// no more use, and neither is it after `NoMemory`, the one error.
    pub fn take(&mut self, token: CToken) -> Result<bool, NoMemory>
        ensures { IfOk result (λ taken. step (state_of self.old) token
            ≡ if_taken taken (state_of self.new)) }
    {
        match self.point {
            Point::Within(form) => self.phrase(form, token),
            Point::Awaits(next) => match self.awaited.pop() {
                Some(awaited) => Ok(is_same(awaited, token)),
                None => self.take_next(next, token),
            },
        }
    }

    /// Whether the tokens are a program's.
    fn is_at_end(&self) -> bool
        ensures { finish (state_of self.now)
            ≡ cond result (Some (routine_from self.now.params self.now.vars self.now.here)) None }
    {
        match self.point {
            Point::Awaits(Next::End) => self.awaited.len() == 0,
            Point::Awaits(_) | Point::Within(_) => false,
        }
    }

    /// The program, where the tokens end; none if they only begin one. It has fewer than 2^32 variables, as
    /// has each program of a text with fewer bytes.
    pub fn finish(self) -> Option<Parsed>
        requires { ForSome (finish (state_of self)) (λ q. q.vars < 2 ^ 32) }
        ensures { finish (state_of self) ≡ option_map routine_of result }
    {
        let is_at_end = self.is_at_end();
        let ProgramReader {
            params,
            vars,
            here,
            ..
        } = self;
        if is_at_end {
            Some(program_from(params, vars, here))
        } else {
            None
        }
    }
}
