//! Parameters and declarations.

ghost use Rattle.std.specs.Prelude.{◌≡◌, length, IfOk};
ghost use Rattle.c_automaton.specs.Automaton.{declaration_begins, first_param, param, param_begins, param_ends};
ghost use Rattle.c_phrase_reader.specs.PhraseCopies.{if_taken};
ghost use Rattle.c_program_reader.specs.StateCopies.{state_of};

use crate::reader::ProgramReader;
use c_automaton::Next;
use c_tokens::Symbol;
use c_words::{CToken, Keyword, Letter};
use loop_ir::InputKind;
use strm_num::NoMemory;

/// The numbers that names have are below this one.
const NUMBERS: u64 = 1 << 32;

impl ProgramReader {
    /// Begins a parameter of this kind, behind its first keyword.
    fn param_begins(&mut self, kind: InputKind) -> Result<bool, NoMemory>
        ensures { IfOk result (λ taken. param_begins kind (state_of self.old)
            ≡ if_taken taken (state_of self.new)) }
    {
        let k = self.params.len();
        if k >= NUMBERS {
            return Ok(false);
        }
        let k = k as u32;
        self.params.push(kind)?;
        match kind {
            InputKind::Array => self.awaits(
                &[
                    CToken::Key(Keyword::Uint64),
                    CToken::Sym(Symbol::Star),
                    CToken::Name(Letter::Array, k),
                    CToken::Sym(Symbol::Comma),
                    CToken::Key(Keyword::Uint64),
                    CToken::Name(Letter::Length, k),
                ],
                Next::ParamEnd,
            ),
            InputKind::Int => self.awaits(&[CToken::Name(Letter::Int, k)], Next::ParamEnd),
        }
    }

    /// `const` begins an array, and `uint64_t` an int.
    pub fn param(&mut self, token: CToken) -> Result<bool, NoMemory>
        ensures { IfOk result (λ taken. param (state_of self.old) token
            ≡ if_taken taken (state_of self.new)) }
    {
        match token {
            CToken::Key(Keyword::Const) => self.param_begins(InputKind::Array),
            CToken::Key(Keyword::Uint64) => self.param_begins(InputKind::Int),
            _ => Ok(false),
        }
    }

    /// `void`, or the first parameter begins.
    pub fn first_param(&mut self, token: CToken) -> Result<bool, NoMemory>
        ensures { IfOk result (λ taken. first_param (state_of self.old) token
            ≡ if_taken taken (state_of self.new)) }
    {
        match token {
            CToken::Key(Keyword::Void) => self.awaits(
                &[
                    CToken::Sym(Symbol::CloseParen),
                    CToken::Sym(Symbol::OpenBrace),
                ],
                Next::Declarations,
            ),
            _ => self.param(token),
        }
    }

    /// Behind a parameter a comma and another one come, or the end of the parameters.
    pub fn param_ends(&mut self, token: CToken) -> Result<bool, NoMemory>
        ensures { IfOk result (λ taken. param_ends (state_of self.old) token
            ≡ if_taken taken (state_of self.new)) }
    {
        match token {
            CToken::Sym(Symbol::Comma) => {
                if self.params.len() >= NUMBERS {
                    return Ok(false);
                }
                self.awaits(&[], Next::FurtherParam)
            }
            CToken::Sym(Symbol::CloseParen) => {
                self.awaits(&[CToken::Sym(Symbol::OpenBrace)], Next::Declarations)
            }
            _ => Ok(false),
        }
    }

    /// Begins a declaration, behind its keyword.
    pub fn declaration_begins(&mut self) -> Result<bool, NoMemory>
        ensures { IfOk result (λ taken. declaration_begins (state_of self.old)
            ≡ if_taken taken (state_of self.new)) }
    {
        if self.vars >= NUMBERS {
            return Ok(false);
        }
        let v = self.vars as u32;
        self.vars += 1;
        self.awaits(
            &[
                CToken::Name(Letter::Variable, v),
                CToken::Sym(Symbol::Equal),
                CToken::Constant(0),
                CToken::Sym(Symbol::Semicolon),
            ],
            Next::Declarations,
        )
    }
}
