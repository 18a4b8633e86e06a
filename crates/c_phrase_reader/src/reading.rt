//! The forms that are open, and the steps over a token.

ghost use Rattle.std.specs.Prelude.{◌≡◌, ◌∷◌, [], List, Option, cond, IfOk, MatchOption, Some, None, option_map};
ghost use Rattle.c_automaton.specs.Automaton.{State, Within, finished, read_on};
ghost use Rattle.c_automaton.specs.Phrases as automaton;
ghost use Rattle.c_automaton.specs.Phrases.{begins, begun, closed, goes_on, operated, phrase_begins, read_some, reads_on, wanted};
ghost use Rattle.c_automaton.specs.declared.forms.Form.{Form};
ghost use Rattle.c_phrase_reader.specs.PhraseCopies.{frame_of, frames_of, got_of, if_taken, phrase_of, reading_of};

use crate::phrase::{Phrase, allows, joined, negated, operand_at};
use crate::tables::{inside, may_be_operand, may_be_test, may_join, operator_at, side_of};
use c_automaton::{Operator, Want};
use c_tokens::Symbol;
use c_words::CToken;
use exact_reader::Stack;
use std::alloc::Global;
use strm_num::NoMemory;

/// An open form: a `(` with nothing behind it, and what it may become; a phrase and the operator behind
/// it; a `!`.
#[derive(Drop)]
pub enum Frame {
    Open(Want),
    Left(Operator, Phrase),
    Negation,
}

/// A phrase that is being read: the forms that are open, the innermost first, and what was read last, if
/// an operator or a `)` is to come.
#[derive(Drop)]
pub struct Reading {
    pub frames: Stack<Frame>,
    pub got: Option<Phrase>,
}

/// Whether a token closes parentheses.
fn is_close(token: CToken) -> bool
    ensures { (frames : List automaton.Frame) (p : Option automaton.Phrase)
        → closed frames p token ≡ cond result (read_some frames p) None }
{
    matches!(token, CToken::Sym(Symbol::CloseParen))
}

/// Whether a token is `!`.
#[tactic(auto, using(crate::proofs::Beginnings::begins_as_wanted))]
fn is_bang(token: CToken) -> bool
    ensures { (outer : Want) (frames : List automaton.Frame) → begins outer frames token
        ≡ cond result (begins outer frames (CToken.Sym Symbol.Bang))
        (phrase_begins (wanted outer frames) frames token) }
{
    matches!(token, CToken::Sym(Symbol::Bang))
}

/// What may begin inside the open forms, where a phrase outside of them may be `outer`.
fn wanted(outer: Want, frames: &Stack<Frame>) -> Want
    ensures { result ≡ wanted outer (frames_of frames.now) }
{
    match frames.innermost() {
        None => outer,
        Some(Frame::Open(want)) => inside(*want),
        Some(Frame::Left(operator, _)) => side_of(*operator),
        Some(Frame::Negation) => Want::Test,
    }
}

impl Reading {
    /// No phrase yet.
    pub fn new(alloc: Global) -> Self
        ensures { reading_of result ≡ record { frames = []; got = None } }
    {
        Reading {
            frames: Stack::new(alloc),
            got: None,
        }
    }

    /// Forgets what was read, so that a phrase is to begin.
    pub fn clear(&mut self)
        ensures no_form { self.new.frames ≡ [] }
        ensures nothing_read { self.new.got ≡ None }
    {
        while let Some(_) = self.frames.pop() {}
        self.got = None;
    }

    /// Takes the phrase that was read last, if no form is open around it.
    pub fn whole(&mut self) -> Option<Phrase>
        ensures { MatchOption result
            ((f : Form) (s : State) → read_on f s (frames_of self.old.frames) (got_of self.old.got)
            ≡ Some (record s { point = Within f (reading_of self.new) }))
            (λ p. (f : Form) (s : State) → read_on f s (frames_of self.old.frames) (got_of self.old.got)
            ≡ finished f (phrase_of p) s) }
    {
        if self.frames.len() == 0 {
            self.got.take()
        } else {
            None
        }
    }

    /// Opens a form, inside which a phrase is to begin.
    fn open(&mut self, frame: Frame) -> Result<bool, NoMemory>
        ensures { IfOk result (λ taken. begun (frame_of frame ∷ frames_of self.old.frames)
            ≡ if_taken taken (reading_of self.new)) }
    {
        self.got = None;
        self.frames.push(frame)?;
        Ok(true)
    }

    /// Takes a phrase, if there is one, as what was read last.
    fn read_some(&mut self, phrase: Option<Phrase>) -> bool
        ensures { read_some (frames_of self.old.frames) (option_map phrase_of phrase)
            ≡ if_taken result (reading_of self.new) }
    {
        let is_there = phrase.is_some();
        self.got = phrase;
        is_there
    }

    /// Begins a phrase, of which this is wanted, with a `(` or with an operand of one token.
    fn phrase_begins(&mut self, alloc: Global, want: Want, token: CToken) -> Result<bool, NoMemory>
        ensures { IfOk result (λ taken. phrase_begins want (frames_of self.old.frames) token
            ≡ if_taken taken (reading_of self.new)) }
    {
        if let CToken::Sym(Symbol::OpenParen) = token {
            return self.open(Frame::Open(want));
        }
        if !may_be_operand(want) {
            return Ok(false);
        }
        let operand = operand_at(alloc, token)?;
        Ok(self.read_some(operand))
    }

    /// Takes a `!` behind a `(` that nothing stands behind, where a test may become of it.
    fn negation_begins(&mut self, outer: Want) -> Result<bool, NoMemory>
        ensures { IfOk result (λ taken. begins outer (frames_of self.old.frames) (CToken.Sym Symbol.Bang)
            ≡ if_taken taken (reading_of self.new)) }
    {
        match self.frames.pop() {
            Some(Frame::Open(want)) => {
                if may_be_test(want) {
                    self.open(Frame::Negation)
                } else {
                    Ok(false)
                }
            }
            _ => Ok(false),
        }
    }

    /// Begins a phrase inside the open forms.
    fn begins(&mut self, alloc: Global, outer: Want, token: CToken) -> Result<bool, NoMemory>
        ensures { IfOk result (λ taken. begins outer (frames_of self.old.frames) token
            ≡ if_taken taken (reading_of self.new)) }
    {
        if is_bang(token) {
            return self.negation_begins(outer);
        }
        let want = wanted(outer, &self.frames);
        self.phrase_begins(alloc, want, token)
    }

    /// Takes an operator behind a phrase that stands first in parentheses.
    fn operated(
        &mut self,
        want: Want,
        phrase: Phrase,
        operator: Option<Operator>,
    ) -> Result<bool, NoMemory>
        ensures { IfOk result (λ taken. operated want (frames_of self.old.frames) (phrase_of phrase) operator
            ≡ if_taken taken (reading_of self.new)) }
    {
        let Some(operator) = operator else {
            return Ok(false);
        };
        if may_join(want, operator) && allows(side_of(operator), &phrase) {
            self.open(Frame::Left(operator, phrase))
        } else {
            Ok(false)
        }
    }

    /// Goes on behind a phrase, with an operator or with the `)` that closes it.
    fn goes_on(&mut self, alloc: Global, phrase: Phrase, token: CToken) -> Result<bool, NoMemory>
        ensures { IfOk result (λ taken. goes_on (frames_of self.old.frames) (phrase_of phrase) token
            ≡ if_taken taken (reading_of self.new)) }
    {
        match self.frames.pop() {
            None => Ok(false),
            Some(Frame::Open(want)) => self.operated(want, phrase, operator_at(token)),
            Some(Frame::Left(operator, left)) => {
                if !is_close(token) {
                    return Ok(false);
                }
                let made = joined(alloc, operator, left, phrase)?;
                Ok(self.read_some(made))
            }
            Some(Frame::Negation) => {
                if !is_close(token) {
                    return Ok(false);
                }
                let made = negated(alloc, phrase)?;
                Ok(self.read_some(made))
            }
        }
    }

    /// Takes one token more, where a phrase outside of the open forms may be `outer`. It answers whether
    /// a phrase goes on so; where none does, what is read afterwards says nothing.
    pub fn reads_on(&mut self, alloc: Global, outer: Want, token: CToken) -> Result<bool, NoMemory>
        ensures { IfOk result (λ taken. reads_on outer (frames_of self.old.frames)
            (got_of self.old.got) token ≡ if_taken taken (reading_of self.new)) }
    {
        match self.got.take() {
            Some(phrase) => self.goes_on(alloc, phrase, token),
            None => self.begins(alloc, outer, token),
        }
    }
}
