//! One step of the reader of expressions, over one token.

ghost use Rattle.std.specs.Prelude.{◌≡◌, ◌∷◌, ℕ, List, IfOk, cond, option_map};
ghost use Rattle.pipe_reader.specs.Machine.{Need, Goes, Stuck, step_from_start, start_of, step_by_mark, pop, shift, step_by_name, step, finish, tree_of};
ghost use Rattle.pipe_expressions.specs.MachineCopies.{frame_of, inner_of, frames_of, state_of, step_of};
ghost use Rattle.pipe_reader.specs.Machine as machine;
ghost use Rattle.pipe_tree.specs.Tokens.{what_of};
ghost use Rattle.pipe_tree.specs.TreeCopies.{boxed_copy, formula_of};
ghost use Rattle.pipe_tree.specs.Trees.{Name as NameFormula};

use crate::completion::{complete, enclose, leaf};
use crate::frames::{Final, Frame, Inner, Mode, Step};
use crate::operand::Operand;
use crate::precedence::{may_test, operator_behind};
use crate::token_roles::{Start, follow_of, start_of};
use exact_reader::Stack;
use pipe_lexer::TokenKind;
use pipe_reader::{Follow, Mark};
use pipe_tree::{Name, TExpr, TNode};
use std::alloc::Global;
use strm_num::{List, NoMemory};

/// Opens a form, whose next operand is awaited.
fn open(forms: &mut Stack<Frame>, form: Frame) -> Result<Step, NoMemory>
    ensures { IfOk result (λ next. step_of next forms.new
        ≡ Goes (Need (frame_of form ∷ frames_of forms.old))) }
{
    forms.push(form)?;
    Ok(Step::Goes(Mode::Need))
}

/// `atom = NAME`: the operand that is a name with this text, at this offset.
fn name(alloc: Global, text: &[u8], at: u32) -> Result<Operand, NoMemory>
    ensures { IfOk result (λ u. formula_of u.expr.value ≡ NameFormula at text.now) }
{
    leaf(alloc, at, TNode::Name(List::from_slice(alloc, text)?))
}

/// `unary = "-" unary | "!" unary | atom`,
/// `atom = NUMBER | "true" | "false" | NAME | "len" "(" NAME ")" | "(" expr ")"`,
/// `expr = "if" expr "then" expr "else" expr`: begins an operand with the next token, which has this
/// kind, text and offset.
#[tactic(auto, using(pipe_reader::proofs::OperatorTables::wanted_precedence_most))]
fn start(
    alloc: Global,
    forms: &mut Stack<Frame>,
    kind: TokenKind,
    text: &[u8],
    at: u32,
) -> Result<Step, NoMemory>
    ensures { IfOk result (λ next. step_of next forms.new
        ≡ step_from_start (frames_of forms.old) (start_of (what_of kind text.now) at)) }
{
    match start_of(kind) {
        Start::Name => Ok(Step::Goes(Mode::Have(name(alloc, text, at)?))),
        Start::Number(n) => Ok(Step::Goes(Mode::Have(leaf(alloc, at, TNode::Num(n))?))),
        Start::Truth(b) => Ok(Step::Goes(Mode::Have(leaf(alloc, at, TNode::Truth(b))?))),
        Start::Length => Ok(Step::Goes(Mode::Calls(at))),
        Start::Negates => open(forms, Frame::Last(Final::Negates(at))),
        Start::Denies => open(forms, Frame::Last(Final::Denies(at))),
        Start::Encloses => open(forms, Frame::Inside(Inner::Encloses(at))),
        Start::Tests => {
            if may_test(forms) {
                open(forms, Frame::Inside(Inner::Tests(at)))
            } else {
                Ok(Step::Stuck)
            }
        }
        Start::Nothing => Ok(Step::Stuck),
    }
}

/// Whether the token is this mark.
fn is_mark(follow: Follow, mark: Mark) -> bool
    ensures { (next : machine.State)
        → step_by_mark mark follow next ≡ cond result (Goes next) Stuck }
{
    match follow {
        Follow::Marks(found) => found == mark,
        Follow::Operator(_) | Follow::Foreign => false,
    }
}

/// `"(" expr ")"`, `"if" expr "then" expr "else" expr`: goes on in a form with its inner operand, if the
/// next token is the mark that stands behind it.
fn close(
    alloc: Global,
    forms: &mut Stack<Frame>,
    form: Inner,
    operand: Operand,
    follow: Follow,
) -> Result<Step, NoMemory>
    ensures { IfOk result (λ next. (at : ℕ) → step_of next forms.new
        ≡ pop (inner_of form ∷ frames_of forms.old) (formula_of operand.expr.value) follow at) }
{
    match form {
        Inner::Encloses(first) => {
            if !is_mark(follow, Mark::Closing) {
                return Ok(Step::Stuck);
            }
            Ok(Step::Goes(Mode::Have(enclose(alloc, first, operand)?)))
        }
        Inner::Tests(first) => {
            if !is_mark(follow, Mark::ThenKeyword) {
                return Ok(Step::Stuck);
            }
            open(forms, Frame::Inside(Inner::Branches(first, operand)))
        }
        Inner::Branches(first, test) => {
            if !is_mark(follow, Mark::ElseKeyword) {
                return Ok(Step::Stuck);
            }
            open(forms, Frame::Last(Final::Chooses(first, test, operand)))
        }
    }
}

/// `or = and { "||" and }`, `and = cmp { "&&" cmp }`,
/// `cmp = sum [ ( "==" | "!=" | "<" | "<=" | ">" | ">=" ) sum ]`, `sum = prod { ( "+" | "-" ) prod }`,
/// `prod = unary { ( "*" | "/" | "%" ) unary }`: goes on behind an operand. The next token follows it
/// so, at this offset; the operand is complete where no operator takes it first.
fn shift(
    alloc: Global,
    forms: &mut Stack<Frame>,
    mut operand: Operand,
    follow: Follow,
    at: u32,
) -> Result<Step, NoMemory>
    ensures { IfOk result (λ next. step_of next forms.new
        ≡ shift (frames_of forms.old) (formula_of operand.expr.value) follow at) }
{
    loop {
        if let Some(operator) = operator_behind(forms, &operand.expr, follow) {
            return open(forms, Frame::Last(Final::Joins(operator, at, operand)));
        }
        match forms.pop() {
            None => return Ok(Step::Leaves(operand.expr)),
            Some(Frame::Last(form)) => operand = complete(alloc, form, operand)?,
            Some(Frame::Inside(form)) => return close(alloc, forms, form, operand, follow),
        }
    }
}

/// `expr = "if" expr "then" expr "else" expr | or`: what the next token of an expression leads to,
/// which has this kind, text and offset.
///
/// `forms` are the open forms, the innermost first, and `mode` what is awaited inside them. The one
/// error is `NoMemory`.
pub fn step(
    alloc: Global,
    forms: &mut Stack<Frame>,
    mode: Mode,
    kind: TokenKind,
    text: &[u8],
    at: u32,
) -> Result<Step, NoMemory>
    ensures { IfOk result (λ next. step_of next forms.new
        ≡ step (state_of mode forms.old) (what_of kind text.now) at) }
{
    match mode {
        Mode::Need => start(alloc, forms, kind, text, at),
        Mode::Have(operand) => shift(alloc, forms, operand, follow_of(kind), at),
        Mode::Calls(first) => {
            if !is_mark(follow_of(kind), Mark::Opening) {
                return Ok(Step::Stuck);
            }
            Ok(Step::Goes(Mode::Spells(first)))
        }
        Mode::Spells(first) => {
            let TokenKind::Name = kind else {
                return Ok(Step::Stuck);
            };
            let text = List::from_slice(alloc, text)?;
            Ok(Step::Goes(Mode::Closes(first, Name { at, text })))
        }
        Mode::Closes(first, name) => {
            if !is_mark(follow_of(kind), Mark::Closing) {
                return Ok(Step::Stuck);
            }
            Ok(Step::Goes(Mode::Have(leaf(alloc, first, TNode::Len(name))?)))
        }
    }
}

/// `expr`: the expression at the end of the tokens; none if it isn't complete there. The one error is
/// `NoMemory`.
pub fn finish(
    alloc: Global,
    forms: &mut Stack<Frame>,
    mode: Mode,
) -> Result<Option<Box<TExpr>>, NoMemory>
    ensures { IfOk result (λ e. option_map (boxed_copy formula_of) e
        ≡ tree_of (finish (state_of mode forms.old))) }
{
    let Mode::Have(operand) = mode else {
        return Ok(None);
    };
    match shift(alloc, forms, operand, Follow::Foreign, 0)? {
        Step::Leaves(e) => Ok(Some(e)),
        Step::Goes(_) => Ok(None),
        Step::Stuck => Ok(None),
    }
}
