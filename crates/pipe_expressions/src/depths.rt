//! How deep an expression becomes at least, as it is tested at each token.

ghost use Rattle.std.specs.Prelude.{◌≡◌, ◌+◌, min};
ghost use Rattle.pipe_reader.specs.Depths.{final_depth, frame_depth, tested_depth};
ghost use Rattle.pipe_reader.specs.Machine.{at_most};
ghost use Rattle.pipe_expressions.specs.MachineCopies.{final_of, frame_of, state_of};

use crate::frames::{Final, Frame, Inner, Mode};
use crate::operand::depth_around;
use exact_reader::Stack;
use pipe_limits::MOST_DEPTH;

/// The depth of a form with the least last operand, counted up to `MOST_DEPTH` + 1.
fn final_depth(form: &Final) -> u32
    ensures { result ≡ min (final_depth (final_of form.now) 1) (MOST_DEPTH + 1) }
{
    match form {
        Final::Negates(_) | Final::Denies(_) => 2,
        Final::Joins(_, _, left) => depth_around(left.depth.max(1)),
        Final::Chooses(_, test, chosen) => depth_around(test.depth.max(chosen.depth).max(1)),
    }
}

/// The depth of a form with the least operands where they are awaited, counted up to `MOST_DEPTH` + 1.
fn frame_depth(form: &Frame) -> u32
    ensures { result ≡ min (frame_depth (frame_of form.now) 1) (MOST_DEPTH + 1) }
{
    match form {
        Frame::Last(form) => final_depth(form),
        Frame::Inside(Inner::Encloses(_) | Inner::Tests(_)) => 2,
        Frame::Inside(Inner::Branches(_, test)) => depth_around(test.depth.max(1)),
    }
}

/// Whether the innermost form, or the operand that is there, is at most `MOST_DEPTH` deep with the forms
/// around it.
pub fn is_within_depth(forms: &Stack<Frame>, mode: &Mode) -> bool
    ensures { result ≡ at_most (tested_depth (state_of mode.now forms.now)) MOST_DEPTH }
{
    let around = forms.len();
    if around > MOST_DEPTH as u64 {
        return false;
    }
    let room = MOST_DEPTH - around as u32;
    match mode {
        Mode::Have(operand) => operand.depth <= room,
        Mode::Need => match forms.innermost() {
            None => true,
            Some(form) => frame_depth(form) <= room + 1,
        },
        Mode::Calls(_) | Mode::Spells(_) | Mode::Closes(..) => room > 0,
    }
}
