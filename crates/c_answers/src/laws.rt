//! Laws of the definitions. These functions do nothing: their contracts are the laws, which specs/Promises tells.

ghost use Rattle.c_answers.specs.Promises.{CTextsHaveAnAnswer, CTextsHaveOneRefusal};
ghost use Rattle.c_answers.specs.Promises.{EachCTextHasItsRefusal, CProgramsHaveNoRefusal};

use c_automaton::programs_are_read_exactly;
use c_faults::{declared_tokens_are_declared_names, texts_have_one_answer};

pub fn texts_have_an_answer()
    ensures { CTextsHaveAnAnswer }
{
    programs_are_read_exactly();
    declared_tokens_are_declared_names();
}

pub fn texts_have_one_refusal()
    ensures { CTextsHaveOneRefusal }
{
    texts_have_one_answer();
}

pub fn each_text_has_its_refusal()
    ensures { EachCTextHasItsRefusal }
{
    texts_have_an_answer();
}

pub fn programs_have_no_refusal()
    ensures { CProgramsHaveNoRefusal }
{}
