//! Laws of the definitions. These functions do nothing: their contracts are the laws, which specs/Promises tells.

ghost use Rattle.c_grammar.specs.Promises.{TextsReadAsOneProgram, LayoutsReadAsTheirPrograms};

use c_tokens::texts_have_one_cutting;

pub fn texts_read_as_one_program()
    ensures { TextsReadAsOneProgram }
{
    texts_have_one_cutting();
}

pub fn layouts_read_as_their_programs()
    ensures { LayoutsReadAsTheirPrograms }
{}
