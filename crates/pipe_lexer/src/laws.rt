//! Laws of the definitions. These functions do nothing: their contracts are the laws, which specs/Promises tells.

ghost use Rattle.pipe_lexer.specs.Promises.{TextsHaveOneAnswer, TextsHaveAnAnswer, TokensAreInOrder};

pub fn texts_have_one_answer()
    ensures { TextsHaveOneAnswer }
{}

pub fn texts_have_an_answer()
    ensures { TextsHaveAnAnswer }
{}

pub fn tokens_are_in_order()
    ensures { TokensAreInOrder }
{}
