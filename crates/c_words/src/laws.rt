//! Laws of the definitions. These functions do nothing: their contracts are the laws, which specs/Promises tells.

ghost use Rattle.c_words.specs.Promises.{TokensStandForOne, TokensAreSeen};

pub fn tokens_stand_for_one()
    ensures { TokensStandForOne }
{}

pub fn tokens_are_seen()
    ensures { TokensAreSeen }
{}
