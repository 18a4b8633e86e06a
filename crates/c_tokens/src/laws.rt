//! Laws of the definitions. These functions do nothing: their contracts are the laws, which specs/Promises tells.

ghost use Rattle.c_tokens.specs.Promises.{TextsHaveOneCutting};

pub fn texts_have_one_cutting()
    ensures { TextsHaveOneCutting }
{}
