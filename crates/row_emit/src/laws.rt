//! Laws of the definitions. These functions do nothing: their contracts are the laws, which specs/Promises tells.

ghost use Rattle.row_emit.specs.Promises.{SetWordsTakeLaterVariables};

pub fn set_words_take_later_variables()
    ensures { SetWordsTakeLaterVariables }
{}
