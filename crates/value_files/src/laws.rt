//! Laws of the definitions. These functions do nothing: their contracts are the laws, which specs/Promises tells.

ghost use Rattle.value_files.specs.Promises.{ValueFilesHaveOneAnswer, ValueFilesHaveAnAnswer};

pub fn files_have_one_answer()
    ensures { ValueFilesHaveOneAnswer }
{}

pub fn files_have_an_answer()
    ensures { ValueFilesHaveAnAnswer }
{}
