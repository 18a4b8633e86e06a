//! Laws of the definitions. These functions do nothing: their contracts are the laws, which specs/Promises tells.

ghost use Rattle.pipe_reader.specs.Promises.{TextsAreReadExactly, SentencesHaveOneTree};
ghost use Rattle.pipe_reader.specs.Promises.{TokensHaveOneAnswer, TokensHaveAnAnswer};

pub fn texts_are_read_exactly()
    ensures { TextsAreReadExactly }
{}

pub fn sentences_have_one_tree()
    ensures { SentencesHaveOneTree }
{}

pub fn answers_are_one()
    ensures { TokensHaveOneAnswer }
{}

pub fn tokens_have_an_answer()
    ensures { TokensHaveAnAnswer }
{}
