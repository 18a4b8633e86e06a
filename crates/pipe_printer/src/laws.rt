//! A law of the definitions. This function does nothing: its contract is the law, which specs/Promises tells.

ghost use Rattle.pipe_printer.specs.Promises.{SentencesHaveTreeTokens};

pub fn sentences_have_tree_tokens()
    ensures { SentencesHaveTreeTokens }
{}
