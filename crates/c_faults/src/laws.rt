//! Laws of the definitions. These functions do nothing: their contracts are the laws, which specs/Promises tells.

ghost use Rattle.c_faults.specs.Promises.{CTextsHaveOneAnswer, DeclaredTokensAreDeclaredNames};
ghost use Rattle.c_faults.specs.Promises.{DeclaredNamesAreDeclaredTokens, ProgramsOfTextsHaveWords};
ghost use Rattle.c_faults.specs.Promises.{ProgramsHaveFewParams, ProgramsOfTextsHaveFewVariables};

pub fn texts_have_one_answer()
    ensures { CTextsHaveOneAnswer }
{}

pub fn declared_tokens_are_declared_names()
    ensures names { DeclaredTokensAreDeclaredNames }
    ensures tokens { DeclaredNamesAreDeclaredTokens }
{}

pub fn programs_of_texts_have_words()
    ensures { ProgramsOfTextsHaveWords }
{}

pub fn programs_have_few_params()
    ensures { ProgramsHaveFewParams }
{}

pub fn programs_of_texts_have_few_variables()
    ensures { ProgramsOfTextsHaveFewVariables }
{}
