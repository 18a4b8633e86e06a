//! Laws of the definitions. These functions do nothing: their contracts are the laws, which specs/Promises tells.

ghost use Rattle.job_steps.specs.Promises.{FilesAreOnePipeline, FilesHaveOneRefusal};
ghost use Rattle.job_steps.specs.Promises.{EachFileHasItsRefusal, PipelinesHaveNoRefusal};
ghost use Rattle.job_steps.specs.Promises.{WordsComeToOne, InputsOfRunsFit, InputsOfListingsFit};
ghost use Rattle.job_steps.specs.Promises.{InputsOfExecutionsFit, RunsFollowTheLists};
ghost use Rattle.job_steps.specs.Promises.{OnlyNoCommandFailsAsWords, NoWorkEndsAsWords};
ghost use Rattle.job_steps.specs.Promises.{PipelinesAreNeverUndefined, CountingEndsInOneWay};
ghost use Rattle.job_steps.specs.Promises.{ExecutionsEndInOneWay, ListingsEndInOneWay};
ghost use Rattle.job_steps.specs.Promises.{BenchesEndInOneWay};

use c_faults::texts_have_one_answer as c_texts_have_one_answer;
use denotation_laws::{far_is_an_order, no_observation_is_stuck};
use kind_rules::{trees_have_an_answer, typed_trees_stand_for_programs};
use loop_ir::runs_grow;
use pipe_lexer::{texts_have_an_answer, texts_have_one_answer};
use pipe_reader::{answers_are_one, tokens_have_an_answer};
use value_files::files_have_one_answer;

pub fn files_are_one_pipeline()
    ensures { FilesAreOnePipeline }
{
    texts_have_one_answer();
    answers_are_one();
}

pub fn files_have_one_refusal()
    ensures { FilesHaveOneRefusal }
{
    texts_have_one_answer();
    answers_are_one();
}

pub fn each_file_has_its_refusal()
    ensures { EachFileHasItsRefusal }
{
    texts_have_an_answer();
    tokens_have_an_answer();
    trees_have_an_answer();
}

pub fn pipelines_have_no_refusal()
    ensures { PipelinesHaveNoRefusal }
{}

pub fn words_come_to_one()
    ensures { WordsComeToOne }
{
    texts_have_one_answer();
    answers_are_one();
    c_texts_have_one_answer();
    files_have_one_answer();
}

pub fn inputs_of_work_fit()
    ensures running { InputsOfRunsFit }
    ensures listing { InputsOfListingsFit }
    ensures executing { InputsOfExecutionsFit }
{
    typed_trees_stand_for_programs();
}

pub fn runs_follow_the_lists()
    ensures { RunsFollowTheLists }
{
    runs_grow();
    far_is_an_order();
}

pub fn only_words_end_as_words()
    ensures steps { OnlyNoCommandFailsAsWords }
    ensures work { NoWorkEndsAsWords }
{}

pub fn pipelines_are_never_undefined()
    ensures { PipelinesAreNeverUndefined }
{
    no_observation_is_stuck();
    inputs_of_work_fit();
}

pub fn work_ends_in_one_way()
    ensures counting { CountingEndsInOneWay }
    ensures executing { ExecutionsEndInOneWay }
    ensures listing { ListingsEndInOneWay }
    ensures benching { BenchesEndInOneWay }
{
    files_are_one_pipeline();
}
