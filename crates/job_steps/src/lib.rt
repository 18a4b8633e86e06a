//! What each command does, step by step, as definitions, and laws of them.
//!
//! The steps of a command are gone through in order: files are loaded and read, and inputs are taken.
//! Either a step fails with a status, or all steps pass and what they gave is the work of the command.
//! `Prepares` of `specs/Jobs` says what comes of the words, over a store of files: work, or a status.
//! `Ends` of `specs/Works` says with which status and which text work ends. `Answers` of
//! `specs/Answers` says what a status that the program answers tells of the steps and of what was
//! written.
//!
//! The crate depends on those that define the parts: command_words for the words, strm_io for stores,
//! pipe_lexer, pipe_tree and kind_rules for pipeline texts, c_faults and c_grammar for C texts,
//! value_files for files of values, status_lines for statuses, list_denotation, loop_ir and headline
//! for what a program does, and count_lines and event_texts for the texts that are written. Its laws
//! stand on theirs, and on those of pipe_reader and denotation_laws.
//!
//! The laws: a file is one pipeline at most; it has a refusal or none, and only one of these, and none
//! exactly where it is a pipeline, if it isn't too long; over a store that tells, one thing at most
//! comes of the words, unless a file isn't read; the inputs of work are those that its program declares;
//! what a run of a pipeline shows is between its lists at two numbers of pulls; only words that are no
//! command end with the status of words; no pipeline ends undefined; and work that isn't left to the
//! choice of a program ends in one way.
#![tactic(auto)]

mod laws;

pub use laws::{
    each_file_has_its_refusal, files_are_one_pipeline, files_have_one_refusal, inputs_of_work_fit,
    only_words_end_as_words, pipelines_are_never_undefined, pipelines_have_no_refusal,
    runs_follow_the_lists, words_come_to_one, work_ends_in_one_way,
};
