//! Words that bind inputs, and which of them are wrong.

ghost use Rattle.std.specs.Prelude.{◌≡◌, IfErr, IfNone, IfSome, Some, None, []};
ghost use Rattle.command_words.specs.Commands.{texts_of};
ghost use Rattle.job_steps.specs.Bindings.{bound_value, is_among, is_bound, word_fault, words_fault};
ghost use Rattle.job_inputs.specs.Faults.{IsForNoFile, Tells, absent_fault, name_fault};
ghost use Rattle.job_inputs.specs.Givens.{value_for};
ghost use Rattle.job_inputs.specs.Names.{names_of};

use crate::called::{Called, input_name};
use command_words::{name_in, value_in};
use pipe_tree::Decl;
use status_lines::{InputFault, Status};
use std::alloc::Global;

/// Whether an input has this name.
fn is_among(name: &[u8], names: &[Decl]) -> bool
    ensures { result ≡ is_among name.now (names_of names.now) }
{
    for decl in names {
        if decl.name.text.as_slice() == name {
            return true;
        }
    }
    false
}

/// The value of the first word that binds the name.
fn bound_value<'a>(name: &[u8], words: &'a [String]) -> Option<&'a str>
    ensures none { IfNone result (bound_value name.now (texts_of words.now) ≡ None) }
    ensures some { IfSome result (λ value. bound_value name.now (texts_of words.now) ≡ Some value.now) }
{
    for word in words {
        if name_in(word.as_str()).as_bytes() == name {
            return Some(value_in(word.as_str()));
        }
    }
    None
}

/// Whether a word binds the name.
fn is_bound(name: &[u8], words: &[String]) -> bool
    ensures { result ≡ is_bound name.now (texts_of words.now) }
{
    bound_value(name, words).is_some()
}

/// The value that the words bind a name to, and nothing where none does.
pub fn value_for<'a>(name: &[u8], words: &'a [String]) -> &'a str
    ensures { result.now ≡ value_for name.now (texts_of words.now) }
{
    bound_value(name, words).unwrap_or("")
}

/// Why a name is no input's that is bound for the first time, behind these words.
fn name_fault(name: &[u8], before: &[String], names: &[Decl]) -> Option<InputFault>
    ensures { result ≡ name_fault (names_of names.now) (texts_of before.now) name.now }
{
    if !is_among(name, names) {
        return Some(InputFault::Unknown);
    }
    if is_bound(name, before) {
        return Some(InputFault::Twice);
    }
    None
}

/// `BadInput` where something is wrong with a word behind these words.
fn check_word(alloc: Global, word: &str, before: &[String], names: &[Decl]) -> Result<(), Status>
    ensures tells { Tells (word_fault (names_of names.now) (texts_of before.now) word.now) result }
    ensures file { IfErr result IsForNoFile }
{
    let name = name_in(word).as_bytes();
    match name_fault(name, before, names) {
        Some(fault) => Err(Status::BadInput(input_name(alloc, Called::Named(name))?, fault)),
        None => Ok(()),
    }
}

/// `BadInput` for the first word whose name is no input's, or is bound by a word before it.
pub fn check_words(alloc: Global, words: &[String], names: &[Decl]) -> Result<(), Status>
    ensures tells { Tells (words_fault (names_of names.now) [] (texts_of words.now)) result }
    ensures file { IfErr result IsForNoFile }
{
    for i in 0..words.len() {
        check_word(alloc, words[i].as_str(), &words[..i], names)?;
    }
    Ok(())
}

/// `BadInput` for the first input that none of the words binds.
pub fn check_names(alloc: Global, words: &[String], names: &[Decl]) -> Result<(), Status>
    ensures tells { Tells (absent_fault (texts_of words.now) (names_of names.now)) result }
    ensures file { IfErr result IsForNoFile }
{
    for decl in names {
        let name = decl.name.text.as_slice();
        if !is_bound(name, words) {
            let name = input_name(alloc, Called::Named(name))?;
            return Err(Status::BadInput(name, InputFault::Absent));
        }
    }
    Ok(())
}
