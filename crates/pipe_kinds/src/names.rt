//! What names stand for, and the words that a pattern binds.

ghost use Rattle.std.specs.Prelude.{◌≡◌, [], ◌<◌, ◌≤◌, ◌^◌, ◌++◌, length, map, IfOk};
ghost use Rattle.pipe_tree.specs.TreeCopies.{declaration_of, label_of, pattern_of as pattern_copy};
ghost use Rattle.kind_rules.specs.Checked.{IsOneUnlessRefused};
ghost use Rattle.kind_rules.specs.Inputs.{declared_names};
ghost use Rattle.kind_rules.specs.Scopes.{bind, bound_from, distinct_names, input_from, is_among, is_wide, names_of, pattern_of};
ghost use Rattle.pipe_kinds.specs.Copies.{bound_of, bounds_of, inputs_of};

use crate::scope::{BoundWord, Inputs};
use indexmap::IndexMap;
use kind_rules::{Meaning, TypeFault};
use list_denotation::Kind;
use pipe_tree::{Decl, Name, TPat};
use std::alloc::Global;
use strm_num::NoMemory;

/// The last of the bound words with this name.
pub fn bound_named(bound: &[BoundWord], name: &[u8]) -> Option<Meaning>
    requires { length bound.now ≤ 1024 }
    ensures { result ≡ bound_from 0 (map bound_of bound.now) name.now }
{
    let mut found = None;
    for (i, word) in bound.iter().enumerate() {
        if word.name == name {
            found = Some(Meaning::Bound(i as u32, word.kind));
        }
    }
    found
}

/// The input with this name, by its position in the order of declaration.
pub fn input_named(inputs: &Inputs, name: &[u8]) -> Option<Meaning>
    requires { length inputs.now.entries < 2 ^ 32 }
    ensures { result ≡ input_from 0 (inputs_of inputs.now) name.now }
{
    let i = inputs.get_index_of(name)?;
    Some(Meaning::Input(i as u32, inputs[i].kind))
}

/// Whether one of these names is spelled so.
fn is_among(name: &[u8], names: &[Name]) -> bool
    ensures { result ≡ is_among name.now (names_of (map label_of names.now)) }
{
    for other in names {
        if other.text.as_slice() == name {
            return true;
        }
    }
    false
}

/// Whether a name is among those of two lists.
#[tactic(auto, using(crate::proofs::PatternNames::is_among_append))]
fn is_taken(name: &[u8], beside: &[Name], before: &[Name]) -> bool
    ensures { result ≡ is_among name.now
        (names_of (map label_of beside.now) ++ names_of (map label_of before.now)) }
{
    is_among(name, beside) || is_among(name, before)
}

/// Tests that names differ from those beside them and from one another.
fn distinct(beside: &[Name], names: &[Name]) -> Result<(), TypeFault>
    ensures { IsOneUnlessRefused
        (λ _. names_of (map label_of beside.now) ++ names_of (map label_of names.now)) result
        (distinct_names (names_of (map label_of beside.now)) (map label_of names.now)) }
{
    for (i, name) in names.iter().enumerate() {
        if is_taken(name.text.as_slice(), beside, &names[..i]) {
            return Err(TypeFault::Twice(name.at));
        }
    }
    Ok(())
}

/// The declared inputs by their names, or the fault `Twice` where a name is declared again.
pub fn inputs_by_name<'a>(alloc: Global, decls: &'a [Decl]) -> Result<Inputs<'a>, TypeFault>
    ensures names { IsOneUnlessRefused
        (λ inputs. names_of (declared_names (inputs_of inputs))) result
        (distinct_names [] (declared_names (map declaration_of decls.now))) }
    ensures inputs { IfOk result (λ inputs. inputs_of inputs ≡ map declaration_of decls.now) }
{
    let mut inputs = IndexMap::new(alloc);
    for input in decls {
        if inputs.insert(input.name.text.as_slice(), input)?.is_some() {
            return Err(TypeFault::Twice(input.name.at));
        }
    }
    Ok(inputs)
}

/// Whether a pattern of so many names binds a row of so many words.
pub fn is_wide(names: usize, words: usize) -> bool
    ensures { result ≡ is_wide names words }
{
    names == words
}

/// Each name with a kind.
fn bind<'a>(
    alloc: Global,
    names: &'a [Name],
    kinds: &[Kind],
) -> Result<Vec<BoundWord<'a>>, NoMemory>
    requires { length names.now ≡ length kinds.now }
    ensures words { IfOk result (λ words.
        map bound_of words.items ≡ bind (map label_of names.now) kinds.now) }
    ensures wide { IfOk result (λ words. length words.items ≡ length kinds.now) }
{
    let mut words = Vec::new(alloc);
    for (i, name) in names.iter().enumerate() {
        words.push(BoundWord {
            name: name.text.as_slice(),
            kind: kinds[i],
        })?;
    }
    Ok(words)
}

/// The words that a pattern binds over a row of these kinds, beside these names, or its first fault.
pub fn pattern<'a>(
    alloc: Global,
    beside: &[Name],
    pat: &'a TPat,
    kinds: &[Kind],
) -> Result<Vec<BoundWord<'a>>, TypeFault>
    ensures words { IsOneUnlessRefused bounds_of result
        (pattern_of (names_of (map label_of beside.now)) (pattern_copy pat.now) kinds.now) }
    ensures wide { IfOk result (λ words. length words.items ≡ length kinds.now) }
{
    let names = pat.names.as_slice();
    if !is_wide(names.len(), kinds.len()) {
        return Err(TypeFault::WidthMismatch(pat.at));
    }
    distinct(beside, names)?;
    Ok(bind(alloc, names, kinds)?)
}
