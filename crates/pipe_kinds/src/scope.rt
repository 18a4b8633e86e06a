ghost use Rattle.std.specs.Prelude.{◌<◌, ◌≤◌, ◌^◌, length};

use crate::names::{bound_named, input_named, pattern};
use indexmap::IndexMap;
use kind_rules::{Meaning, TypeFault};
use list_denotation::Kind;
use pipe_tree::{Decl, TPat};
use std::alloc::Global;
use strm_num::NoMemory;

/// A bound word: its name and its kind.
#[derive(Clone, Copy)]
pub struct BoundWord<'a> {
    pub name: &'a [u8],
    pub kind: Kind,
}

/// The declared inputs by their names, in the order of declaration.
pub type Inputs<'a> = IndexMap<&'a [u8], &'a Decl>;

/// The names that an expression may use: the declared inputs, and the bound words from the outermost
/// on. A newer name hides an older one of the same spelling, inputs too. It keeps that the inputs are
/// fewer than 2^32, and the bound words at most 1,024: a text has at most 128 operators, of which each
/// binds at most 8 words.
#[derive(Drop)]
pub struct Scope<'a> {
    pub inputs: &'a Inputs<'a>,
    pub bound: Vec<BoundWord<'a>>,
    ghost few_inputs: { length inputs.now.entries < 2 ^ 32 },
    ghost few_bound: { length bound.items ≤ 1024 },
}

impl<'a> Scope<'a> {
    ghost use Rattle.std.specs.Prelude.{◌≡◌, ◌+◌, map, IfOk};
    ghost use Rattle.pipe_tree.specs.TreeCopies.{pattern_of as pattern_copy};
    ghost use Rattle.kind_rules.specs.Checked.{IsOneUnlessRefused};
    ghost use Rattle.kind_rules.specs.PatternScopes.{inside_of, inside_both_of};
    ghost use Rattle.kind_rules.specs.Scopes.{meaning_of, with_bound};
    ghost use Rattle.pipe_kinds.specs.Copies.{bound_of, scope_of};

    /// What a name stands for, or none where it is not in scope.
    pub fn look_up(&self, name: &[u8]) -> Option<Meaning>
        ensures { result ≡ meaning_of (scope_of self.now) name.now }
    {
        match bound_named(&self.bound, name) {
            Some(found) => Some(found),
            None => input_named(self.inputs, name),
        }
    }

    /// The scope with more bound words.
    fn with(&self, alloc: Global, words: &[BoundWord<'a>]) -> Result<Self, NoMemory>
        requires room { length self.now.bound.items + length words.now ≤ 1024 }
        ensures scope { IfOk result (λ s.
            scope_of s ≡ with_bound (scope_of self.now) (map bound_of words.now)) }
        ensures bound { IfOk result (λ s. length s.bound.items
            ≡ length self.now.bound.items + length words.now) }
    {
        let mut bound = Vec::from_slice(alloc, &self.bound)?;
        bound.extend_from_slice(words)?;
        Ok(Scope {
            inputs: self.inputs,
            bound,
        })
    }

    /// The scope inside a pattern over a row of these kinds, or the pattern's first fault.
    pub fn inside(&self, alloc: Global, pat: &'a TPat, kinds: &[Kind]) -> Result<Self, TypeFault>
        requires room { length self.now.bound.items + length kinds.now ≤ 1024 }
        ensures scope { IsOneUnlessRefused scope_of result
            (inside_of (scope_of self.now) (pattern_copy pat.now) kinds.now) }
        ensures bound { IfOk result (λ s. length s.bound.items
            ≡ length self.now.bound.items + length kinds.now) }
    {
        let words = pattern(alloc, &[], pat, kinds)?;
        Ok(self.with(alloc, &words)?)
    }

    /// The scope inside a state's pattern and a pattern over a row, of these kinds, or their first
    /// fault.
    pub fn inside_both(
        &self,
        alloc: Global,
        state: &'a TPat,
        state_kinds: &[Kind],
        pat: &'a TPat,
        row_kinds: &[Kind],
    ) -> Result<Self, TypeFault>
        requires room { length self.now.bound.items
            + (length state_kinds.now + length row_kinds.now) ≤ 1024 }
        ensures { IsOneUnlessRefused scope_of result
            (inside_both_of (scope_of self.now) (pattern_copy state.now) state_kinds.now
            (pattern_copy pat.now) row_kinds.now) }
    {
        let mut words = pattern(alloc, &[], state, state_kinds)?;
        let inner = pattern(alloc, state.names.as_slice(), pat, row_kinds)?;
        words.extend_from_slice(&inner)?;
        Ok(self.with(alloc, &words)?)
    }
}
