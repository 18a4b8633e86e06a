//! The program that a tree stands for, or the first fault.

ghost use Rattle.std.specs.Prelude.{◌≡◌, [], map, Ok, IfOk};
ghost use Rattle.list_denotation.specs.Pipelines.{pipeline_of};
ghost use Rattle.pipe_tree.specs.Bounds.{IsBounded};
ghost use Rattle.pipe_tree.specs.TreeCopies.{declaration_of, text_of};
ghost use Rattle.kind_rules.specs.Checked.{IsOneUnlessRefused};
ghost use Rattle.kind_rules.specs.Checking.{check_of};
ghost use Rattle.kind_rules.specs.Inputs.{declared_names, input_kind, input_kinds};
ghost use Rattle.kind_rules.specs.Scopes.{distinct_names, names_of};
ghost use Rattle.pipe_kinds.specs.Copies.{inputs_of};

use crate::streams::{typed_stream, typed_terminal};
use kind_rules::{TypeFault, programs_of_trees_are_typed, typed_trees_stand_for_programs};
use list_denotation::{InputKind, InputKinds, Program};
use pipe_kinds::{Inputs, Scope, inputs_by_name};
use pipe_tree::{Decl, Tree};
use std::alloc::Global;
use strm_num::NoMemory;

/// What an input is declared as.
fn input_kind(kind: pipe_lexer::InputKind) -> InputKind
    ensures { result ≡ input_kind kind }
{
    match kind {
        pipe_lexer::InputKind::Array => InputKind::Array,
        pipe_lexer::InputKind::Int => InputKind::Int,
    }
}

/// The kinds of declared inputs.
fn input_kinds(alloc: Global, inputs: &[Decl]) -> Result<InputKinds, NoMemory>
    ensures { IfOk result (λ kinds. kinds ≡ input_kinds (map declaration_of inputs.now)) }
{
    let mut kinds = InputKinds::new(alloc);
    for input in inputs {
        kinds.push(input_kind(input.kind))?;
    }
    Ok(kinds)
}

/// The program that a tree stands for, or the first fault behind its inputs, which are these and differ
/// in their names.
fn program_with(alloc: Global, inputs: &Inputs, t: &Tree) -> Result<Program, TypeFault>
    requires inputs { inputs_of inputs.now ≡ map declaration_of t.now.inputs }
    requires names { distinct_names [] (declared_names (map declaration_of t.now.inputs))
        ≡ Ok (names_of (declared_names (map declaration_of t.now.inputs))) }
    requires bounded { IsBounded (text_of t.now) }
    ensures { IsOneUnlessRefused pipeline_of result (check_of (text_of t.now)) }
{
    typed_trees_stand_for_programs();
    programs_of_trees_are_typed();
    let scope = Scope {
        inputs,
        bound: Vec::new(alloc),
    };
    let inputs = input_kinds(alloc, t.inputs.as_slice())?;
    let rows = typed_stream(alloc, &scope, &t.stream)?;
    let terminal = typed_terminal(alloc, &scope, &t.terminal, rows.kinds.as_slice())?;
    Ok(Program {
        inputs,
        stream: Box::into_inner(rows.stream),
        terminal,
    })
}

/// The program that a tree within the limits stands for, or the first fault where its text is gone
/// through from left to right.
///
/// The faults say which rule is broken, each at its offset in bytes. `NoMemory` may come at any time.
pub fn check(alloc: Global, t: &Tree) -> Result<Program, TypeFault>
    requires bounded { IsBounded (text_of t.now) }
    ensures checks { IsOneUnlessRefused pipeline_of result (check_of (text_of t.now)) }
{
    let inputs = inputs_by_name(alloc, t.inputs.as_slice())?;
    program_with(alloc, &inputs, t)
}
