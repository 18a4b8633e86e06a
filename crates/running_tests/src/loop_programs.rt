//! Loop programs made by hand: their C texts and their counts.

ghost use Rattle.std.specs.Prelude.{◌≡◌, IfOk};
ghost use Rattle.loop_ir.specs.StatementCopies.{block_of};
ghost use Rattle.loop_ir.specs.Statements as plain;
ghost use Rattle.loop_ir.specs.declared.syntax.WOp.TheVariants.{Add};

use c_printer::print_c;
use loop_ir::counts::{loops, nest, stmts, vars};
use loop_ir::{Prog, Stmt, Stmts, T, W, WOp};
use std::alloc::Global;
use strm_num::{List, NoMemory};

const COUNTS_TO_TWO: &[u8] = b"#include \"pipeline.h\"
int pipeline(void) {
  uint64_t v0 = 0ULL;
  uint64_t v1 = 0ULL;
  v0 = 0ULL;
  while (1) {
    if (v0 < 2ULL) { } else { break; }
    EMIT(v0);
    ENDROW();
    v0 = (v0 + 1ULL);
  }
  return 0;
}
";

/// A turn that writes variable 0 as a row and adds one to it.
fn counting_turn(alloc: Global) -> Result<Stmts, NoMemory>
    ensures { IfOk result (λ turn. block_of turn ≡ plain.Cons (plain.Emit (plain.Var 0))
        (plain.Cons plain.EndRow (plain.Cons
        (plain.Set 0 (plain.Bin Add (plain.Var 0) (plain.Const 1))) plain.Nil))) }
{
    let mut turn = List::new(alloc);
    turn.push(Stmt::Emit(W::Var(0)))?;
    turn.push(Stmt::EndRow)?;
    let old = Box::new(alloc, W::Var(0))?;
    let one = Box::new(alloc, W::Const(1))?;
    turn.push(Stmt::Set(0, W::Bin(WOp::Add, old, one)))?;
    Ok(turn)
}

/// A program that writes 0 and 1, a row each.
fn counts_to_two(alloc: Global) -> Result<Box<Prog>, NoMemory> {
    let turn = counting_turn(alloc)?;
    let mut body = List::new(alloc);
    body.push(Stmt::Set(0, W::Const(0)))?;
    body.push(Stmt::Loop(T::Less(W::Var(0), W::Const(2)), turn))?;
    let params = List::new(alloc);
    let program = Box::new(
        alloc,
        Prog {
            params,
            vars: 2,
            body,
        },
    )?;
    Ok(program)
}

/// A turn of a choice, with a loop inside one arm, and a step after it.
fn choosing_turn(alloc: Global) -> Result<Stmts, NoMemory>
    ensures { IfOk result (λ turn. block_of turn ≡ plain.Cons
        (plain.If (plain.Same (plain.Var 0) (plain.Const 1))
        (plain.Cons (plain.Loop (plain.Less (plain.Var 0) (plain.Const 1))
        (plain.Cons plain.EndRow plain.Nil)) plain.Nil) plain.Nil)
        (plain.Cons (plain.Set 0 (plain.Const 2)) plain.Nil)) }
{
    let mut inner = List::new(alloc);
    inner.push(Stmt::EndRow)?;
    let mut arm = List::new(alloc);
    arm.push(Stmt::Loop(T::Less(W::Var(0), W::Const(1)), inner))?;
    let mut turn = List::new(alloc);
    turn.push(Stmt::If(T::Same(W::Var(0), W::Const(1)), arm, List::new(alloc)))?;
    turn.push(Stmt::Set(0, W::Const(2)))?;
    Ok(turn)
}

/// A program of two loops, one with another inside.
fn nested(alloc: Global) -> Result<Box<Prog>, NoMemory> {
    let turn = choosing_turn(alloc)?;
    let mut body = List::new(alloc);
    body.push(Stmt::Loop(T::Less(W::Var(0), W::Const(2)), turn))?;
    body.push(Stmt::Loop(T::Less(W::Var(0), W::Const(3)), List::new(alloc)))?;
    let params = List::new(alloc);
    let program = Box::new(
        alloc,
        Prog {
            params,
            vars: 1,
            body,
        },
    )?;
    Ok(program)
}

fn counts_of(program: &Prog) -> [u64; 4] {
    [vars(program), loops(program), nest(program), stmts(program)]
}

#[test]
fn prints_each_line(rt: HostRuntime) {
    let program = counts_to_two(rt.alloc()).expect(&rt, "memory");
    let text = print_c(rt.alloc(), &program).expect(&rt, "memory");
    assert!(rt; text.as_slice() == COUNTS_TO_TWO);
    assert!(rt; counts_of(&program) == [2, 1, 1, 5]);
}

#[test]
fn counts_inner_statements(rt: HostRuntime) {
    let program = nested(rt.alloc()).expect(&rt, "memory");
    assert!(rt; counts_of(&program) == [1, 3, 2, 6]);
}
