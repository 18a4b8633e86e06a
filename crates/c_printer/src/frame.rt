//! What stands round the statements: the function's line and its variables.

ghost use Rattle.std.specs.Prelude.{◌≡◌, ◌++◌, codes, OnOk, drop};
ghost use Rattle.loop_ir.specs.Layout.{declaration_text, declarations_text, head_text};
ghost use Rattle.loop_ir.specs.Layout.{more_params_text, param_text, params_text};

use list_denotation::{InputKind, InputKinds};
use strm_num::NoMemory;
use text_pieces::{put, put_numbered};

/// Puts array parameter `k` with its length beside it.
fn put_array_param(out: &mut Vec<u8>, k: u64) -> Result<(), NoMemory>
    ensures { OnOk result (out.new.items ≡ out.old.items ++ param_text k InputKind.Array) }
{
    put_numbered(out, b"const uint64_t *a", k)?;
    put_numbered(out, b", uint64_t n", k)
}

/// Puts parameter `k`.
fn put_param(out: &mut Vec<u8>, k: u64, kind: InputKind) -> Result<(), NoMemory>
    ensures { OnOk result (out.new.items ≡ out.old.items ++ param_text k kind) }
{
    match kind {
        InputKind::Array => put_array_param(out, k),
        InputKind::Int => put_numbered(out, b"uint64_t i", k),
    }
}

/// Puts parameter `k` after a comma.
fn put_other_param(out: &mut Vec<u8>, k: u64, kind: InputKind) -> Result<(), NoMemory>
    ensures { OnOk result (out.new.items ≡ out.old.items ++ (codes ", " ++ param_text k kind)) }
{
    put(out, b", ")?;
    put_param(out, k, kind)
}

/// Puts the parameters after the first one, each after a comma.
#[tactic(auto, using(crate::proofs::PrintedText::more_params_end))]
fn put_more_params(out: &mut Vec<u8>, params: &InputKinds) -> Result<(), NoMemory>
    ensures { OnOk result
        (out.new.items ≡ out.old.items ++ more_params_text 1 (drop 1 params.now)) }
{
    for k in 1..params.len() {
        put_other_param(out, k, *params.get(k))?;
    }
    Ok(())
}

fn put_params(out: &mut Vec<u8>, params: &InputKinds) -> Result<(), NoMemory>
    ensures { OnOk result (out.new.items ≡ out.old.items ++ params_text params.now) }
{
    if params.is_empty() {
        return put(out, b"void");
    }
    put_param(out, 0, *params.get(0))?;
    put_more_params(out, params)
}

/// Puts the two lines before the declarations.
pub fn put_head(out: &mut Vec<u8>, params: &InputKinds) -> Result<(), NoMemory>
    ensures { OnOk result (out.new.items ≡ out.old.items ++ head_text params.now) }
{
    put(out, b"#include \"pipeline.h\"\nint pipeline(")?;
    put_params(out, params)?;
    put(out, b") {\n")
}

fn put_declaration(out: &mut Vec<u8>, v: u32) -> Result<(), NoMemory>
    ensures { OnOk result (out.new.items ≡ out.old.items ++ declaration_text v) }
{
    put_numbered(out, b"  uint64_t v", u64::from(v))?;
    put(out, b" = 0ULL;\n")
}

/// Puts the declarations of so many variables.
#[tactic(auto, using(crate::proofs::PrintedText::declarations_end))]
pub fn put_declarations(out: &mut Vec<u8>, vars: u32) -> Result<(), NoMemory>
    ensures { OnOk result (out.new.items ≡ out.old.items ++ declarations_text 0 vars) }
{
    for v in 0..vars {
        put_declaration(out, v)?;
    }
    Ok(())
}
