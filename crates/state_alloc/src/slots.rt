ghost use Rattle.std.specs.Prelude.{◌≡◌, ℕ, ◌+◌, ◌-◌, ◌<◌, ◌≤◌, ◌^◌, [], ◌∷◌, ◌++◌};
ghost use Rattle.std.specs.Prelude.{length, take, slice_get, OnOk, OnErr, IfOk, Some};
ghost use Rattle.std.specs.List.{range_with_len};
ghost use Rattle.state_alloc.specs.Layouts.{IsLaidOut, IsWordVariable, IsFresh};

use loop_ir::Words;
use std::alloc::Global;
use strm_num::NoMemory;

/// The variable of each bound word of a scope, and which variables are temporaries.
///
/// It keeps, in `laid_out`, that the temporaries are below `next`, and that the variable of each
/// bound word is below `next` and is no temporary.
#[derive(Drop)]
pub struct Slots {
    /// Item `k` is the variable of word `k`, which fits 32 bits.
    pub rows: Words,
    /// The first temporary.
    pub first_temp: u32,
    /// The number of temporaries, which are `first_temp`, `first_temp + 1`, and so on.
    pub temps: u32,
    /// The first variable that was never given out. It only grows.
    pub next: u32,
    pub ghost laid_out: { IsLaidOut rows first_temp temps next },
}

impl Slots {
    ghost use Rattle.state_alloc.specs.Frames.{Becomes, Takes};

    /// A scope without words, whose temporaries are the first `temps` variables. It takes no
    /// memory.
    pub fn new(alloc: Global, temps: u32) -> Slots
        ensures rows { result.rows ≡ [] }
        ensures first_temp { result.first_temp ≡ 0 }
        ensures temps { result.temps ≡ temps }
        ensures next { result.next ≡ temps }
    {
        Slots {
            rows: Words::new(alloc),
            first_temp: 0,
            temps,
            next: temps,
        }
    }

    /// A scope without words, behind all variables that were given out, with the same temporaries.
    /// It takes no memory.
    pub fn empty_scope(&self, alloc: Global) -> Slots
        ensures { Becomes self.now [] self.now.next result }
    {
        Slots {
            rows: Words::new(alloc),
            first_temp: self.first_temp,
            temps: self.temps,
            next: self.next,
        }
    }

    /// Gives out `count` variables in which no word of the scope stands, as for the index of a
    /// loop, and gives the first of these, which is the old `next`. All words bound before and all
    /// temporaries stand in variables below it. It takes no memory.
    pub fn reserve_variables(&mut self, count: u32) -> u32
        requires { self.old.next + count < 2 ^ 32 }
        ensures first { result ≡ self.old.next }
        ensures fresh { IsFresh self.old.rows self.old.first_temp self.old.temps result }
        ensures takes { Takes self.old self.new (self.old.next + count) }
    {
        let first = self.next;
        self.next = first + count;
        first
    }

    /// Binds `width` more words to the variables from `next` on, and gives the first of these,
    /// which is the old `next`. All words bound before and all temporaries stand in variables below
    /// it. A refused bind changes nothing.
    pub fn bind(&mut self, width: u32) -> Result<u32, NoMemory>
        requires { self.old.next + width < 2 ^ 32 }
        ensures first { IfOk result (λ first. first ≡ self.old.next) }
        ensures fresh { IfOk result (IsFresh self.old.rows self.old.first_temp self.old.temps) }
        ensures becomes { OnOk result (Becomes self.old
            (self.old.rows ++ range_with_len self.old.next width) (self.old.next + width) self.new) }
        ensures refused { OnErr result (self.new ≡ self.old) }
    {
        let first = self.next;
        push_variables(&mut self.rows, first, width)?;
        self.next = first + width;
        Ok(first)
    }

    /// Binds one more word to a variable that a bound word has already. A refused alias changes
    /// nothing.
    pub fn alias(&mut self, var: u32) -> Result<(), NoMemory>
        requires { (k : ℕ) × (slice_get self.old.rows k ≡ Some var) }
        ensures becomes { OnOk result
            (Becomes self.old (self.old.rows ++ var ∷ []) self.old.next self.new) }
        ensures refused { OnErr result (self.new ≡ self.old) }
    {
        self.rows.push(u64::from(var))
    }

    /// Gives up the last `width` words. Their variables are never given again, since `next` stays.
    /// It takes no memory.
    pub fn unbind(&mut self, width: u32)
        requires { width ≤ length self.old.rows }
        ensures { Becomes self.old
            (take (length self.old.rows - width) self.old.rows) self.old.next self.new }
    {
        drop_last(&mut self.rows, width);
    }

    /// The variable of word `k`, counted from 0, which is no temporary. It takes no memory.
    pub fn var_of(&self, k: u32) -> u32
        requires { k < length self.now.rows }
        ensures row { slice_get self.now.rows k ≡ Some result }
        ensures apart { IsWordVariable self.now.first_temp self.now.temps self.now.next result }
    {
        *self.rows.get(u64::from(k)) as u32
    }
}

// Adds `width` variables from `first` on at the end. A refused call changes nothing.
fn push_variables(rows: &mut Words, first: u32, width: u32) -> Result<(), NoMemory>
    requires { first + width < 2 ^ 32 }
    ensures ok { OnOk result (rows.new ≡ rows.old ++ range_with_len first width) }
    ensures err { OnErr result (rows.new ≡ rows.old) }
{
    for i in 0..width {
        if let Err(refused) = rows.push(u64::from(first + i)) {
            drop_last(rows, i);
            return Err(refused);
        }
    }
    Ok(())
}

// Takes the last `width` items off.
fn drop_last(rows: &mut Words, width: u32)
    requires { width ≤ length rows.old }
    ensures { rows.new ≡ take (length rows.old - width) rows.old }
{
    for _i in 0..width {
        let _gone = rows.pop();
    }
}
