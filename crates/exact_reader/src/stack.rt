ghost use Rattle.std.specs.Prelude.{◌≡◌, List, [], ◌∷◌, length, OnOk, MatchOption};

use std::alloc::Global;
use std::marker::Model;
use strm_num::NoMemory;

/// A stack, which contracts see as the list of its items, the innermost first.
#[derive(Drop)]
pub struct Stack<T> {
    items: Vec<T>,
}

impl<T> Model for Stack<T> {
    ghost use Rattle.std.specs.Prelude.{List, reverse};
    ghost use Rattle.std.specs.Coded.{coded_list};

    ghost Value = { List T };

    ghost coded = { coded_list T.code };

    ghost view = { λ s. reverse s.items.items };
}

impl<T> Stack<T> {
    /// The stack without items, which takes no memory yet.
    pub fn new(alloc: Global) -> Self
        ensures { result ≡ [] }
    {
        Stack {
            items: Vec::new(alloc),
        }
    }

    /// The number of items.
    pub fn len(&self) -> u64
        ensures { result ≡ length self.now }
    {
        self.items.len() as u64
    }

    /// The innermost item; none exactly where there is none.
    pub fn innermost(&self) -> Option<&T>
        ensures { MatchOption result (self.now ≡ [])
            (λ item. (rest : List T) × (self.now ≡ item.now ∷ rest)) }
    {
        self.items.last()
    }

    /// Takes the innermost item off; none exactly where there is none.
    pub fn pop(&mut self) -> Option<T>
        ensures { MatchOption result ((self.old ≡ []) × (self.new ≡ []))
            (λ item. self.old ≡ item ∷ self.new) }
    {
        self.items.pop()
    }
}

impl<T: Drop> Stack<T> {
    /// Puts an item inside the others.
    pub fn push(&mut self, item: T) -> Result<(), NoMemory>
        ensures { OnOk result (self.new ≡ item ∷ self.old) }
    {
        self.items.push(item)?;
        Ok(())
    }
}
