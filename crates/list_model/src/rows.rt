ghost use Rattle.std.specs.Prelude.{◌≡◌, ◌++◌, [], ◌∷◌, IfOk};

use list_denotation::Words;
use std::alloc::Global;
use strm_num::{List, NoMemory, Word};

/// How a list of rows ends: all rows were given, the bound cut them off, or an expression trapped.
#[derive(Clone, Copy, PartialEq, Eq)]
pub enum Ending {
    End,
    Cut,
    Trap,
}

/// Rows, and how they end.
#[derive(Drop)]
pub struct ListedRows {
    pub rows: List<Words>,
    pub ending: Ending,
}

/// No rows, for an expression trapped before the first.
pub fn trapped(alloc: Global) -> ListedRows
    ensures rows { result.rows ≡ [] }
    ensures ending { result.ending ≡ Ending.Trap }
{
    ListedRows {
        rows: List::new(alloc),
        ending: Ending::Trap,
    }
}

/// The row of one word.
pub fn single(alloc: Global, x: Word) -> Result<Words, NoMemory>
    ensures { IfOk result (λ row. row ≡ x ∷ []) }
{
    let mut row = List::new(alloc);
    row.push(x)?;
    Ok(row)
}

/// The words of one row and then those of another.
pub fn joined(alloc: Global, first: &Words, second: &Words) -> Result<Words, NoMemory>
    ensures { IfOk result (λ row. row ≡ first.now ++ second.now) }
{
    let mut row = List::from_slice(alloc, first.as_slice())?;
    row.append(List::from_slice(alloc, second.as_slice())?)?;
    Ok(row)
}
