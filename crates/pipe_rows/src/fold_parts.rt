//! What a fold and a scan have in common.

ghost use Rattle.pipe_rows.specs.Foldings.{a_folding, folding_of};
ghost use Rattle.pipe_rows.specs.ReaderState.{ReadsFrom, GoesOn, result_copy, end_of, left_of};
ghost use Rattle.pipe_rows.specs.FormReading.{Reads};

use crate::after::{pattern_after, row_after};
use crate::patterns::pattern;
use crate::reader::Reader;
use crate::rows::row;
use pipe_reader::Separator;
use pipe_tree::{ParseFault, TPat, TRow};

/// What follows the keyword of a fold or of a scan.
#[derive(Drop)]
pub struct FoldParts {
    pub seed: TRow,
    pub state: TPat,
    pub pat: TPat,
    pub next: TRow,
}

/// `row "with" pat pat "->" row`: reads what follows the keyword of a fold or of a scan.
pub fn folding(reader: &mut Reader) -> Result<FoldParts, ParseFault>
    ensures reads { ReadsFrom a_folding reader.old folding_of result reader.new }
    ensures on { GoesOn reader.old reader.new }
{
    let seed = row(reader)?;
    let state = pattern_after(reader, Separator::With)?;
    let pat = pattern(reader)?;
    let next = row_after(reader, Separator::Arrow)?;
    Ok(FoldParts {
        seed,
        state,
        pat,
        next,
    })
}
