//! The forms of sources, stages and terminals, each named by its keyword.

ghost use Rattle.std.specs.Prelude.{◌≡◌, ◌<◌};
ghost use Rattle.pipe_limits.specs.declared.TheConstants.{MOST_NESTING};
ghost use Rattle.pipe_reader.specs.Nesting.{source_depth, stage_depth};

/// The forms of a source.
#[derive(Clone, Copy, PartialEq, Eq)]
pub enum SourceForm {
    Array,
    Range,
    Unfold,
    Zip,
}

impl SourceForm {
    /// How deep streams are nested at least where a source of this form stands in so many streams.
    pub fn nesting(self, around: u32) -> u32
        requires { around < MOST_NESTING }
        ensures { result ≡ source_depth self around }
    {
        match self {
            SourceForm::Zip => around + 2,
            SourceForm::Array | SourceForm::Range | SourceForm::Unfold => around + 1,
        }
    }
}

/// The forms of a stage.
#[derive(Clone, Copy, PartialEq, Eq)]
pub enum StageForm {
    Map,
    Filter,
    TakeWhile,
    Take,
    Drop,
    Scan,
    FlatMap,
}

impl StageForm {
    /// How deep streams are nested at least where a stage of this form stands in so many streams.
    pub fn nesting(self, around: u32) -> u32
        requires { around < MOST_NESTING }
        ensures { result ≡ stage_depth self around }
    {
        match self {
            StageForm::FlatMap => around + 2,
            StageForm::Map
            | StageForm::Filter
            | StageForm::TakeWhile
            | StageForm::Take
            | StageForm::Drop
            | StageForm::Scan => around + 1,
        }
    }
}

/// The forms of the terminal.
#[derive(Clone, Copy, PartialEq, Eq)]
pub enum TerminalForm {
    Fold,
    Print,
}
