use pipe_lexer::{BinOp, InputKind};
use strm_num::{List, Word};

/// The bytes of a name.
pub type Text = List<u8>;
/// The names of a pattern.
pub type Names = List<Name>;
/// The expressions of a row.
pub type TExprs = List<TExpr>;
/// The stages of a stream.
pub type TStages = List<TStage>;
/// The declarations of a text.
pub type Decls = List<Decl>;

/// A name and its offset. Each `at` here is the first byte of the part's first token, counted from 0.
#[derive(Drop)]
pub struct Name {
    pub at: u32,
    pub text: Text,
}

/// An expression and its offset.
#[cycle(exprs)]
#[derive(Drop)]
pub struct TExpr {
    pub at: u32,
    pub node: TNode,
}

/// What an expression is. The number in `Bin`, `And` and `Or` is the operator's offset.
#[cycle(exprs)]
#[derive(Drop)]
pub enum TNode {
    Num(Word),
    Truth(bool),
    Name(Text),
    Len(Name),
    Neg(Box<TExpr>),
    Not(Box<TExpr>),
    Paren(Box<TExpr>),
    Bin(BinOp, u32, Box<TExpr>, Box<TExpr>),
    And(u32, Box<TExpr>, Box<TExpr>),
    Or(u32, Box<TExpr>, Box<TExpr>),
    If(Box<TExpr>, Box<TExpr>, Box<TExpr>),
}

/// A row: one expression without braces, or one and more in braces.
#[derive(Drop)]
pub struct TRow {
    pub at: u32,
    pub braces: bool,
    pub parts: TExprs,
}

/// A pattern: one name without braces, or one and more in braces.
#[derive(Drop)]
pub struct TPat {
    pub at: u32,
    pub braces: bool,
    pub names: Names,
}

/// A source with the stages behind it.
#[cycle(streams)]
#[derive(Drop)]
pub struct TStream {
    pub at: u32,
    pub source: TSource,
    pub stages: TStages,
}

/// The source of a stream's rows.
#[cycle(streams)]
#[derive(Drop)]
pub enum TSource {
    Array(Name),
    Range(TExpr, TExpr),
    Unfold {
        seed: TRow,
        pat: TPat,
        guard: TExpr,
        item: TRow,
        next: TRow,
    },
    Zip(Box<TStream>, Box<TStream>),
}

/// A stage and the offset of its keyword.
#[cycle(streams)]
#[derive(Drop)]
pub struct TStage {
    pub at: u32,
    pub node: TStageNode,
}

/// What a stage is.
#[cycle(streams)]
#[derive(Drop)]
pub enum TStageNode {
    Map(TPat, TRow),
    Filter(TPat, TExpr),
    Take(TExpr),
    Drop(TExpr),
    TakeWhile(TPat, TExpr),
    Scan {
        seed: TRow,
        state: TPat,
        pat: TPat,
        next: TRow,
    },
    FlatMap(TPat, Box<TStream>),
}

/// What is done with the rows of the whole stream.
#[derive(Drop)]
pub enum TTerminal {
    Fold {
        seed: TRow,
        state: TPat,
        pat: TPat,
        next: TRow,
    },
    Print,
}

/// A declaration of an input.
#[derive(Drop)]
pub struct Decl {
    pub at: u32,
    pub name: Name,
    pub kind: InputKind,
}

/// The tree of a pipeline text, and the offset of its terminal's keyword.
#[derive(Drop)]
pub struct Tree {
    pub inputs: Decls,
    pub stream: TStream,
    pub terminal_at: u32,
    pub terminal: TTerminal,
}
