use c_faults::CFault;
use kind_rules::TypeFault;
use pipe_lexer::LexFault;
use pipe_tree::ParseFault;

/// Why a file is refused: what its reader found, with the offset in bytes from the start of the file.
/// The variants for want of memory are no reasons, and stand in no refusal.
#[derive(Clone, Copy)]
pub enum Refusal {
    /// The first fault of a pipeline text's tokens.
    Lex(LexFault),
    /// The first fault of its tree.
    Parse(ParseFault),
    /// The first fault of its kinds.
    Kinds(TypeFault),
    /// The first fault of a C text.
    C(CFault),
}
