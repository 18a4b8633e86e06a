ghost use Rattle.std.specs.Prelude.{◌≤◌, length, IfSome, MatchOption};
ghost use Rattle.c_faults.specs.Answers.{HasNoHeader};
ghost use Rattle.c_grammar.specs.Reading.{HasHeader};

/// What stands behind the line of the header; none where the text doesn't begin with it.
pub fn behind_header(c: &[u8]) -> Option<&[u8]>
    ensures header { MatchOption result (HasNoHeader c.now) (λ text. HasHeader c.now text.now) }
    ensures shorter { IfSome result (λ text. length text.now ≤ length c.now) }
{
    if let Some(text) = c.strip_prefix(b"#include \"pipeline.h\"\n") {
        return Some(text);
    }
    c.strip_prefix(b"#include \"pipeline.h\"\r\n")
}
