ghost use Rattle.std.specs.Prelude.{◌≡◌};
ghost use Rattle.command_words.specs.Bindings.{is_binding, name_in, value_in};

/// Whether a word binds a name: a name of one byte or more stands before its first `=`.
pub fn is_binding(word: &str) -> bool
    ensures { result ≡ is_binding word.now }
{
    match word.split_once('=') {
        Some((name, _)) => !name.is_empty(),
        None => false,
    }
}

/// The name that a word binds: what stands before its first `=`, or all of it where it has none.
pub fn name_in(word: &str) -> &str
    ensures { result.now ≡ name_in word.now }
{
    match word.split_once('=') {
        Some((name, _)) => name,
        None => word,
    }
}

/// The value that a word gives: what stands behind its first `=`, and nothing where it has none.
pub fn value_in(word: &str) -> &str
    ensures { result.now ≡ value_in word.now }
{
    match word.split_once('=') {
        Some((_, value)) => value,
        None => "",
    }
}
