ghost use Rattle.std.specs.Prelude.{◌≡◌, drop};
ghost use Rattle.std.specs.Str.{bytes_eq};
ghost use Rattle.line_words.specs.LineWords.{texts, word};

/// The word at a place, and an empty one where there is none.
pub fn text_at(words: &[String], at: usize) -> &str
    ensures { result.now ≡ word (texts words.now) at }
{
    words.get(at).map_or("", |word| word.as_str())
}

/// The words after the first n.
pub fn after(words: &[String], n: usize) -> &[String]
    ensures { texts result.now ≡ drop n (texts words.now) }
{
    words.get(n..).unwrap_or_default()
}

/// Whether a word is the named one.
pub fn is(text: &str, name: &str) -> bool
    ensures { result ≡ bytes_eq text.now name.now }
{
    text == name
}
