// What a word of a command line or of a line of text says: a whole number, a decimal number, a character.
#![tactic(auto)]

ghost use Rattle.std.specs.Prelude.{◌≡◌, is_some};
ghost use Rattle.std.specs.Float.Parse.{is_float_text};
ghost use Rattle.words.specs.Words.{whole_of, character_of, Parsed, Decimal};

// Stays: `whole`, `character` and `decimal` are one line each and differ in the type that is read. A function over the type would be that line again, with each type's meaning as a ghost member of a trait, and is no plainer.

/// The whole number that a word writes in decimal digits, where 64 bits hold it. A plus may stand first.
#[tactic(auto, using(crate::proofs::Reading::whole_read))]
pub fn whole(word: &str) -> Option<u64>
    ensures { result ≡ whole_of word.now }
{
    word.parse::<u64>().ok()
}

/// The same number, as the arcs, sides and vertices of a map are counted.
pub fn number(word: &str) -> Option<usize>
    ensures { result ≡ whole_of word.now }
{
    whole(word).map(|n| n as usize)
}

/// The only character of a word.
#[tactic(auto, using(crate::proofs::Reading::character_read))]
pub fn character(word: &str) -> Option<char>
    ensures { result ≡ character_of word.now }
{
    word.parse::<char>().ok()
}

/// The double that a word writes: what Rust's `parse` reads. A number is rounded once, so a plain decimal number gives the nearest double; `inf` and `nan` give what they name.
#[tactic(auto, using(crate::proofs::Reading::decimal_said))]
pub fn decimal(word: &str) -> Option<f64>
    ensures said { Decimal word.now result }
    ensures reads { is_some result ≡ is_float_text word.now }
{
    word.parse::<f64>().ok()
}
