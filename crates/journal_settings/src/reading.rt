ghost use Rattle.std.specs.Prelude.{◌≡◌};
ghost use Rattle.line_words.specs.LineWords.{texts};
ghost use Rattle.journal_settings.specs.Settings.{hand_of, once, option, options, nothing, settings};

use super::fault::Fault;
use super::settings::{Given, Settings};
use line_words::texts::text_at;
use topology::hand::Hand;
use words::number;

// The hand that a word names.
// Stays: `FromStr` or `TryFrom` for `Hand` would have to stand in `topology`, beside the type, where no word is read; a type of our own around it, for one call, is no plainer.
fn hand(word: &str) -> Option<Hand>
    ensures { result ≡ hand_of word.now }
{
    match word {
        "right" => Some(Hand::Right),
        "left" => Some(Hand::Left),
        _ => None,
    }
}

// An option's value, where it was not given before.
fn once<A: Copy>(wrong: Fault, before: Option<A>, value: Option<A>) -> Result<A, Fault>
    ensures { result ≡ once wrong before value }
{
    if before.is_some() {
        return Err(Fault::Usage);
    }
    value.ok_or(wrong)
}

// One option with its value.
fn option(given: Given, name: &str, value: &str) -> Result<Given, Fault>
    ensures { result ≡ option given name.now value.now }
{
    Ok(match name {
        "--hand" => Given {
            hand: Some(once(Fault::WrongHand, given.hand, hand(value))?),
            ..given
        },
        "--sides" => Given {
            sides: Some(once(Fault::WrongSides, given.sides, number(value))?),
            ..given
        },
        "--vertices" => Given {
            vertices: Some(once(Fault::WrongVertices, given.vertices, number(value))?),
            ..given
        },
        _ => return Err(Fault::Usage),
    })
}

// The options in their order, each with the word after it.
fn options(words: &[String]) -> Result<Given, Fault>
    ensures { result ≡ options nothing (texts words.now) }
{
    let mut given = Given::default();
    for pair in words.chunks(2) {
        given = option(given, text_at(pair, 0), text_at(pair, 1))?;
    }
    Ok(given)
}

/// The blank map that words ask for: options in any order, each at most once and with its value after it. Without them: hand right, 32,768 sides, 1,048,576 vertices.
pub fn read_settings(words: &[String]) -> Result<Settings, Fault>
    ensures { result ≡ settings (texts words.now) }
{
    let given = options(words)?;
    Ok(Settings {
        hand: given.hand.unwrap_or(Hand::Right),
        sides: given.sides.unwrap_or(32768),
        vertices: given.vertices.unwrap_or(1048576),
    })
}
