// Plain decimal numbers in text, as the doubles that are nearest to them.
#![tactic(auto)]

ghost use Rattle.std.specs.Prelude.{◌≡◌, ◌^◌, ◌<◌, is_some, IfSome};
ghost use Rattle.std.specs.Float.Parse.{without_sign};
ghost use Rattle.decimals.specs.Plain.{before_point, after_point, digits_after, is_short, plain, plain_of};

// Doubles hold every whole number up to this one.
const LIMIT: u64 = 0x20_0000_0000_0000;

// The number that digits write after those of n, where it stays below the limit.
// Stays: `parse` takes a plus before the digits and refuses a text of no digits, and of a part it tells the number alone, which a power of ten would have to add to n. With a test for each of these it is no plainer.
fn digits_after(n: u64, digits: &str) -> Option<u64>
    requires { n < 2 ^ 53 }
    ensures value { result ≡ digits_after n digits.now }
    ensures below { IfSome result (λ m. m < 2 ^ 53) }
{
    let mut m = n;
    for c in digits.as_bytes() {
        if !c.is_ascii_digit() {
            return None;
        }
        m = m * 10 + u64::from(*c - b'0');
        if m >= LIMIT {
            return None;
        }
    }
    Some(m)
}

// The text after a sign.
fn unsigned(text: &str) -> &str
    ensures { result.now ≡ without_sign text.now }
{
    text.strip_prefix(['+', '-']).unwrap_or(text)
}

// The text before the first point, and the text after it.
fn parts(text: &str) -> (&str, &str)
    ensures before { result.0.now ≡ before_point text.now }
    ensures after { result.1.now ≡ after_point text.now }
{
    text.split_once('.').unwrap_or((text, ""))
}

// Whether there are some digits, and not too many after the point.
fn is_short(whole: usize, places: usize) -> bool
    ensures { result ≡ is_short whole places }
{
    (whole > 0 || places > 0) && places <= 15
}

// Whether a text is one digit or more with at most one point, not too many of them after it, and without it a number below the limit.
fn is_plain(text: &str) -> bool
    ensures { result ≡ is_some (plain text.now) }
{
    let (whole, fraction) = parts(text);
    is_short(whole.len(), fraction.len())
        && digits_after(0, whole)
            .and_then(|n| digits_after(n, fraction))
            .is_some()
}

/// The double nearest to the number that a plain text writes: a sign or none, digits with at most one point, at most 15 of them after it,
/// and without the point a number below 2 ^ 53. Of any other text, none.
#[tactic(auto, using(crate::proofs::FloatTexts::plain_read))]
pub fn plain_decimal(text: &str) -> Option<f64>
    ensures { result ≡ plain_of text.now }
{
    if is_plain(unsigned(text)) {
        text.parse().ok()
    } else {
        None
    }
}
