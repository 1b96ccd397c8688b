ghost use Rattle.std.specs.Prelude.{◌≡◌, IfOk};
ghost use Rattle.line_words.specs.LineWords.{texts, words_of};

use std::alloc::{AllocError, Global};

/// The words of a line: what stands between spaces.
pub fn split_words(heap: Global, line: &str) -> Result<Vec<String>, AllocError>
    ensures { IfOk result (λ ws. texts ws.items ≡ words_of line.now) }
{
    let mut words = Vec::new(heap);
    for piece in line.split(' ') {
        if !piece.is_empty() {
            words.push(String::from_str(heap, piece)?)?;
        }
    }
    Ok(words)
}
