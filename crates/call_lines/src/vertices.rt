ghost use Rattle.std.specs.Prelude.{◌≡◌, true, false, IfOk, MatchOption};
ghost use Rattle.line_words.specs.LineWords.{texts};
ghost use Rattle.call_lines.specs.Spoken.{coordinates, is_vertex, Written, RunOf};

use std::alloc::{AllocError, Global};
use topology::vertex::Vertex;
use words::decimal;

// The vertex that a word writes: X,Y.
#[tactic(auto, using(crate::proofs::VertexWords::comma))]
fn vertex(word: &str) -> Option<Vertex>
    ensures { MatchOption result (is_vertex word.now ≡ false) (λ v. (is_vertex word.now ≡ true) × Written (coordinates word.now) v) }
{
    let (left, right) = word.split_once(',')?;
    Some(Vertex {
        x: decimal(left)?,
        y: decimal(right)?,
    })
}

// The vertices that words write.
pub(crate) fn read_run(heap: Global, words: &[String]) -> Result<Option<Vec<Vertex>>, AllocError>
    ensures { IfOk result (λ o. RunOf (texts words.now) o) }
{
    // Stays: tried, and the proof did not close: std tells nothing of what `collect` into an `Option` gives.
    let mut vertices = Vec::new(heap);
    for word in words {
        let Some(vertex) = vertex(word.as_str()) else {
            return Ok(None);
        };
        vertices.push(vertex)?;
    }
    Ok(Some(vertices))
}
