ghost use Rattle.std.specs.Prelude.{IfOk};
ghost use Rattle.answer_lines.specs.AnswerTexts.{AnswerText};

use super::coordinates::vertex_text;
use super::fault::TextFault;
use calls::answer::Answer;
use refusal::Refusal;
use std::alloc::Global;

/// The text of an answer: one line, or the listing at the front of what the call left.
pub fn answer_text(
    heap: Global,
    answer: Result<Answer, Refusal>,
    left: &[u8],
) -> Result<Vec<u8>, TextFault>
    ensures { IfOk result (λ bs. AnswerText answer left.now bs.items) }
{
    let text = match answer {
        Err(refusal) => format!(in heap; "{refusal}\n")?,
        Ok(Answer::Done) => String::from_str(heap, "ok\n")?,
        Ok(Answer::Listed(n)) => {
            return Ok(Vec::from_slice(heap, left.get(..n).unwrap_or(left))?);
        }
        Ok(
            Answer::Counts {
                arcs,
                nodes,
                polygons,
                rings,
            },
        ) => format!(in heap; "arcs {arcs} nodes {nodes} polygons {polygons} rings {rings}\n")?,
        Ok(Answer::Ring { polygon, side }) => format!(in heap; "polygon {polygon} side {side}\n")?,
        Ok(
            Answer::Side {
                polygon,
                next,
                node,
            },
        ) => format!(in heap; "polygon {polygon} next {next} node {node}\n")?,
        Ok(Answer::Arc { vertices }) => format!(in heap; "vertices {vertices}\n")?,
        Ok(Answer::Vertex(vertex)) => vertex_text(heap, vertex)?,
    };
    Ok(text.into_bytes())
}
