ghost use Rattle.std.specs.Prelude.{◌≡◌, true, IfOk, Some, string_bytes};
ghost use Rattle.words.specs.Words.{Decimal};
ghost use Rattle.answer_lines.specs.AnswerTexts.{VertexText};

use super::fault::TextFault;
use std::alloc::Global;
use std::num::f64_to_bits_with_nan;
use topology::vertex::Vertex;
use words::decimal;

// Whether two doubles are the same, zeros of two signs apart.
#[tactic(auto, using(crate::proofs::Doubles::same_bits))]
fn same(x: f64, y: f64) -> bool
    ensures { result ≡ true → x ≡ y }
{
    f64_to_bits_with_nan(x) == f64_to_bits_with_nan(y)
}

// A decimal number that is read as this double.
fn decimal_text(heap: Global, x: f64) -> Result<String, TextFault>
    ensures { IfOk result (λ s. Decimal (string_bytes s) (Some x)) }
{
    let text = format!(in heap; "{x}")?;
    if decimal(text.as_str()).is_some_and(|y| same(y, x)) {
        Ok(text)
    } else {
        Err(TextFault::ReadsOtherwise)
    }
}

// The coordinates of a vertex.
pub(crate) fn vertex_text(heap: Global, v: Vertex) -> Result<String, TextFault>
    ensures { IfOk result (λ s. VertexText v (string_bytes s)) }
{
    let x = decimal_text(heap, v.x)?;
    let y = decimal_text(heap, v.y)?;
    Ok(format!(in heap; "{x} {y}\n")?)
}
