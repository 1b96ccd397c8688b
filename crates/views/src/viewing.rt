ghost use Rattle.std.specs.Prelude.{◌≡◌, ℕ, ◌+◌, ◌*◌, ◌<◌, ◌≤◌, IfOk, MatchResult};
ghost use Rattle.refusal.specs.declared.Refusal.TheVariants.{PastEnd};
ghost use Rattle.views.specs.Shapes.{view_outcome, placed_by, records_end};
ghost use Rattle.views.specs.Viewed.{Viewed, Whole};

use super::view::View;
use headers::header::Header;
use kinds::kind::Kind;
use media::runs::end_of;
use records::records::Records;
use records::shape::Shape;
use refusal::Refusal;

// Where `count` things of a size end that begin at `first`. 1 when that is past `size`.
fn end_within(first: usize, count: u64, stride: usize, size: usize) -> Result<usize, Refusal>
    ensures { MatchResult result (λ e. (e ≡ first + count * stride) × (e ≤ size)) (λ e. (size < first + count * stride) × (e ≡ PastEnd)) }
{
    let long = (count as usize)
        .checked_mul(stride)
        .ok_or(Refusal::PastEnd)?;
    end_of(size, first, long)
}

// The kind of a file of so many bytes and where its records lie, by its header.
fn placed(header: Header, arcs: u64, size: usize) -> Result<(Kind, Shape), Refusal>
    ensures value { result ≡ placed_by header arcs size }
    ensures ends { IfOk result (λ p. records_end p.0 p.1 ≤ size) }
{
    let sizes = header.version.sizes();
    let sides = match header.kind {
        Kind::Polygons => arcs,
        _ => 0,
    };
    let first = end_within(sizes.header, sides, sizes.sides, size)?;
    end_within(first, header.count, sizes.record(header.kind), size)?;
    Ok((
        header.kind,
        Shape {
            version: header.version,
            first,
            count: header.count as usize,
        },
    ))
}

// The kind of a file that is asked for by letter, and where its records lie.
// Stays: letter, file and arcs go together here, in `View::new` and in the answer to a request. Both are public, and their parameters stay; a struct of the three, made in each for one call, is no plainer.
#[tactic(auto, using(refusal::proofs::Options::ok_of_ok_or, crate::proofs::WholeLaws::whole_from_end))]
fn located(letter: char, file: &[u8], arcs: u64) -> Result<(Kind, Shape), Refusal>
    ensures value { result ≡ view_outcome file.now letter arcs }
    ensures whole { IfOk result (λ p. Whole p.0 file.now p.1) }
{
    let header = Header::read(file, Kind::try_from(letter).ok())?;
    placed(header, arcs, file.len())
}

impl<'a> View<'a> {
    /// A view of a file, asked for by letter: T for PNT, A for ARC, N for NOD, P for POL. Of a POL it is told how many arcs its ARC has.
    /// 1 when the header passes the end, 4 for a kind or a letter that does not fit, 5 for the version, then 1 when the records pass the end.
    pub fn new(letter: char, file: &'a [u8], arcs: u64) -> Result<View<'a>, Refusal>
        ensures { Viewed file.now (view_outcome file.now letter arcs) result }
    {
        let (kind, shape) = located(letter, file, arcs)?;
        Ok(match kind {
            Kind::Points => View::OfPoints(Records::over(file, shape)),
            Kind::Arcs => View::OfArcs(Records::over(file, shape)),
            Kind::Nodes => View::OfNodes(Records::over(file, shape)),
            Kind::Polygons => View::OfPolygons(Records::over(file, shape)),
        })
    }
}
