// The closed list of refusals. Each is named by what is wrong, and carries its number.
#![tactic(auto)]

ghost use Rattle.std.specs.Prelude.{◌≡◌, Some};
ghost use Rattle.refusal.specs.Numbers.{number, refusal_text};

use std::error::Error;
use std::fmt;

/// Why a call was refused.
#[derive(Clone, Copy, PartialEq, Eq, Debug)]
pub enum Refusal {
    /// A run of bytes passes the end of a file or medium.
    PastEnd = 1,
    /// A page number is above 127.
    NoSuchPage = 2,
    /// A page stands twice in a page list.
    PageTwice = 3,
    /// A file is of another kind than the one asked for.
    OtherKind = 4,
    /// A version is neither 1.1 nor 2.0, or another than the set's.
    OtherVersion = 5,
    /// A flag says that the file is three-dimensional, explicit, unverified or unfinished.
    UnsupportedFlags = 6,
    /// An element count is beyond what the sheet or the room allows.
    CountOutOfRange = 7,
    /// An arc has fewer than two vertices, or more than are free.
    VertexCountOutOfRange = 8,
    /// A coordinate or a bound is not finite.
    NotFinite = 9,
    /// A box is not finite and in order, or leaves out a vertex.
    UnfitBox = 10,
    /// An arc names a node that there is not.
    NoSuchNode = 11,
    /// Two arc ends at one node lie at different places.
    EndsApart = 12,
    /// A node's list is not the arcs that end there, once each.
    NodeListDiffers = 13,
    /// A side names a polygon that there is not.
    NoSuchPolygon = 14,
    /// An entry names no arc, a side listed before, or another polygon's side.
    UnfitEntry = 15,
    /// The neighbours in a ring do not meet, or a ring does not end.
    RingNotClosed = 16,
    /// A polygon other than 0 has no entry.
    PolygonWithoutRing = 17,
    /// A side stands in no ring.
    SideInNoRing = 18,
    /// A node's ends need two turns.
    NodeNeedsTwoTurns = 19,
    /// There is no such record, arc, node, side, polygon, ring or vertex.
    NoSuchElement = 20,
    /// A run has too few vertices, ends apart, or a coordinate that is not finite.
    UnfitRun = 21,
    /// There is no room for the arc or for the vertices.
    NoRoom = 22,
    /// The arc is not closed at a node of its own.
    ArcNotClosedAlone = 23,
    /// A polygon other than 0 would be left with no ring.
    PolygonLosesLastRing = 24,
    /// The vertex is not inside the arc.
    NotInsideArc = 25,
    /// The node is not where just two ends, of two arcs, lie.
    NotTwoEndsOfTwoArcs = 26,
    /// The two sides stand in two rings.
    SidesInTwoRings = 27,
    /// The run ends elsewhere than the sides begin.
    RunEndsElsewhere = 28,
    /// Both sides of the arc stand in one ring.
    SidesShareRing = 29,
    /// Each side of the arc is a ring alone.
    RingsAlone = 30,
    /// What is to be written is larger than the place for it.
    DoesNotFit = 31,
}

impl Refusal {
    /// The refusal's number, 1 to 31, which programs print.
    pub fn number(self) -> u8
        ensures { result ≡ number self }
    {
        self as u8
    }
}

// Stays: what is printed is promised, by `output`. The derive of `thiserror` writes a `Display` that says nothing; with a function beside it that promises the text it is no plainer.
impl fmt::Display for Refusal {
    ghost output = { λ e. Some (refusal_text e) };

    fn fmt<W: fmt::Write>(&self, f: &mut fmt::Formatter<W>) -> fmt::Result {
        let number = self.number();
        write!(f, "refused {number}")
    }
}

impl Error for Refusal {}
