ghost use Rattle.std.specs.Prelude.{◌≡◌};
ghost use Rattle.call_lines.specs.Spoken.{verb_of};

use std::fmt;

/// What a line that is no call has to be, by its first word.
#[derive(Clone, Copy, PartialEq, Eq, Debug)]
pub enum Expected {
    AnyCall,
    IslandCall,
    LiftCall,
    SplitCall,
    DivideCall,
    DissolveCall,
    JoinCall,
    ListCall,
    CountsCall,
    RingCall,
    SideCall,
    ArcCall,
    VertexCall,
}

/// The call that a line with this first word has to be.
impl From<&str> for Expected {
    ghost from_gives = { λ word expected. expected ≡ verb_of word.now };

    fn from(word: &str) -> Expected {
        match word {
            "island" => Expected::IslandCall,
            "lift" => Expected::LiftCall,
            "split" => Expected::SplitCall,
            "divide" => Expected::DivideCall,
            "dissolve" => Expected::DissolveCall,
            "join" => Expected::JoinCall,
            "list" => Expected::ListCall,
            "counts" => Expected::CountsCall,
            "ring" => Expected::RingCall,
            "side" => Expected::SideCall,
            "arc" => Expected::ArcCall,
            "vertex" => Expected::VertexCall,
            _ => Expected::AnyCall,
        }
    }
}

impl fmt::Display for Expected {
    fn fmt<W: fmt::Write>(&self, f: &mut fmt::Formatter<W>) -> fmt::Result {
        f.write_str(match self {
            Expected::AnyCall => {
                "island, lift, split, join, divide, dissolve, list, counts, ring, side, arc or vertex"
            }
            Expected::IslandCall => "island POLYGON X,Y X,Y ..",
            Expected::LiftCall => "lift ARC",
            Expected::SplitCall => "split ARC VERTEX",
            Expected::DivideCall => "divide SIDE SIDE +|- X,Y X,Y ..",
            Expected::DissolveCall => "dissolve ARC",
            Expected::JoinCall => "join NODE",
            Expected::ListCall => "list",
            Expected::CountsCall => "counts",
            Expected::RingCall => "ring RING",
            Expected::SideCall => "side SIDE",
            Expected::ArcCall => "arc ARC",
            Expected::VertexCall => "vertex ARC VERTEX",
        })
    }
}
