ghost use Rattle.std.specs.Prelude.{◌≡◌, ok_or, slice_index, Some};
ghost use Rattle.refusal.specs.declared.Refusal.TheVariants.{OtherKind};
ghost use Rattle.kinds.specs.Letters.{kind_of, kind_by_letter, kind_text};

use super::kind::Kind;
use refusal::Refusal;
use std::fmt;

/// The kind that three letters of a header name. 4 when they name none.
impl TryFrom<[u8; 3]> for Kind {
    type Error = Refusal;

    ghost try_from_gives = { λ letters r. r ≡ ok_or (kind_of (slice_index letters 0) (slice_index letters 1) (slice_index letters 2)) OtherKind };

    fn try_from(letters: [u8; 3]) -> Result<Kind, Refusal> {
        match &letters {
            b"PNT" => Ok(Kind::Points),
            b"ARC" => Ok(Kind::Arcs),
            b"NOD" => Ok(Kind::Nodes),
            b"POL" => Ok(Kind::Polygons),
            _ => Err(Refusal::OtherKind),
        }
    }
}

/// The kind that a view is asked for by one letter. 4 when there is none of that letter.
impl TryFrom<char> for Kind {
    type Error = Refusal;

    ghost try_from_gives = { λ letter r. r ≡ ok_or (kind_by_letter letter) OtherKind };

    fn try_from(letter: char) -> Result<Kind, Refusal> {
        match letter {
            'T' => Ok(Kind::Points),
            'A' => Ok(Kind::Arcs),
            'N' => Ok(Kind::Nodes),
            'P' => Ok(Kind::Polygons),
            _ => Err(Refusal::OtherKind),
        }
    }
}

impl Kind {
    /// The three letters of a kind.
    pub fn name(self) -> &'static str
        ensures { result.now ≡ kind_text self }
    {
        match self {
            Kind::Points => "PNT",
            Kind::Arcs => "ARC",
            Kind::Nodes => "NOD",
            Kind::Polygons => "POL",
        }
    }
}

/// A kind by its name.
impl fmt::Display for Kind {
    ghost output = { λ kind. Some (kind_text kind) };

    fn fmt<W: fmt::Write>(&self, f: &mut fmt::Formatter<W>) -> fmt::Result {
        f.write_str(self.name())
    }
}
