// Circles of a function on numbers: the theory behind rings, turns and edits, and the step from a side to its opposite.
#![tactic(auto)]

ghost use Rattle.std.specs.Prelude.{◌≡◌};
ghost use Rattle.rings.specs.Law.{opp};

/// The other side of the arc of a side: arithmetic on its number, with no test.
pub fn opposite(side: u32) -> u32
    ensures value { result ≡ opp side }
    ensures back { opp result ≡ side }
{
    side ^ 1
}
