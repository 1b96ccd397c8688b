/// The side of an arc where an unturned side's polygon lies.
#[derive(Clone, Copy, PartialEq, Eq, Debug)]
pub enum Hand {
    Right,
    Left,
}
