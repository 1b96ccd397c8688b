/// One of the two sides of an arc: along its run, or against it.
#[derive(Clone, Copy, PartialEq, Eq, Debug)]
pub enum ArcSide {
    Unturned,
    Turned,
}
