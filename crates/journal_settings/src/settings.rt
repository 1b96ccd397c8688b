use topology::hand::Hand;

/// A blank map: its hand, and how many rows its tables have.
#[derive(Clone, Copy)]
pub struct Settings {
    pub hand: Hand,
    pub sides: usize,
    pub vertices: usize,
}

// What the options give.
#[derive(Clone, Copy, Default)]
pub(crate) struct Given {
    pub hand: Option<Hand>,
    pub sides: Option<usize>,
    pub vertices: Option<usize>,
}
