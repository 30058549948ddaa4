/// A plot: its section, and its number there.
#[derive(Clone, Copy, PartialEq, Eq, PartialOrd, Ord, Debug)]
pub struct Plot {
    pub section: u16,
    pub number: u32,
}

/// A place, where a cell can stand: a field of a plot. Places go by section, plot and field.
#[derive(Clone, Copy, PartialEq, Eq, PartialOrd, Ord, Debug)]
pub struct Place {
    pub plot: Plot,
    pub field: u8,
}
