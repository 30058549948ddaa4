/// How many plots are listed (they have a live cell), and how many of those are free (none of theirs is in field 1).
#[derive(Clone, Copy, PartialEq, Eq, Debug)]
pub struct PlotCount {
    pub listed: u32,
    pub free: u32,
}

/// A section and its plots.
#[derive(Clone, Copy, PartialEq, Eq, Debug)]
pub struct SectionCount {
    pub section: u16,
    pub plots: PlotCount,
}
