/// The rows of the layout's table, each numbered by its first byte.
#[derive(Clone, Copy, PartialEq, Eq, Debug)]
pub enum Part {
    Kind = 0,
    Field = 1,
    Section = 2,
    FirstPlot = 4,
    LastPlot = 8,
    Stamp = 12,
    Day = 20,
    ValueLength = 24,
    Value = 25,
}
