/// A value, which prints in words.
#[derive(Clone, Copy)]
pub(crate) struct Words<T>(pub(crate) T);
