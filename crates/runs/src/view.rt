//! A record of a run, where it lies.

ghost use Rattle.std.specs.Prelude.{◌≡◌, None};
ghost use Rattle.records.specs.Meaning.{says};
ghost use Rattle.layout.specs.Layout.{row_at, mutation_in, fault_of};

use layout::decode_lawful;
use records::Record;

/// A record of a run: the part of the run that is its 48 bytes, and its index.
#[derive(Clone, Copy)]
pub struct RecordView<'a> {
    pub(crate) bytes: &'a [u8],
    pub(crate) index: usize,
    pub ghost lawful: { fault_of bytes.now ≡ None },
}

impl<'a> RecordView<'a> {
    /// Its index in the run.
    pub fn index(&self) -> usize
        ensures { result ≡ self.now.index }
    {
        self.index
    }

    /// Its 48 bytes, in the run.
    pub fn bytes(&self) -> &'a [u8]
        ensures { result ≡ self.now.bytes }
    {
        self.bytes
    }

    /// The record itself.
    pub fn record(&self) -> Record
        ensures { says result ≡ mutation_in (row_at self.now.bytes.now) }
    {
        decode_lawful(self.bytes)
    }
}
