ghost use Rattle.std.specs.Prelude.{◌≡◌, ◌≤◌, true, length, drop};
ghost use Rattle.records.specs.Zeros.{all_zero};

/// The value of a live cell: 0 to 23 bytes. The bytes behind the value are 0, so equal values are equal structs.
// An array and a length: a record needs no memory, so a `Vec` would let calls fail that cannot fail.
#[derive(Clone, Copy, Eq, PartialOrd, Ord)]
pub struct Value {
    pub(crate) bytes: [u8; 23],
    pub(crate) len: u8,
    ghost short: { len ≤ 23 },
    ghost whole: { length bytes ≡ 23 },
    ghost padded: { all_zero (drop len bytes) ≡ true },
}

// By hand, since a derived one says only what it computes: whoever compares values is told here whether they are one.
impl PartialEq for Value {
    ghost use Rattle.std.specs.Prelude.{◌≡◌, Decides};
    ghost use Rattle.std.specs.Cmp.Rules.{comparing};
    ghost use Rattle.std.proofs.Common.{rules};
    ghost use Rattle.records.specs.Values.{value_eq};

    ghost eq = { value_eq };

    ghost laws = { Prim.search (comparing, rules) };

    /// Whether two values are one.
    #[tactic(auto, using(crate::proofs::Ext::value_told))]
    fn eq(&self, other: &Value) -> bool
        ensures same { Decides result (self.now ≡ other.now) }
        ensures computed { result ≡ value_eq self.now other.now }
    {
        self.len == other.len && self.bytes == other.bytes
    }
}
