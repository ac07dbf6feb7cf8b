//! Sets of bytes.
//!
//! A set is 256 bits, so that one look shows whether it has a byte, and so that the index file can hold it as it
//! is.
ghost use Rattle.std.specs.Prelude.{◌≡◌};
ghost use Rattle.text_core.specs.Items.{set_has};

/// A set of bytes: byte `b` belongs to it if bit `b % 8` of `bits[b / 8]` is 1.
#[derive(Clone, Copy, PartialEq, Eq)]
pub struct ByteSet {
    /// The bits, those of the least bytes first.
    pub bits: [u8; 32],
}

impl ByteSet {
    /// Whether a byte belongs to the set.
    #[tactic(auto, using(std::proofs::lemmas::Nat::Bits::shr_and_one))]
    pub fn has(&self, byte: u8) -> bool
        ensures { result ≡ set_has self.now byte }
    {
        (self.bits[byte as usize / 8] >> (byte % 8)) & 1 == 1
    }
}
