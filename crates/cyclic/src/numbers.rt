//! Numbers of a bounded number of bits.
ghost use Rattle.std.specs.Prelude.{◌≡◌, ◌^◌, ◌<◌, ◌≤◌, MatchResult};
ghost use Rattle.service.specs.Refusals.{refusal_is, refused};

use service::Refusal;

/// A number of at most `N` bits.
#[derive(Clone, Copy, PartialEq, Eq, Debug)]
pub struct Bits<const N: u32> {
    /// The bits as a number.
    pub bits: u32,
    pub ghost within: { bits < 2 ^ N },
}

impl<const N: u32> Bits<N> {
    /// These bits, or refusal 17 if one above the lowest `N` is set.
    #[tactic(auto, using(crate::proofs::Shifts::fits, crate::proofs::Shifts::fits_not))]
    pub fn new(bits: u32) -> Result<Bits<N>, Refusal>
        ensures { MatchResult result (λ b. b.bits ≡ bits) (λ e. (refusal_is e ≡ refused 17) × (2 ^ N ≤ bits)) }
    {
        if bits.unbounded_shr(N) != 0 {
            return Err(Refusal::Codes);
        }
        Ok(Bits { bits })
    }

    /// The bits as a number.
    pub fn bits(self) -> u32
        ensures value { result ≡ self.entry.bits }
        ensures within { result < 2 ^ N }
    {
        self.bits
    }
}
