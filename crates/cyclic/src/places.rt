//! The place of a single wrong bit.
ghost use Rattle.std.specs.Prelude.{◌≡◌, ℕ, ◌^◌, ◌<◌, MatchOption, ◌≢◌};
ghost use Rattle.cyclic.specs.Polynomials.{rem};
ghost use Rattle.cyclic.specs.Words.{Points};
ghost use Rattle.cyclic.specs.declared.places.TheConstants.{CODE_LENGTH};

use crate::polynomials::Residue;

// The number of bits of the cyclic code.
const CODE_LENGTH: u8 = 28;

/// A place of the 28 bits of the cyclic code, by its power of x: 0 to 27.
#[derive(Clone, Copy, PartialEq, Eq, Debug)]
pub struct Place {
    /// The power of x.
    pub power: u8,
    pub ghost within: { power < 28 },
}

impl Place {
    /// The power of x.
    pub fn power(self) -> u8
        ensures value { result ≡ self.power }
        ensures within { result < 28 }
    {
        self.power
    }
}

// The remainders of x^0 to x^27.
const COLUMNS: [u32; 28] = [
    1, 2, 4, 8, 16, 32, 64, 128, 256, 512, 873, 443, 886, 389, 778, 381, 762, 669, 595, 975, 247,
    494, 988, 209, 418, 836, 481, 962,
];

// The remainder of a power of x.
#[tactic(auto, using(crate::proofs::Columns::column_is))]
fn column(power: u8) -> u32
    requires { power < CODE_LENGTH }
    ensures { result ≡ rem (2 ^ power) }
{
    COLUMNS[usize::from(power)]
}

// The power of x that leaves this remainder, or none if none of the 28 does.
fn power_of(syndrome: Residue) -> Option<u8>
    ensures { MatchOption result ((p : ℕ) → p < CODE_LENGTH → rem (2 ^ p) ≢ syndrome.bits)
        (λ p. (p < CODE_LENGTH) × (rem (2 ^ p) ≡ syndrome.bits)) }
{
    (0..CODE_LENGTH).find(
        |power|
            requires { power.now < CODE_LENGTH }
        { column(*power) == syndrome.bits },
    )
}

/// The place that a syndrome points at: the one whose power of x leaves this remainder, or none exactly if there is none.
pub fn place_of(syndrome: Residue) -> Option<Place>
    ensures { MatchOption result ((p : ℕ) → Points syndrome.bits p → ⊥) (λ place. Points syndrome.bits place.power) }
{
    let power = power_of(syndrome)?;
    Some(Place { power })
}
