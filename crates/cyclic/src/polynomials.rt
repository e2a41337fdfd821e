//! Division by the generator polynomial over GF(2); bit p of a number is the coefficient of x^p.
ghost use Rattle.std.specs.Prelude.{◌≡◌, cond};
ghost use Rattle.cyclic.specs.Polynomials.{Remainder, rem, shift_in};

use crate::numbers::Bits;

// x^10 + x^9 + x^8 + x^6 + x^5 + x^3 + 1
const GENERATOR: u32 = 0b111_0110_1001;

// The degree of the generator: a remainder has so many coefficients, and x^10 is the first power that it lacks.
pub(crate) const CHECK_BITS: u32 = 10;

const X10: u32 = 1 << CHECK_BITS;

/// A remainder by the generator: a polynomial of a degree below 10. Ten check bits are one, and a syndrome is.
pub type Residue = Bits<10>;

impl Residue {
    // That of the polynomial 0. Not a literal in `remainder`: the loop there would know its fields, and not that it is a residue.
    fn zero() -> Residue
        ensures { result.bits ≡ 0 }
    {
        Residue { bits: 0 }
    }

    // The remainder of r(x) × x + b, where b is 1 or 0.
    #[tactic(auto, using(crate::proofs::Linear::reduced_low, crate::proofs::Linear::reduced_is, crate::proofs::Linear::minus_generator_lt))]
    fn shift_in(self, b: bool) -> Residue
        ensures { result.bits ≡ shift_in self.bits (cond b 1 0) }
    {
        let p = self.bits * 2 + u32::from(b);
        Residue {
            bits: if p >= X10 { p ^ GENERATOR } else { p },
        }
    }
}

/// The remainder of a polynomial by the generator, its coefficients shifted in from the highest down; `unique_remainder` says
/// that there is no other.
#[tactic(auto, using(crate::proofs::Linear::rem_none, crate::proofs::Linear::rem_down, crate::proofs::Linear::remainder))]
pub fn remainder(polynomial: u32) -> Residue
    ensures value { result.bits ≡ rem polynomial }
    ensures meaning { Remainder polynomial result.bits }
{
    // A fold over `rev` was tried, and no lemma of the library says what a reversed range yields; over 31 - i it reads worse.
    let mut r = Residue::zero();
    for i in (0..u32::BITS).rev() {
        r = r.shift_in(polynomial >> i & 1 == 1);
    }
    r
}
