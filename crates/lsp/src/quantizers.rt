//! The quantizers: what a code stands for at each rate, and the code of an offset (IS-96, A.1.4.3.2.7).
ghost use Rattle.std.specs.Prelude.{◌≡◌, ◌+◌, ◌*◌, ◌≤◌, ◌+ℤ◌, ◌-ℤ◌, pos, slice_index, unsigned_abs};
ghost use Rattle.lsp.specs.Quantizers.{code_of, half_step, largest_value, levels, limited, top_code, unlimited_code, value_of};

use crate::ten::Lsp;
use service::Rate;

// The largest levels of LSP 1 to 10, in thousandths of the sampling frequency (table A.1.4.3.2.7-2). Rates 1/4 and 1/8 have
// the same ones.
const FULL_RATE_LEVELS: [i64; 10] = [25, 40, 70, 70, 60, 60, 50, 50, 40, 40];

const HALF_RATE_LEVELS: [i64; 10] = [15, 15, 30, 30, 30, 20, 20, 20, 20, 20];

const LOW_RATE_LEVELS: [i64; 10] = [10; 10];

// A thousandth of the sampling frequency is 165 units of 65,536 grains. Every M divides 165.
const UNITS_PER_THOUSANDTH: i64 = 165;

const GRAINS_PER_UNIT: i64 = 65_536;

/// The top code M of a rate: its LSP codes are 0 to M.
pub fn top_code(rate: Rate) -> u8
    ensures { result ≡ top_code rate }
{
    match rate {
        Rate::Full => 15,
        Rate::Half => 3,
        Rate::Quarter | Rate::Eighth => 1,
    }
}

// A number limited to the codes of a rate.
fn limit(rate: Rate, n: i128) -> u8
    ensures { result ≡ limited rate n }
{
    n.clamp(0, i128::from(top_code(rate))) as u8
}

// The quantizer of one LSP at one rate.
#[derive(Clone, Copy)]
pub(crate) struct Quantizer {
    pub(crate) rate: Rate,
    pub(crate) lsp: Lsp,
}

impl Quantizer {
    fn level(self) -> i64
        ensures { result ≡ pos (slice_index (levels self.rate) self.lsp.index) }
    {
        match self.rate {
            Rate::Full => FULL_RATE_LEVELS[self.lsp.index],
            Rate::Half => HALF_RATE_LEVELS[self.lsp.index],
            Rate::Quarter | Rate::Eighth => LOW_RATE_LEVELS[self.lsp.index],
        }
    }

    // The half step h.
    fn half_step(self) -> i64
        ensures { result ≡ pos (half_step self.rate self.lsp.index) }
    {
        self.level() * (UNITS_PER_THOUSANDTH / i64::from(top_code(self.rate))) * GRAINS_PER_UNIT
    }

    // How many half steps the value of the code c is above 0: 2 × c − M.
    fn half_steps(self, c: u8) -> i64
        ensures { result ≡ pos (2 * c) -ℤ pos (top_code self.rate) }
    {
        2 * i64::from(c) - i64::from(top_code(self.rate))
    }

    // The value of the code c, v(c).
    #[tactic(auto, using(crate::proofs::Sizes::product_fits, crate::proofs::Sizes::product_is))]
    pub(crate) fn value(self, c: u8) -> i64
        requires { c ≤ top_code self.rate }
        ensures { result ≡ value_of self.rate self.lsp.index c }
    {
        self.half_steps(c) * self.half_step()
    }

    // M × h. It is the largest level in grains, since every M divides 165.
    #[tactic(auto, using(crate::proofs::Sizes::level_grains))]
    fn level_grains(self) -> i64
        ensures value { result ≡ pos (top_code self.rate * half_step self.rate self.lsp.index) }
        ensures size { unsigned_abs result ≤ largest_value }
    {
        self.level() * UNITS_PER_THOUSANDTH * GRAINS_PER_UNIT
    }

    // The step 2 × h from the value of a code to that of the next.
    fn step(self) -> i128
        ensures { result ≡ pos (2 * half_step self.rate self.lsp.index) }
    {
        2 * i128::from(self.half_step())
    }

    // M × h + h: how far below 0 the lower edge of code 0 is, half a step below its value.
    fn lowest_edge(self) -> i64
        ensures value { result ≡ pos (top_code self.rate * half_step self.rate self.lsp.index + half_step self.rate self.lsp.index) }
        ensures size { unsigned_abs result ≤ 2 * largest_value }
    {
        self.level_grains() + self.half_step()
    }

    // How far the offset w is above the lower edge of code 0. In 128 bits no offset is too large.
    fn above_lowest_edge(self, w: i64) -> i128
        ensures { result ≡ w +ℤ pos (top_code self.rate * half_step self.rate self.lsp.index)
            +ℤ pos (half_step self.rate self.lsp.index) }
    {
        i128::from(w) + i128::from(self.lowest_edge())
    }

    // The code of the offset w before it is limited, below 0 or above M for offsets beyond the quantizer's reach.
    fn unlimited_code(self, w: i64) -> i128
        ensures { result ≡ unlimited_code self.rate self.lsp.index w }
    {
        self.above_lowest_edge(w).div_euclid(self.step())
    }

    // The code of the offset w.
    pub(crate) fn code(self, w: i64) -> u8
        ensures { result ≡ code_of self.rate self.lsp.index w }
    {
        limit(self.rate, self.unlimited_code(w))
    }
}
