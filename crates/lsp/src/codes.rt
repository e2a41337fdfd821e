//! The ten LSP codes of a packet.
ghost use Rattle.std.specs.Prelude.{◌≡◌, ◌*◌, ◌≤◌, MatchResult, slice_index, unsigned_abs};
ghost use Rattle.service.specs.Refusals.{refusal_is, refused};
ghost use Rattle.lsp.specs.Quantizers.{Within, largest_value, quantized, value_of, values};

use crate::quantizers::{Quantizer, top_code};
use crate::ten::Lsp;
use service::{Rate, Refusal};

/// Ten LSP codes with their rate, LSP 1 first, none above the rate's top code.
#[derive(Clone, Copy, PartialEq, Eq, Debug)]
pub struct LspCodes {
    /// The rate.
    pub rate: Rate,
    /// The codes, LSP 1 first.
    pub codes: [u8; 10],
    pub ghost within: { Within rate codes },
}

impl LspCodes {
    /// These codes, or refusal 17 if one is above the rate's top code.
    pub fn new(rate: Rate, codes: [u8; 10]) -> Result<LspCodes, Refusal>
        ensures { MatchResult result (λ l. (l.rate ≡ rate) × (l.codes ≡ codes))
            (λ e. (refusal_is e ≡ refused 17) × (Within rate codes → ⊥)) }
    {
        if codes.iter().any(|c| *c > top_code(rate)) {
            return Err(Refusal::Codes);
        }
        Ok(LspCodes { rate, codes })
    }

    /// The codes of ten offsets, LSP 1 first. No other code of the rate has a value nearer to its offset: `nearest_code`.
    #[tactic(auto, using(crate::proofs::Ranges::quantized_within))]
    pub fn quantize(rate: Rate, offsets: [i64; 10]) -> LspCodes
        ensures rate { result.rate ≡ rate }
        ensures codes { result.codes ≡ quantized rate offsets }
    {
        LspCodes {
            rate,
            codes: codes_of(rate, offsets),
        }
    }

    /// The rate.
    pub fn rate(self) -> Rate
        ensures { result ≡ self.rate }
    {
        self.rate
    }

    /// The codes, LSP 1 first.
    pub fn codes(self) -> [u8; 10]
        ensures value { result ≡ self.codes }
        ensures within { Within self.rate result }
    {
        self.codes
    }

    /// What the codes stand for, in grains, LSP 1 first.
    pub fn values(self) -> [i64; 10]
        ensures { result ≡ values self.rate self.codes }
    {
        Lsp::each(|lsp| self.value(lsp))
    }

    // The value of the code of one LSP.
    #[tactic(auto, using(crate::proofs::Sizes::value_most))]
    pub(crate) fn value(&self, lsp: Lsp) -> i64
        ensures value { result ≡ value_of self.now.rate lsp.index (slice_index self.now.codes lsp.index) }
        ensures size { unsigned_abs result ≤ largest_value }
    {
        Quantizer {
            rate: self.rate,
            lsp,
        }
        .value(self.codes[lsp.index])
    }
}

// The codes of ten offsets.
fn codes_of(rate: Rate, offsets: [i64; 10]) -> [u8; 10]
    ensures { result ≡ quantized rate offsets }
{
    Lsp::each(|lsp| Quantizer { rate, lsp }.code(offsets[lsp.index]))
}
