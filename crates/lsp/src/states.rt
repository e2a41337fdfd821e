//! The ten LSP memories of an end.
ghost use Rattle.std.specs.Prelude.{◌≡◌, pos, ◌+ℤ◌, slice_index, slice_index_or};
ghost use Rattle.lsp.specs.Decay.{decay};
ghost use Rattle.lsp.specs.Quantizers.{value_of};
ghost use Rattle.lsp.specs.States.{InRange, bias, decayed, frequencies, fresh, updated};

use crate::codes::LspCodes;
use crate::decay::Memory;
use crate::ten::Lsp;

// The bias of LSP 1; that of LSP i is i times as large.
const BIAS: i64 = 491_520_000;

fn bias(lsp: Lsp) -> i64
    ensures { result ≡ bias lsp.index }
{
    (lsp.index as i64 + 1) * BIAS
}

/// The LSP memories of an end, in grains, LSP 1 first. None reaches 2^33 in size.
#[derive(Clone, Copy, PartialEq, Eq, Debug)]
pub struct Memories {
    /// The memories, LSP 1 first.
    pub grains: [i64; 10],
    pub ghost in_range: { InRange grains },
}

impl Default for Memories {
    ghost is_default = { λ memories. memories.grains ≡ fresh };

    /// The memories of an end that is new or restarted.
    fn default() -> Memories {
        Memories::new()
    }
}

impl Memories {
    /// The memories of an end that is new or restarted: all are 0.
    #[tactic(auto, using(crate::proofs::Ranges::fresh_in), unfolding(crate::specs::Ten::ten))]
    pub fn new() -> Memories
        ensures { result.grains ≡ fresh }
    {
        Memories { grains: [0; 10] }
    }

    /// Updates the memories by a packet with these codes: m becomes v(c) + D(m).
    #[tactic(auto, using(crate::proofs::Ranges::updated_in))]
    pub fn update(&mut self, codes: LspCodes)
        ensures { self.new.grains ≡ updated codes.rate codes.codes self.old.grains }
    {
        *self = Memories {
            grains: self.updated(codes),
        };
    }

    /// Updates the memories by an erasure: m becomes D(m).
    #[tactic(auto, using(crate::proofs::Ranges::decayed_in))]
    pub fn decay(&mut self)
        ensures { self.new.grains ≡ decayed self.old.grains }
    {
        *self = Memories {
            grains: self.decayed(),
        };
    }

    /// The memories, LSP 1 first.
    pub fn grains(self) -> [i64; 10]
        ensures value { result ≡ self.grains }
        ensures range { InRange result }
    {
        self.grains
    }

    /// The frequencies, LSP 1 first: bias and memory added. They may be negative.
    pub fn frequencies(self) -> [i64; 10]
        ensures { result ≡ frequencies self.grains }
    {
        Lsp::each(|lsp| bias(lsp) + self.memory(lsp).grains)
    }

    // The memory of one LSP.
    #[tactic(auto, using(crate::proofs::Decays::bound_most))]
    fn memory(self, lsp: Lsp) -> Memory
        ensures { result.grains ≡ slice_index_or self.grains lsp.index (pos 0) }
    {
        Memory {
            grains: self.grains[lsp.index],
        }
    }

    // D(m) of the memory of one LSP.
    fn decayed_memory(self, lsp: Lsp) -> Memory
        ensures { result.grains ≡ decay (slice_index_or self.grains lsp.index (pos 0)) }
    {
        self.memory(lsp).decay()
    }

    fn decayed(self) -> [i64; 10]
        ensures { result ≡ decayed self.grains }
    {
        Lsp::each(|lsp| self.decayed_memory(lsp).grains)
    }

    // The memory of one LSP, of memories that are lent. An update takes it: there is so much to do for each LSP that the ten
    // are not unrolled, and each would copy all memories.
    #[tactic(auto, using(crate::proofs::Decays::bound_most))]
    fn lent_memory(&self, lsp: Lsp) -> Memory
        ensures { result.grains ≡ slice_index_or self.now.grains lsp.index (pos 0) }
    {
        Memory {
            grains: self.grains[lsp.index],
        }
    }

    // v(c) + D(m) of the code and the memory of one LSP.
    fn updated_memory(&self, lsp: Lsp, codes: &LspCodes) -> i64
        ensures { result ≡ value_of codes.now.rate lsp.index (slice_index codes.now.codes lsp.index)
            +ℤ decay (slice_index_or self.now.grains lsp.index (pos 0)) }
    {
        codes.value(lsp) + self.lent_memory(lsp).decay().grains
    }

    fn updated(self, codes: LspCodes) -> [i64; 10]
        ensures { result ≡ updated codes.rate codes.codes self.grains }
    {
        Lsp::each(|lsp| self.updated_memory(lsp, &codes))
    }
}
