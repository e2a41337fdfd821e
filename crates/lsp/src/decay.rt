//! One memory, and its decay.
ghost use Rattle.std.specs.Prelude.{◌≡◌, ◌<◌, unsigned_abs};
ghost use Rattle.lsp.specs.Decay.{decay, memory_limit};

// The memory of one LSP, in grains. No LSP's bound is above 2^33.
#[derive(Clone, Copy)]
pub(crate) struct Memory {
    pub(crate) grains: i64,
    ghost small: { unsigned_abs grains < memory_limit },
}

impl Memory {
    // D(m): (29 × m + 16) / 32 rounded down, also for negative m.
    #[tactic(auto, using(crate::proofs::Decays::decay_small), unfolding(crate::specs::Decay::decay))]
    pub(crate) fn decay(self) -> Memory
        ensures { result.grains ≡ decay self.grains }
    {
        Memory {
            grains: (29 * self.grains + 16).div_euclid(32),
        }
    }
}
