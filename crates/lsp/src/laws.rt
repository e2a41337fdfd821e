//! The laws of the codes and memories, each a theorem that the contract of a function carries.
ghost use Rattle.std.specs.Prelude.{ℤ};
ghost use Rattle.lsp.specs.Decay.{DecayLaw, RoundsDown};
ghost use Rattle.lsp.specs.Laws.{Agreement, CodeOfValue, EndsAgree, NearestCode, Rounding, StaysInRange};

/// Carries a theorem: the code of a code's value is that code.
#[tactic(auto, using(crate::proofs::Returns::code_of_value))]
pub fn code_of_value()
    ensures { CodeOfValue }
{}

/// Carries a theorem: no code of the rate has a value nearer to an offset than the code that the offset is given.
#[tactic(auto, using(crate::proofs::Nearest::nearest_code))]
pub fn nearest_code()
    ensures { NearestCode }
{}

/// Carries a theorem: the decay rounds (29 × m + 16) / 32 down, also for negative m.
#[tactic(auto, using(crate::proofs::Decays::rounds_below, crate::proofs::Decays::rounds_greatest))]
pub fn decay_rounds_down()
    ensures { (m : ℤ) → RoundsDown m }
{}

/// Carries a theorem: the decay is within one half of 29 × m / 32.
#[tactic(auto, using(crate::proofs::Decays::decay_law))]
pub fn decay_law()
    ensures { DecayLaw }
{}

/// Carries a theorem: over every history whose codes are within their rates, no memory leaves its range.
#[tactic(auto, using(crate::proofs::Runs::stays_in_range))]
pub fn stays_in_range()
    ensures { StaysInRange }
{}

/// Carries a theorem: after every history, each memory is within 16/3 grains of its unrounded value.
#[tactic(auto, using(crate::proofs::Runs::rounding))]
pub fn rounding()
    ensures { Rounding }
{}

/// Carries a theorem: any two ends with memories in range are, after the same 256 packets, at most 10 grains apart in each
/// memory, whatever blanks stand between. The same 256 events of any kind but blanks do as well.
#[tactic(auto, using(crate::proofs::Runs::agreement))]
pub fn agreement()
    ensures { Agreement }
{}

/// Carries a theorem: two ends, new at first, whose last 256 events are the same, blanks left out, have memories at most
/// 10 grains apart, after any two histories whose codes are within their rates.
#[tactic(auto, using(crate::proofs::Runs::ends_agree))]
pub fn ends_agree()
    ensures { EndsAgree }
{}
