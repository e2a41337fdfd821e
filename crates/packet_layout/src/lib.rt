//! The codes of a frame, and which bit of them each bit of a packet carries (IS-96, A.1.4.7).
#![tactic(auto)]

ghost use Rattle.packet_layout.specs.Laws.{EachCodeBitOnceAtEachRate, GuardedPlaces};

mod code_bits;
mod subframes;

pub use code_bits::{CodeBit, CodeName};
pub use subframes::{CodebookCodes, PitchCodes};

/// Carries a theorem: at each rate, each code bit, check bits too, stands at exactly one place of the packet, and each bit of
/// the packet carries one.
pub fn each_code_bit_once()
    ensures { EachCodeBitOnceAtEachRate }
{}

/// Carries a theorem: in a Rate 1 packet LSPi[3] stands at bit 171 - 2i, CBGAINk[1] at bit 151 - 8k, PCB[j] at bit 8j - 1 for j
/// from 1 to 10, and PCB[0] at bit 0.
#[tactic(auto, using(crate::proofs::Laws::guarded_places))]
pub fn guarded_places()
    ensures { GuardedPlaces }
{}
