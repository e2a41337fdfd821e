//! The text of codes and of packets.
ghost use Rattle.std.specs.Prelude.{◌≡◌, ◌<◌, IfOk, Some, decimal, length, map, string_bytes};
ghost use Rattle.std.specs.List.{join_with_byte};
ghost use Rattle.packet_lines.specs.Texts.{codes_text, spaced};

use packet::CodeNumbers;
pub use packet_hex::packet_text;
use std::alloc::{AllocError, Global};
use std::fmt;

/// The 35 codes in decimal and in order, with one space between.
pub fn codes_text(heap: Global, numbers: &CodeNumbers) -> Result<String, AllocError>
    ensures { IfOk result (λ s. string_bytes s ≡ codes_text numbers.now) }
{
    joined(heap, &numbers.in_order())
}

// Numbers in decimal, with one space between.
#[tactic(auto, using(crate::proofs::Joined::joined_text, std::proofs::lemmas::Grind::common_steps))]
fn joined(heap: Global, numbers: &[u8]) -> Result<String, AllocError>
    requires { 0 < length numbers.now }
    ensures { IfOk result (λ s. string_bytes s ≡ join_with_byte 32 (map decimal numbers.now)) }
{
    let first = numbers[0];
    let others = Spaced(&numbers[1..]);
    format!(in heap; "{first}{others}")
}

/// Numbers, each behind a space.
#[derive(Clone, Copy)]
struct Spaced<'a>(&'a [u8]);

impl fmt::Display for Spaced<'_> {
    ghost output = { λ numbers. Some (spaced numbers.0.now) };

    /// Writes a space and the number, for each.
    fn fmt<W: fmt::Write>(&self, f: &mut fmt::Formatter<W>) -> fmt::Result {
        for &number in self.0 {
            write!(f, " {number}")?;
        }
        Ok(())
    }
}
