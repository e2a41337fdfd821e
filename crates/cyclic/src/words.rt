//! The guarded bits as numbers: the 18 that carry codes, and the word of all 29.
ghost use Rattle.std.specs.Prelude.{◌≡◌, ◌^◌, ◌<◌, MatchBool};
ghost use Rattle.cyclic.specs.Words.{check_bits, codeword, message, parity, sent, syndrome};

use crate::numbers::Bits;
use crate::polynomials::{CHECK_BITS, Residue, remainder};

/// The 18 guarded code bits, the message polynomial a(x): LSP1[3] at x^17 down to LSP10[3] at x^8, then CBGAIN1[1] at
/// x^7 down to CBGAIN8[1] at x^0. Bit p is the coefficient of x^p.
pub type Message = Bits<18>;

/// The 29 guarded bits, inversions undone: the message from bit 11 up, PCB[10] to PCB[1] at bits 10 to 1, PCB[0] at bit 0.
/// 29 is 18 of the message, the ten check bits and the overall parity bit; the argument of a type cannot be computed.
pub type Word = Bits<29>;

impl Message {
    /// The ten check bits before inversion, PCB[10] at x^9 down to PCB[1] at x^0.
    pub fn check_bits(self) -> Residue
        ensures { result.bits ≡ check_bits self.bits }
    {
        remainder(self.bits << CHECK_BITS)
    }

    /// The overall parity bit PCB[0], 0 or 1: the exclusive-or of all 28 bits of the message and its check bits.
    pub fn parity_bit(self) -> u32
        ensures { result ≡ parity (codeword self.bits) }
    {
        self.codeword().count_ones() % 2
    }

    /// The word that is sent for the message, before inversion.
    pub fn word(self) -> Word
        ensures { result.bits ≡ sent self.bits }
    {
        Word {
            bits: self.codeword() * 2 + self.parity_bit(),
        }
    }

    // The 28 bits of the cyclic code.
    fn codeword(self) -> u32
        ensures value { result ≡ codeword self.bits }
        ensures within { result < 2 ^ 28 }
    {
        (self.bits << CHECK_BITS) + self.check_bits().bits
    }
}

impl Word {
    /// The 18 guarded code bits as they stand in the word; nothing is corrected.
    pub fn message(self) -> Message
        ensures { result.bits ≡ message self.bits }
    {
        Message {
            bits: self.bits >> (CHECK_BITS + 1),
        }
    }

    /// The remainder of the 28 bits of the cyclic code.
    pub fn syndrome(self) -> Residue
        ensures { result.bits ≡ syndrome self.bits }
    {
        remainder(self.bits >> 1)
    }

    /// Whether the exclusive-or of all 29 bits is 0.
    pub fn parity_checks(self) -> bool
        ensures { MatchBool result (parity self.bits ≡ 0) (parity self.bits ≡ 1) }
    {
        let ones = self.bits.count_ones();
        ones % 2 == 0
    }
}
