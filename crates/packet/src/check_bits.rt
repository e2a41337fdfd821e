//! The check bits of a Rate 1 packet.
ghost use Rattle.std.specs.Prelude.{◌≡◌, slice_get};
ghost use Rattle.packet_layout.specs.Guarded.{guarded_code_bits};
ghost use Rattle.packet.specs.Bits.{value};
ghost use Rattle.packet.specs.CheckBits.{message_of, transmitted};

use crate::kinds::code_bit_at;
use crate::lists::{CodeList, bit};
use cyclic::Message;
use packet_layout::{CodeBit, code_bit};

// The guarded code bits, from x^17 of a(x) down to x^0.
const GUARDED: [CodeBit; 18] = [
    code_bit!(Lsp, 1, 3),
    code_bit!(Lsp, 2, 3),
    code_bit!(Lsp, 3, 3),
    code_bit!(Lsp, 4, 3),
    code_bit!(Lsp, 5, 3),
    code_bit!(Lsp, 6, 3),
    code_bit!(Lsp, 7, 3),
    code_bit!(Lsp, 8, 3),
    code_bit!(Lsp, 9, 3),
    code_bit!(Lsp, 10, 3),
    code_bit!(Cbgain, 1, 1),
    code_bit!(Cbgain, 2, 1),
    code_bit!(Cbgain, 3, 1),
    code_bit!(Cbgain, 4, 1),
    code_bit!(Cbgain, 5, 1),
    code_bit!(Cbgain, 6, 1),
    code_bit!(Cbgain, 7, 1),
    code_bit!(Cbgain, 8, 1),
];

// How many bits PCB has.
const PCB_BITS: u32 = 11;

// PCB[1] to PCB[10] are inverted for transmission, and PCB[0] is not.
const INVERSION: u16 = 0b111_1111_1110;

// The guarded code bit at x^(17 - i) of a(x); none past the last.
#[tactic(auto, unfolding(packet_layout::specs::Guarded::guarded_code_bits))]
fn guarded_code_bit(i: usize) -> Option<CodeBit>
    ensures { result ≡ slice_get guarded_code_bits i }
{
    code_bit_at(&GUARDED, i)
}

// What it is in the list, or 0 past the last.
#[tactic(auto, using(crate::proofs::Messages::guarded_index, crate::proofs::Messages::guarded_number))]
fn guarded_bit(list: &CodeList, i: usize) -> u8
    ensures { result ≡ value list.now (slice_get guarded_code_bits i) }
{
    match guarded_code_bit(i) {
        None => 0,
        Some(c) => bit(list, c),
    }
}

// a(x) of the list.
#[tactic(auto, using(crate::proofs::Messages::guarded_none, crate::proofs::Messages::guarded_more, crate::proofs::Messages::guarded_lt, crate::proofs::Messages::message_is))]
fn message(list: &CodeList) -> Message
    ensures { result.bits ≡ message_of list.now }
{
    let mut bits = 0;
    for i in 0..GUARDED.len() {
        bits = bits * 2 + u32::from(guarded_bit(list, i));
    }
    Message::new(bits).unwrap()
}

/// PCB of a Rate 1 packet as it is transmitted.
pub(crate) fn check_bits(list: &CodeList) -> u16
    ensures { result ≡ transmitted (message_of list.now) }
{
    (message(list).word().bits() % (1 << PCB_BITS)) as u16 ^ INVERSION
}
