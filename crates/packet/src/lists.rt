//! The 36 codes of a frame in order, as packing and reading work on them.
ghost use Rattle.std.specs.Prelude.{◌≡◌, ℕ, ◌<◌, slice_index, take, Some};
ghost use Rattle.packet_layout.specs.CodeBits.{index};
ghost use Rattle.packet.specs.Bits.{value};
ghost use Rattle.packet.specs.CheckBits.{message_of, pcb_of, transmitted};
ghost use Rattle.packet.specs.Codes.{in_order, numbers_of, list_of};

use crate::check_bits::check_bits;
use crate::codes::CodeNumbers;
use packet_layout::{CodeBit, CodeName};
use service::Rate;

/// LSP 1 to 10, PLAG 1 to 4, PGAIN 1 to 4, CBINDEX 1 to 8, CBGAIN 1 to 8, CBSEED and PCB.
pub(crate) type CodeList = [u16; 36];

// Where PCB stands.
const PCB: usize = CodeName::Pcb as usize;

/// A code bit of the list.
pub(crate) fn bit(list: &CodeList, c: CodeBit) -> u8
    requires code { index c < 36 }
    requires bit_number { c.bit < 16 }
    ensures { result ≡ value list.now (Some c) }
{
    (list[c.index()] >> c.bit & 1) as u8
}

// The list of a frame's codes and of PCB.
#[tactic(auto, using(crate::proofs::Fields::listed_none, crate::proofs::Fields::listed_more, crate::proofs::Fields::listed_all))]
pub(crate) fn to_list(codes: &CodeNumbers, pcb: u16) -> CodeList
    ensures { result ≡ list_of codes.now pcb }
{
    let order = codes.in_order();
    let mut list = [pcb; 36];
    for (i, code) in order.iter().enumerate() {
        list[i] = u16::from(*code);
    }
    list
}

// The codes of a list in order, but for PCB.
#[tactic(auto, using(crate::proofs::Fields::narrowed_none, crate::proofs::Fields::narrowed_more, crate::proofs::Fields::narrowed_all))]
fn narrowed(list: &CodeList) -> [u8; 35]
    requires { (s : ℕ) → s < 35 → slice_index list.now s < 256 }
    ensures { result ≡ take 35 list.now }
{
    let mut codes = [0; 35];
    for i in 0..PCB {
        codes[i] = list[i] as u8;
    }
    codes
}

// The codes of a list, but for PCB.
#[tactic(auto, using(crate::proofs::Fields::numbers_of_front))]
pub(crate) fn from_list(list: &CodeList) -> CodeNumbers
    requires { (s : ℕ) → s < 35 → slice_index list.now s < 256 }
    ensures { result ≡ numbers_of list.now }
{
    CodeNumbers::from_order(narrowed(list))
}

// PCB of a Rate 1 packet of these codes.
#[tactic(auto, using(crate::proofs::Messages::message_of_codes))]
fn full_pcb(codes: &CodeNumbers) -> u16
    ensures { result ≡ transmitted (message_of (in_order codes.now)) }
{
    check_bits(&to_list(codes, 0))
}

/// The list of a frame's codes, with PCB as a packet at this rate carries it.
pub(crate) fn packet_list(rate: Rate, codes: &CodeNumbers) -> CodeList
    ensures { result ≡ list_of codes.now (pcb_of rate codes.now) }
{
    let pcb = match rate {
        Rate::Full => full_pcb(codes),
        Rate::Half | Rate::Quarter | Rate::Eighth => 0,
    };
    to_list(codes, pcb)
}
