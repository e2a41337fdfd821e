//! Packing the codes of a frame, and reading them back, written once for every kind of packet.
ghost use Rattle.std.specs.Prelude.{◌≡◌, ℕ, ◌+◌, ◌*◌, ◌^◌, ◌++◌, ◌≤◌, ◌<◌, bit_or, drop, length, slice_index, slice_set};
ghost use Rattle.service.specs.Rates.{rate_is};
ghost use Rattle.packet_layout.specs.CodeBits.{index};
ghost use Rattle.packet.specs.Bits.{bit_at, byte_of, carried, packet_of, value};
ghost use Rattle.packet.specs.Reading.{ReadsTo};

use crate::kinds::PacketKind;
use crate::lists::{CodeList, bit};
use packet_layout::CodeBit;

// The bit that a place of the packet carries; 0 at a spare place.
#[tactic(auto, using(crate::proofs::Carried::carried_some, crate::proofs::Carried::carried_none, crate::proofs::Carried::index_lt, crate::proofs::Carried::number_of_bit_lt))]
fn packed_bit<K: PacketKind>(list: &CodeList, place: usize) -> u8
    ensures { result ≡ carried K.rate list.now place }
{
    match K::code_bit(place) {
        None => 0,
        Some(c) => bit(list, c),
    }
}

// A byte of the packet.
#[tactic(auto, using(crate::proofs::Carried::bits_none, crate::proofs::Carried::bits_more, crate::proofs::Carried::bits_lt, crate::proofs::Carried::carried_lt, crate::proofs::Carried::byte_is))]
fn packed_byte<K: PacketKind>(list: &CodeList, index: usize) -> u8
    requires { index < 22 }
    ensures { result ≡ byte_of K.rate list.now index }
{
    let mut byte = 0;
    for t in 0..8 {
        byte = byte * 2 + packed_bit::<K>(list, 8 * index + t);
    }
    byte
}

/// Writes the packet of the list from the buffer's start, and keeps the rest.
#[tactic(auto, using(crate::proofs::Carried::filled_none, crate::proofs::Carried::filled_more, crate::proofs::Carried::filled_all))]
pub(crate) fn write<K: PacketKind>(list: &CodeList, bytes: usize, out: &mut [u8])
    requires kind { bytes ≡ (rate_is K.rate).bytes }
    requires room { bytes ≤ length out.old }
    ensures { out.new ≡ packet_of K.rate list.now ++ drop bytes out.old }
{
    for index in 0..bytes {
        out[index] = packed_byte::<K>(list, index);
    }
}

// The bit at a place of a packet.
fn bit_at(packet: &[u8], place: usize) -> u8
    requires { place < 8 * length packet.now }
    ensures { result ≡ bit_at packet.now place }
{
    packet[place / 8] >> (7 - place % 8) & 1
}

// Sets a code bit of the list to a bit, if it is 0.
#[tactic(auto, using(crate::proofs::Numbers::shifted_whole))]
fn mark(list: &mut CodeList, c: CodeBit, bit: u8)
    requires code { index c < 36 }
    requires bit_number { c.bit < 16 }
    requires bit { bit < 2 }
    ensures { list.new ≡ slice_set list.old (index c) (bit_or (slice_index list.old (index c)) (bit * 2 ^ c.bit)) }
{
    list[c.index()] |= u16::from(bit) << c.bit;
}

// Reads one place more.
#[tactic(auto, using(crate::proofs::Reading::reads_spare, crate::proofs::Reading::reads_bit, crate::proofs::Numbers::bit_lt, crate::proofs::Carried::index_lt, crate::proofs::Carried::number_of_bit_lt))]
fn read_place<K: PacketKind>(list: &mut CodeList, packet: &[u8], place: usize)
    requires place { place < 8 * length packet.now }
    requires before { ReadsTo K.rate place packet.now list.old }
    ensures { ReadsTo K.rate (place + 1) packet.now list.new }
{
    if let Some(c) = K::code_bit(place) {
        mark(list, c, bit_at(packet, place));
    }
}

/// The list that a packet holds. Its spare bits are not looked at.
#[tactic(auto, using(crate::proofs::Reading::reads_none))]
pub(crate) fn read<K: PacketKind>(packet: &[u8], bits: usize) -> CodeList
    requires kind { bits ≡ (rate_is K.rate).bits }
    requires long { bits ≤ 8 * length packet.now }
    ensures { ReadsTo K.rate bits packet.now result }
{
    let mut list = [0; 36];
    for place in 0..bits {
        read_place::<K>(&mut list, packet, place);
    }
    list
}
