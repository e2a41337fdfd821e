//! Packets of a frame's codes (IS-96, A.1.4.7).
#![tactic(auto)]

ghost use Rattle.std.specs.Prelude.{◌≡◌};
ghost use Rattle.packet.specs.Calls.{Packs};
ghost use Rattle.packet.specs.Unpacking.{Unpacks};

mod check_bits;
mod codes;
mod kinds;
mod laws;
mod lists;
mod order;
mod packing;

pub use codes::{CodeNumbers, Codes};
pub use laws::{
    bits_change, each_bit_of_a_packet, guarded_word, one_answer, one_record,
    packing_returns_the_packet, unpacking_returns_the_codes,
};
use service::{Rate, Refusal};

/// Packs plain code numbers at the rate of this number: writes the packet from the buffer's start, keeps the rest of the
/// buffer, and answers the packet's length. Refuses with 17 if the number names no rate, a code is too wide or the rate lacks a
/// code that is not zero, and then with 16 if the buffer is too short. A refusal leaves the buffer as it was.
pub fn pack(rate: u8, numbers: &CodeNumbers, out: &mut [u8]) -> Result<usize, Refusal>
    ensures { Packs rate numbers.now out.old out.new result }
{
    Codes::new(Rate::try_from(rate)?, *numbers)?.pack(out)
}

/// The codes that a packet holds at the rate of this number. Refuses with 17 if the number names no rate, and then, with record
/// 0, with 6 if the packet does not have the length of the rate and with 9 if a spare bit is set. No check bit is looked at,
/// and nothing is corrected.
pub fn unpack(rate: u8, packet: &[u8]) -> Result<Codes, Refusal>
    ensures { Unpacks rate packet.now result }
{
    Ok(Codes::unpack(Rate::try_from(rate)?, packet)?)
}

#[cfg(test)]
mod tests {
    use super::*;
    use lsp::LspCodes;
    use packet_layout::PitchCodes;
    use service::Fault;
    use std::test::Fail;

    const RATE_1: u8 = 4;

    const RATE_1_8: u8 = 1;

    fn packet_of(numbers: &CodeNumbers) -> Result<[u8; 22], Fail> {
        let mut out = [0xff; 22];
        pack(RATE_1, numbers, &mut out)?;
        Ok(out)
    }

    // With all codes 0, PCB[1] to PCB[10] are transmitted as ones, and PCB[0] as zero.
    #[test]
    fn rate_1_of_zeros(rt: HostRuntime) -> Result<(), Fail> {
        let packet = packet_of(&CodeNumbers::default())?;
        for (i, byte) in packet.iter().enumerate() {
            let expected = if (11..=20).contains(&i) { 0x10 } else { 0 };
            assert_eq!(rt; *byte, expected);
        }
        Ok(())
    }

    // With only CBGAIN8[1] set, PCB[10], [9], [7], [6], [4], [1] and [0] are 1 before inversion. PCB[j] stands in byte 21 - j,
    // at the bit of value 16, for j above 0, and PCB[0] at the bit of value 32 of byte 21.
    #[test]
    fn check_bits_of_one_code_bit(rt: HostRuntime) -> Result<(), Fail> {
        let mut numbers = CodeNumbers::default();
        numbers.codebook.cbgain[7] = 0b010;
        let packet = packet_of(&numbers)?;
        for j in 1..=10usize {
            let set = [10, 9, 7, 6, 4, 1].contains(&j);
            assert_eq!(rt; packet[21 - j] & 0x10 == 0, set);
        }
        assert_eq!(rt; packet[21], 0x20);
        Ok(())
    }

    #[test]
    fn rate_1_8_of_ones(rt: HostRuntime) -> Result<(), Fail> {
        let codes = unpack(RATE_1_8, &[0xff, 0xff])?;
        let mut numbers = CodeNumbers::default();
        numbers.lsp = [1; 10];
        numbers.codebook.cbgain[0] = 3;
        numbers.cbseed = 15;
        assert_eq!(rt; codes.numbers(), numbers);
        let mut out = [0; 3];
        assert_eq!(rt; codes.pack(&mut out), Ok(2));
        assert_eq!(rt; out, [0xff, 0xff, 0]);
        Ok(())
    }

    #[test]
    fn parts_of_codes(rt: HostRuntime) -> Result<(), Fail> {
        let codes = unpack(RATE_1_8, &[0xff, 0xff])?;
        assert_eq!(rt; codes.lsp(), LspCodes::new(Rate::Eighth, [1; 10])?);
        assert_eq!(rt; codes.pitch(), PitchCodes::default());
        assert_eq!(rt; codes.codebook().cbindex, [0; 8]);
        assert_eq!(rt; codes.codebook().cbgain, [3, 0, 0, 0, 0, 0, 0, 0]);
        Ok(())
    }

    #[test]
    fn another_cbseed(rt: HostRuntime) -> Result<(), Fail> {
        let eighth = Codes::new(Rate::Eighth, CodeNumbers::default())?;
        assert_eq!(rt; eighth.with_cbseed(0xf5).numbers().cbseed, 5);
        let quarter = Codes::new(Rate::Quarter, CodeNumbers::default())?;
        assert_eq!(rt; quarter.with_cbseed(0xf5), quarter);
        Ok(())
    }

    #[test]
    fn codes_in_order(rt: HostRuntime) {
        let mut order = [0; 35];
        for i in 0..35 {
            order[i] = i as u8;
        }
        let numbers = CodeNumbers::from_order(order);
        assert_eq!(rt; numbers.lsp[9], 9);
        assert_eq!(rt; numbers.pitch.plag, [10, 11, 12, 13]);
        assert_eq!(rt; numbers.pitch.pgain, [14, 15, 16, 17]);
        assert_eq!(rt; numbers.codebook.cbindex[0], 18);
        assert_eq!(rt; numbers.codebook.cbgain[7], 33);
        assert_eq!(rt; numbers.cbseed, 34);
        assert_eq!(rt; numbers.in_order(), order);
    }

    #[test]
    fn refusals_of_pack(rt: HostRuntime) {
        let mut numbers = CodeNumbers::default();
        let mut out = [7; 21];
        assert_eq!(rt; pack(RATE_1, &numbers, &mut out), Err(Refusal::ShortBuffer));
        assert_eq!(rt; pack(5, &numbers, &mut out), Err(Refusal::Codes));
        numbers.cbseed = 1;
        assert_eq!(rt; pack(RATE_1, &numbers, &mut out), Err(Refusal::Codes));
        assert_eq!(rt; out, [7; 21]);
    }

    #[test]
    fn refusals_of_unpack(rt: HostRuntime) {
        let packet = [1; 22];
        assert_eq!(rt; unpack(0, &packet).err(), Some(Refusal::Codes));
        assert_eq!(rt;
            unpack(RATE_1_8, &packet).err(),
            Some(Refusal::from(Fault::Length(0)))
        );
        assert_eq!(rt;
            unpack(RATE_1, &packet).err(),
            Some(Refusal::from(Fault::SpareBits(0)))
        );
    }
}
