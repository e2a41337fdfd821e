//! The code that guards 29 bits of a Rate 1 packet (IS-96, A.1.4.7.1.1): a shortened cyclic code over 28 of them, and an
//! overall parity bit.
#![tactic(auto)]

mod laws;
mod numbers;
mod places;
mod polynomials;
mod words;

pub use laws::{
    at_most_one_place, four_changes, one_reading_by_each_rule, right_words, unique_remainder,
    weight_at_least_five,
};
pub use numbers::Bits;
pub use places::{Place, place_of};
pub use polynomials::{Residue, remainder};
pub use words::{Message, Word};

#[cfg(test)]
mod tests {
    use super::*;
    use std::test::Fail;

    #[test]
    fn words_of_two_messages(rt: HostRuntime) -> Result<(), Fail> {
        for (bits, check_bits, parity) in [(0, 0, 0), (1, 0b11_0110_1001, 1)] {
            let message = Message::new(bits)?;
            let word = message.word();
            assert_eq!(rt; message.check_bits(), Residue::new(check_bits)?);
            assert_eq!(rt; word.bits(), bits << 11 | check_bits << 1 | parity);
            assert_eq!(rt; word.syndrome(), Residue::new(0)?);
            assert!(rt; word.parity_checks());
        }
        Ok(())
    }

    #[test]
    fn the_place_of_one_change(rt: HostRuntime) -> Result<(), Fail> {
        let sent = Message::new(0b10_1100_0111_0101_1001)?.word();
        for power in [0, 9, 10, 27] {
            let word = Word::new(sent.bits() ^ 1 << (power + 1))?;
            assert!(rt; !word.parity_checks());
            let place = place_of(word.syndrome());
            assert_eq!(rt; place.map(|place| place.power()), Some(power));
        }
        Ok(())
    }

    #[test]
    fn syndromes_of_no_place(rt: HostRuntime) -> Result<(), Fail> {
        for syndrome in [0, 1023] {
            assert!(rt; place_of(Residue::new(syndrome)?).is_none());
        }
        Ok(())
    }

    // The number of the refusal of these bits, if there is one.
    fn number_of_refusal<const N: u32>(bits: u32) -> Option<u8> {
        Bits::<N>::new(bits).err().map(|refusal| refusal.number())
    }

    #[test]
    fn too_many_bits(rt: HostRuntime) {
        assert_eq!(rt; number_of_refusal::<10>(1023), None);
        assert_eq!(rt; number_of_refusal::<10>(1024), Some(17));
        assert_eq!(rt; number_of_refusal::<18>((1 << 18) - 1), None);
        assert_eq!(rt; number_of_refusal::<18>(1 << 18), Some(17));
        assert_eq!(rt; number_of_refusal::<29>((1 << 29) - 1), None);
        assert_eq!(rt; number_of_refusal::<29>(1 << 29), Some(17));
        assert_eq!(rt; number_of_refusal::<40>(u32::MAX), None);
    }
}
