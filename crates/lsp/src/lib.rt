//! LSP codes, what they stand for, and the LSP memories of an end. Values, memories and frequencies are in grains: a grain is
//! the sampling frequency divided by 10,813,440,000.
#![tactic(auto)]

mod codes;
mod decay;
mod histories;
mod laws;
mod quantizers;
mod states;
mod ten;

pub use codes::LspCodes;
pub use histories::{Event, replay};
pub use laws::{
    agreement, code_of_value, decay_law, decay_rounds_down, ends_agree, nearest_code, rounding,
    stays_in_range,
};
pub use quantizers::top_code;
pub use states::Memories;

#[cfg(test)]
mod tests {
    use crate::decay::Memory;
    use crate::{Event, LspCodes, Memories, replay};
    use service::Rate;
    use std::test::Fail;

    // Around zero, at halves, and at both ends of the range.
    #[test]
    fn the_decay_rounds_down(rt: HostRuntime) {
        assert_eq!(rt; Memory { grains: 0 }.decay().grains, 0);
        assert_eq!(rt; Memory { grains: 1 }.decay().grains, 1);
        assert_eq!(rt; Memory { grains: -1 }.decay().grains, -1);
        assert_eq!(rt; Memory { grains: 16 }.decay().grains, 15);
        assert_eq!(rt; Memory { grains: -16 }.decay().grains, -14);
        assert_eq!(rt;
            Memory {
                grains: 8_589_934_591,
            }
            .decay()
            .grains,
            7_784_628_223
        );
        assert_eq!(rt;
            Memory {
                grains: -8_589_934_591,
            }
            .decay()
            .grains,
            -7_784_628_223
        );
    }

    #[test]
    fn offsets_of_any_size_have_a_code(rt: HostRuntime) -> Result<(), Fail> {
        let ones = LspCodes::new(Rate::Eighth, [1; 10])?;
        assert_eq!(rt; LspCodes::quantize(Rate::Eighth, [0; 10]), ones);
        assert_eq!(rt; LspCodes::quantize(Rate::Eighth, [-1; 10]).codes(), [0; 10]);
        assert_eq!(rt;
            LspCodes::quantize(Rate::Full, [i64::MAX; 10]).codes(),
            [15; 10]
        );
        assert_eq!(rt;
            LspCodes::quantize(Rate::Full, [i64::MIN; 10]).codes(),
            [0; 10]
        );
        Ok(())
    }

    // The memories of LSP 1: code 15 of Rate 1 is 270,336,000, of which an erasure leaves 29/32.
    #[test]
    fn events_are_replayed(rt: HostRuntime) -> Result<(), Fail> {
        let codes = LspCodes::new(Rate::Full, [15; 10])?;
        let mut events = [Event::Packet(codes), Event::Blank, Event::Erasure];
        assert_eq!(rt; replay(&events).grains()[0], 244_992_000);
        assert_eq!(rt; replay(&events).frequencies()[0], 736_512_000);
        events[2] = Event::Restart;
        assert_eq!(rt; replay(&events), Memories::new());
        Ok(())
    }

    #[test]
    fn a_code_too_wide_is_refused(rt: HostRuntime) {
        let refused = LspCodes::new(Rate::Half, [3, 3, 3, 3, 3, 3, 3, 3, 3, 4]);
        assert_eq!(rt; refused.err().map(|r| r.number()), Some(17));
    }
}
