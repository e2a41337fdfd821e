//! The figures that the pitch and codebook codes of a packet stand for, both ways: a lag and a gain, and a sign, an index and an
//! increment. And the codes of a whole frame.
#![tactic(auto)]

mod codebook;
mod frame;
mod laws;
mod pitch;

pub use codebook::{
    CodebookFigure, CodebookParameter, Sign, decode_codebook, decode_codebooks, encode_codebook,
    encode_codebooks,
};
pub use frame::encode_frame;
pub use laws::{
    codebook_round_trips, encoded_codes_fit, frames_read_as_sent, one_codebook_answer,
    one_frame_answer, one_pitch_answer, pitch_round_trips,
};
pub use packet_layout::{CodebookCodes, PitchCodes};
pub use pitch::{decode_pitch, decode_pitches, encode_pitch, encode_pitches};

#[cfg(test)]
mod tests {
    use super::*;
    use lsp::LspCodes;
    use packet::CodeNumbers;
    use service::{Rate, Refusal};
    use std::test::Fail;

    #[test]
    fn pitch_pairs(rt: HostRuntime) {
        assert_eq!(rt; decode_pitch(0, 7), (16, 0));
        for (plag, pgain, lag, gain) in [(0, 0, 16, 0), (1, 0, 17, 1), (127, 7, 143, 8)] {
            assert_eq!(rt; decode_pitch(plag, pgain), (lag, gain));
            assert_eq!(rt; encode_pitch(1, (lag, gain)), Ok((plag, pgain)));
        }
        for pair in [(16, 1), (17, 0), (144, 8), (143, 9)] {
            assert_eq!(rt; encode_pitch(3, pair), Err(Refusal::Pitch(3)));
        }
    }

    // The third pair is past the two subframes of Rate 1/2.
    #[test]
    fn pitch_pairs_of_a_frame(rt: HostRuntime) {
        let pairs = [(143, 8), (16, 0), (17, 9), (15, 0)];
        let codes = PitchCodes {
            plag: [127, 0, 0, 0],
            pgain: [7, 0, 0, 0],
        };
        assert_eq!(rt; encode_pitches(Rate::Half, pairs), Ok(codes));
        assert_eq!(rt; encode_pitches(Rate::Full, pairs), Err(Refusal::Pitch(3)));
        let read = [(143, 8), (16, 0), (16, 0), (16, 0)];
        assert_eq!(rt; decode_pitches(Rate::Half, codes), read);
    }

    fn parameter(sign: Sign, index: u32, increment: i32) -> CodebookParameter {
        CodebookParameter {
            sign,
            index,
            increment,
        }
    }

    #[test]
    fn codebook_figures(rt: HostRuntime) {
        for (cbindex, cbgain, sign, index, increment) in [
            (127, 3, Sign::Plus, 127, 8),
            (0, 4, Sign::Minus, 39, -4),
            (89, 7, Sign::Minus, 0, 8),
        ] {
            let figure = decode_codebook(Rate::Full, cbindex, cbgain);
            assert_eq!(rt; figure.sign, sign);
            assert_eq!(rt; figure.index, Some(index));
            assert_eq!(rt; figure.increment, increment);
            let sent = parameter(sign, u32::from(index), increment);
            assert_eq!(rt; encode_codebook(Rate::Full, 1, sent), Ok((cbindex, cbgain)));
        }
        let figure = decode_codebook(Rate::Eighth, 127, 7);
        assert_eq!(rt; figure.sign, Sign::Plus);
        assert_eq!(rt; figure.index, None);
        assert_eq!(rt; figure.increment, 2);
    }

    #[test]
    fn codebook_refusals(rt: HostRuntime) {
        for (rate, sent) in [
            (Rate::Half, parameter(Sign::Plus, 128, 0)),
            (Rate::Full, parameter(Sign::Minus, 127, 2)),
            (Rate::Quarter, parameter(Sign::Plus, 0, 8)),
            (Rate::Eighth, parameter(Sign::Minus, 0, 2)),
        ] {
            assert_eq!(rt; encode_codebook(rate, 2, sent), Err(Refusal::Codebook(2)));
        }
    }

    // The second parameter is past the one subframe of Rate 1/8.
    #[test]
    fn codebook_parameters_of_a_frame(rt: HostRuntime) {
        let mut parameters = [parameter(Sign::Plus, 128, 2); 8];
        let codes = CodebookCodes {
            cbindex: [0; 8],
            cbgain: [3, 0, 0, 0, 0, 0, 0, 0],
        };
        assert_eq!(rt; encode_codebooks(Rate::Eighth, parameters), Ok(codes));
        parameters[0].index = 127;
        let refusal = Refusal::Codebook(2);
        assert_eq!(rt; encode_codebooks(Rate::Quarter, parameters), Err(refusal));
        let read = decode_codebooks(Rate::Eighth, codes);
        assert_eq!(rt; read[0].map(|figure| figure.increment), Some(2));
        assert_eq!(rt; read[1], None);
    }

    // At Rate 1/4 the second pitch pair and the third codebook parameter are past the subframes.
    #[test]
    fn codes_of_a_frame(rt: HostRuntime) -> Result<(), Fail> {
        let lsp = LspCodes::new(Rate::Quarter, [1, 0, 1, 0, 1, 0, 1, 0, 1, 0])?;
        let mut pairs = [(17, 1), (0, 0), (0, 0), (0, 0)];
        let mut parameters = [parameter(Sign::Plus, 128, 0); 8];
        parameters[0] = parameter(Sign::Plus, 127, 2);
        parameters[1] = parameter(Sign::Minus, 0, -4);
        let codes = encode_frame(lsp, pairs, parameters)?;
        let expected = CodeNumbers {
            lsp: lsp.codes(),
            pitch: PitchCodes {
                plag: [1, 0, 0, 0],
                pgain: [0; 4],
            },
            codebook: CodebookCodes {
                cbindex: [127, 89, 0, 0, 0, 0, 0, 0],
                cbgain: [3, 4, 0, 0, 0, 0, 0, 0],
            },
            cbseed: 0,
        };
        assert_eq!(rt; codes.rate(), Rate::Quarter);
        assert_eq!(rt; codes.numbers(), expected);
        parameters[1] = parameter(Sign::Plus, 128, 0);
        assert_eq!(rt;
            encode_frame(lsp, pairs, parameters),
            Err(Refusal::Codebook(2))
        );
        pairs[0] = (16, 1);
        assert_eq!(rt;
            encode_frame(lsp, pairs, parameters),
            Err(Refusal::Pitch(1))
        );
        Ok(())
    }
}
