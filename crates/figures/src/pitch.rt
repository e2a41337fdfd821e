//! The pitch lag and the pitch gain of a subframe (IS-96, A.1.4.5). A pair is the lag in samples, and the gain in quarters.
ghost use Rattle.std.specs.Prelude.{◌≡◌, ◌<◌, ◌≤◌, true, false, MatchResult};
ghost use Rattle.service.specs.Rates.{rate_is};
ghost use Rattle.service.specs.Refusals.{refusal_is, refused_at};
ghost use Rattle.figures.specs.Pitch.{DecodesPitches, EncodesPitches, RefusesPitches};
ghost use Rattle.figures.specs.Pitch.{no_pitch, pitch_allowed, pitch_at, pitch_codes, pitch_of};

use packet_layout::PitchCodes;
use service::{Rate, Refusal};
use std::array::from_fn;

// The pair of PLAG 0: the pitch predictor adds nothing.
const NO_PITCH: (u32, u32) = (16, 0);

// PLAG is so much below the lag.
const LAG_OFFSET: u32 = 16;

// PGAIN is so much below the gain.
const GAIN_OFFSET: u32 = 1;

// The shortest lag that goes with a gain above 0.
const MIN_LAG: u32 = 17;

// The longest lag.
const MAX_LAG: u32 = 143;

// The largest gain: two, in quarters.
const MAX_GAIN: u32 = 8;

/// The lag and the gain that PLAG and PGAIN stand for: lag 16 and gain 0 at PLAG 0, whatever PGAIN is.
#[tactic(auto, unfolding(crate::specs::Pitch::pitch_of))]
pub fn decode_pitch(plag: u8, pgain: u8) -> (u32, u32)
    ensures { result ≡ pitch_of plag pgain }
{
    if plag == 0 {
        return NO_PITCH;
    }
    (u32::from(plag) + LAG_OFFSET, u32::from(pgain) + GAIN_OFFSET)
}

/// PLAG and PGAIN of this lag and gain, or refusal 11 at this subframe, counted from 1: for a gain above 8, a lag that is not 16
/// at gain 0, or one that is not 17 to 143 above it.
#[tactic(auto, unfolding(crate::specs::Pitch::pitch_allowed, crate::specs::Pitch::pitch_codes))]
pub fn encode_pitch(subframe: u8, pair: (u32, u32)) -> Result<(u8, u8), Refusal>
    ensures { MatchResult result (λ codes. (pitch_allowed pair ≡ true) × (codes ≡ pitch_codes pair))
        (λ e. (pitch_allowed pair ≡ false) × (refusal_is e ≡ refused_at 11 subframe)) }
{
    match pair {
        NO_PITCH => Ok((0, 0)),
        (lag @ MIN_LAG..=MAX_LAG, gain @ 1..=MAX_GAIN) => {
            Ok(((lag - LAG_OFFSET) as u8, (gain - GAIN_OFFSET) as u8))
        }
        _ => Err(Refusal::Pitch(subframe)),
    }
}

/// The lag and the gain of each pitch subframe of a frame, and lag 16 and gain 0 past the rate's subframes, whatever the codes are
/// there.
pub fn decode_pitches(rate: Rate, codes: PitchCodes) -> [(u32, u32); 4]
    ensures { DecodesPitches rate codes result }
{
    from_fn(
        |i|
            requires { i < 4 }
        { pair_at(rate, codes, i) },
    )
}

/// PLAG and PGAIN of each pitch subframe of a frame, and 0 past the rate's subframes, or the refusal of the first that
/// `encode_pitch` refuses. The pairs past the rate's subframes are not looked at.
pub fn encode_pitches(rate: Rate, pairs: [(u32, u32); 4]) -> Result<PitchCodes, Refusal>
    ensures { MatchResult result (EncodesPitches rate pairs) (λ e. RefusesPitches rate pairs (refusal_is e)) }
{
    let mut plag = [0; 4];
    let mut pgain = [0; 4];
    for i in 0..rate.pitch_subframes() {
        (plag[i], pgain[i]) = encode_pitch(i as u8 + 1, pairs[i])?;
    }
    Ok(PitchCodes { plag, pgain })
}

// What the codes of the subframe at an index stand for; lag 16 and gain 0 past the rate's subframes.
fn pair_at(rate: Rate, codes: PitchCodes, index: usize) -> (u32, u32)
    requires { index < 4 }
    ensures decoded { index < (rate_is rate).pitch_subframes → result ≡ pitch_at codes index }
    ensures past { (rate_is rate).pitch_subframes ≤ index → result ≡ no_pitch }
{
    if index < rate.pitch_subframes() {
        decode_pitch(codes.plag[index], codes.pgain[index])
    } else {
        NO_PITCH
    }
}
