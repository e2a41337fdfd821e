//! The sign, the codebook index and the increment of the codebook gain of a subframe (IS-96, A.1.4.6).
ghost use Rattle.std.specs.Prelude.{◌≡◌, ◌<◌, ◌≤◌, true, false, ◌&&◌, Some, None, is_some, unwrap_or};
ghost use Rattle.std.specs.Prelude.{IfSome, MatchOption, MatchResult};
ghost use Rattle.service.specs.Rates.{rate_is};
ghost use Rattle.service.specs.Refusals.{refusal_is, refused_at};
ghost use Rattle.figures.specs.Codebook.{DecodesCodebooks, EncodesCodebooks, RefusesCodebooks};
ghost use Rattle.figures.specs.Codebook.{cbgain_of, cbindex_of, codebook_allowed, codebook_at, codebook_codes, figure_of_codes};
ghost use Rattle.figures.specs.Codebook.{increment_number, increment_of, increments};
ghost use Rattle.figures.specs.Codebook.{index_allowed, index_of, sends_index_and_sign, sign_allowed, sign_of};

use packet_layout::CodebookCodes;
use service::{Rate, Refusal};
use std::array::from_fn;

// How many increments a rate has.
const INCREMENTS: u8 = 4;

// The increments in decibels, by their numbers, at Rates 1 and 1/2.
const HIGH_RATE_INCREMENTS: [i32; 4] = [-4, 0, 4, 8];

// The same at Rates 1/4 and 1/8.
const LOW_RATE_INCREMENTS: [i32; 4] = [-4, -2, 0, 2];

// If the sign is minus, CBGAIN is so much above the increment's number.
const SIGN_BIT: u8 = 4;

// How many indices there are.
const CODEBOOK_SIZE: u32 = 128;

// If the sign is minus, CBINDEX is so much above the index, modulo the codebook's size.
const MINUS_SHIFT: u32 = 89;

/// The sign of the codebook gain.
#[derive(Clone, Copy, PartialEq, Eq, Debug)]
pub enum Sign {
    /// CBGAIN is the increment's number, and CBINDEX the index.
    Plus,
    /// CBGAIN is 4 above the increment's number, and CBINDEX 89 above the index, modulo 128.
    Minus,
}

/// What CBINDEX and CBGAIN stand for.
#[derive(Clone, Copy, PartialEq, Eq, Debug)]
pub struct CodebookFigure {
    /// Always plus at Rate 1/8.
    pub sign: Sign,
    /// None at Rate 1/8, which sends no index.
    pub index: Option<u8>,
    /// One of the rate's four, in decibels.
    pub increment: i32,
}

/// What is to be encoded as CBINDEX and CBGAIN.
#[derive(Clone, Copy, PartialEq, Eq, Debug)]
pub struct CodebookParameter {
    /// Plus at Rate 1/8.
    pub sign: Sign,
    /// 0 to 127. Rate 1/8 does not look at it.
    pub index: u32,
    /// In decibels, one of the rate's four: -4, 0, 4 and 8 at Rates 1 and 1/2, -4, -2, 0 and 2 at Rates 1/4 and 1/8.
    pub increment: i32,
}

/// What CBINDEX and CBGAIN stand for at this rate.
#[tactic(auto, unfolding(crate::specs::Codebook::figure_of_codes))]
pub fn decode_codebook(rate: Rate, cbindex: u8, cbgain: u8) -> CodebookFigure
    ensures { result ≡ figure_of_codes rate cbindex cbgain }
{
    let sign = sign_of(rate, cbgain);
    CodebookFigure {
        sign,
        index: sends_index_and_sign(rate).then(|| index_of(sign, cbindex)),
        increment: increment_of(rate, cbgain),
    }
}

/// CBINDEX and CBGAIN of this parameter, or refusal 12 at this subframe, counted from 1: for an index above 127, an increment that
/// is not one of the rate's four, or minus at Rate 1/8. CBINDEX is 0 at Rate 1/8.
#[tactic(auto, unfolding(crate::specs::Codebook::codebook_allowed, crate::specs::Codebook::codebook_codes))]
pub fn encode_codebook(
    rate: Rate,
    subframe: u8,
    parameter: CodebookParameter,
) -> Result<(u8, u8), Refusal>
    ensures { MatchResult result
        (λ codes. (codebook_allowed rate parameter ≡ true) × (codes ≡ codebook_codes rate parameter))
        (λ e. (codebook_allowed rate parameter ≡ false) × (refusal_is e ≡ refused_at 12 subframe)) }
{
    let refusal = Refusal::Codebook(subframe);
    let Some(cbindex) = cbindex_of(rate, parameter.sign, parameter.index) else {
        return Err(refusal);
    };
    let Some(cbgain) = cbgain_of(rate, parameter.sign, parameter.increment) else {
        return Err(refusal);
    };
    Ok((cbindex, cbgain))
}

/// What CBINDEX and CBGAIN of each codebook subframe of a frame stand for; none past the rate's subframes.
pub fn decode_codebooks(rate: Rate, codes: CodebookCodes) -> [Option<CodebookFigure>; 8]
    ensures { DecodesCodebooks rate codes result }
{
    from_fn(
        |i|
            requires { i < 8 }
        { figure_at(rate, codes, i) },
    )
}

/// CBINDEX and CBGAIN of each codebook subframe of a frame, and 0 past the rate's subframes, or the refusal of the first that
/// `encode_codebook` refuses. The parameters past the rate's subframes are not looked at.
pub fn encode_codebooks(
    rate: Rate,
    parameters: [CodebookParameter; 8],
) -> Result<CodebookCodes, Refusal>
    ensures { MatchResult result (EncodesCodebooks rate parameters) (λ e. RefusesCodebooks rate parameters (refusal_is e)) }
{
    let mut cbindex = [0; 8];
    let mut cbgain = [0; 8];
    for i in 0..rate.codebook_subframes() {
        (cbindex[i], cbgain[i]) = encode_codebook(rate, i as u8 + 1, parameters[i])?;
    }
    Ok(CodebookCodes { cbindex, cbgain })
}

// What the codes of the subframe at an index stand for; none past the rate's subframes.
fn figure_at(rate: Rate, codes: CodebookCodes, index: usize) -> Option<CodebookFigure>
    requires { index < 8 }
    ensures decoded { index < (rate_is rate).codebook_subframes → result ≡ Some (codebook_at rate codes index) }
    ensures past { (rate_is rate).codebook_subframes ≤ index → result ≡ None }
{
    if index < rate.codebook_subframes() {
        Some(decode_codebook(rate, codes.cbindex[index], codes.cbgain[index]))
    } else {
        None
    }
}

// Whether the rate sends an index, and a sign with the increment's number: all but Rate 1/8 do.
fn sends_index_and_sign(rate: Rate) -> bool
    ensures { result ≡ sends_index_and_sign rate }
{
    rate != Rate::Eighth
}

// The increments of the rate, by their numbers.
fn increments(rate: Rate) -> [i32; 4]
    ensures { result ≡ increments rate }
{
    match rate {
        Rate::Full | Rate::Half => HIGH_RATE_INCREMENTS,
        Rate::Quarter | Rate::Eighth => LOW_RATE_INCREMENTS,
    }
}

// The sign that CBGAIN stands for.
fn sign_of(rate: Rate, cbgain: u8) -> Sign
    ensures { result ≡ sign_of rate cbgain }
{
    if sends_index_and_sign(rate) && cbgain >= SIGN_BIT {
        Sign::Minus
    } else {
        Sign::Plus
    }
}

// The increment that CBGAIN stands for.
fn increment_of(rate: Rate, cbgain: u8) -> i32
    ensures { result ≡ increment_of rate cbgain }
{
    increments(rate)[usize::from(cbgain % INCREMENTS)]
}

// The index that CBINDEX stands for.
fn index_of(sign: Sign, cbindex: u8) -> u8
    ensures { result ≡ index_of sign cbindex }
{
    match sign {
        Sign::Plus => cbindex,
        Sign::Minus => ((u32::from(cbindex) + CODEBOOK_SIZE - MINUS_SHIFT) % CODEBOOK_SIZE) as u8,
    }
}

// The number of an increment, if it is one of the rate's four.
#[tactic(auto, unfolding(crate::specs::Codebook::increment_number))]
fn increment_number(rate: Rate, increment: i32) -> Option<usize>
    ensures value { result ≡ increment_number rate increment }
    ensures within { IfSome result (λ number. number < 4) }
{
    increments(rate).iter().position(|z| *z == increment)
}

// CBINDEX, if the rate has this sign and this index.
fn cbindex_of(rate: Rate, sign: Sign, index: u32) -> Option<u8>
    ensures { MatchOption result (sign_allowed rate sign && index_allowed rate index ≡ false)
        (λ cbindex. (sign_allowed rate sign && index_allowed rate index ≡ true) × (cbindex ≡ cbindex_of rate sign index)) }
{
    match (rate, sign) {
        (Rate::Eighth, Sign::Plus) => Some(0),
        (Rate::Eighth, Sign::Minus) => None,
        _ if index >= CODEBOOK_SIZE => None,
        (_, Sign::Plus) => Some(index as u8),
        (_, Sign::Minus) => Some(((index + MINUS_SHIFT) % CODEBOOK_SIZE) as u8),
    }
}

// CBGAIN, if the rate has this increment.
fn cbgain_of(rate: Rate, sign: Sign, increment: i32) -> Option<u8>
    ensures { MatchOption result (is_some (increment_number rate increment) ≡ false)
        (λ cbgain. (is_some (increment_number rate increment) ≡ true)
        × (cbgain ≡ cbgain_of sign (unwrap_or (increment_number rate increment) 0))) }
{
    let number = increment_number(rate, increment)? as u8;
    Some(match sign {
        Sign::Plus => number,
        Sign::Minus => number + SIGN_BIT,
    })
}
