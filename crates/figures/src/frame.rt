//! The codes of a whole frame.
ghost use Rattle.std.specs.Prelude.{◌≡◌};
ghost use Rattle.figures.specs.Frame.{AnswersFrame};
ghost use Rattle.figures.specs.FrameLaws.{CodebookCodesOfFrameFit, PitchCodesOfFrameFit};

use crate::codebook::{CodebookParameter, encode_codebooks};
use crate::pitch::encode_pitches;
use lsp::LspCodes;
use packet::{CodeNumbers, Codes};
use packet_layout::{CodebookCodes, PitchCodes};
use service::Refusal;

/// The codes of a frame, with CBSEED 0: at the rate of its LSP codes, these codes and those of its pitch pairs and codebook
/// parameters. Refuses with 11 at the first pitch subframe of the rate that `encode_pitch` refuses, and then with 12 at the first
/// codebook subframe that `encode_codebook` refuses. What stands past the rate's subframes is not looked at.
pub fn encode_frame(
    lsp: LspCodes,
    pairs: [(u32, u32); 4],
    parameters: [CodebookParameter; 8],
) -> Result<Codes, Refusal>
    ensures { AnswersFrame lsp.rate lsp.codes pairs parameters result }
{
    let pitch = encode_pitches(lsp.rate, pairs)?;
    let codebook = encode_codebooks(lsp.rate, parameters)?;
    Ok(frame_codes(lsp, pitch, codebook))
}

// The codes of a frame from their parts, with CBSEED 0.
#[tactic(auto, using(crate::proofs::Whole::parts_within))]
fn frame_codes(lsp: LspCodes, pitch: PitchCodes, codebook: CodebookCodes) -> Codes
    requires pitch { PitchCodesOfFrameFit lsp.rate pitch }
    requires codebook { CodebookCodesOfFrameFit lsp.rate codebook }
    ensures rate { result.rate ≡ lsp.rate }
    ensures lsp { result.numbers.lsp ≡ lsp.codes }
    ensures pitch { result.numbers.pitch ≡ pitch }
    ensures codebook { result.numbers.codebook ≡ codebook }
    ensures cbseed { result.numbers.cbseed ≡ 0 }
{
    let lsp_codes = lsp.codes;
    let numbers = CodeNumbers {
        lsp: lsp_codes,
        pitch,
        codebook,
        cbseed: 0,
    };
    Codes {
        rate: lsp.rate,
        numbers,
    }
}
