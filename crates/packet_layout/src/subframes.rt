//! The codes of the subframes of a frame. Subframes count from 1, and the codes of subframe 1 stand at index 0.

/// PLAG and PGAIN of the pitch subframes of a frame, of which Rate 1 has most.
#[derive(Clone, Copy, PartialEq, Eq, Debug, Default)]
pub struct PitchCodes {
    /// PLAG of each pitch subframe.
    pub plag: [u8; 4],
    /// PGAIN of each pitch subframe.
    pub pgain: [u8; 4],
}

/// CBINDEX and CBGAIN of the codebook subframes of a frame, of which Rate 1 has most.
#[derive(Clone, Copy, PartialEq, Eq, Debug, Default)]
pub struct CodebookCodes {
    /// CBINDEX of each codebook subframe.
    pub cbindex: [u8; 8],
    /// CBGAIN of each codebook subframe.
    pub cbgain: [u8; 8],
}
