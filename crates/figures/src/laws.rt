//! The laws of the figures, each a theorem that the contract of a function carries.
ghost use Rattle.figures.specs.Frame.{OneFrameAnswer};
ghost use Rattle.figures.specs.FrameLaws.{EncodedCodesFit, FramesReadAsSent, OneCodebookAnswer, OnePitchAnswer};
ghost use Rattle.figures.specs.Laws.{CodebookRoundTrips, PitchRoundTrips};

/// Carries a theorem: decoding the codes of an accepted pair gives the pair, and these codes fit their bits in a packet. Of codes
/// that fit, decoding gives an accepted pair, and encoding this gives the same codes, but that PGAIN becomes 0 if PLAG is 0.
#[tactic(auto, using(crate::proofs::Pitches::round_trips))]
pub fn pitch_round_trips()
    ensures { PitchRoundTrips }
{}

/// Carries a theorem: decoding the codes of an accepted parameter gives the parameter, at Rate 1/8 without its index, and these
/// codes fit their bits in a packet of the rate. Of codes that fit, decoding gives an accepted parameter, and encoding this
/// gives the same codes.
#[tactic(auto, using(crate::proofs::Codebooks::round_trips))]
pub fn codebook_round_trips()
    ensures { CodebookRoundTrips }
{}

/// Carries a theorem: the codes that `encode_pitches` and `encode_codebooks` answer are within the widths that a packet of the
/// rate has for them, so that a code which the rate lacks is 0.
#[tactic(auto, using(crate::proofs::Frames::encoded_codes_fit))]
pub fn encoded_codes_fit()
    ensures { EncodedCodesFit }
{}

/// Carries a theorem: decoding the codes of an accepted frame gives its pairs or parameters in the rate's subframes; past these it
/// gives lag 16 and gain 0, or no figure.
#[tactic(auto, using(crate::proofs::Frames::frames_read_as_sent))]
pub fn frames_read_as_sent()
    ensures { FramesReadAsSent }
{}

/// Carries a theorem: the contracts of `decode_pitches` and `encode_pitches` allow one answer only, and no pairs may be both
/// encoded and refused.
#[tactic(auto, using(crate::proofs::Frames::one_pitch_answer))]
pub fn one_pitch_answer()
    ensures { OnePitchAnswer }
{}

/// Carries a theorem: the contracts of `decode_codebooks` and `encode_codebooks` allow one answer only, and no parameters may be
/// both encoded and refused.
#[tactic(auto, using(crate::proofs::Frames::one_codebook_answer))]
pub fn one_codebook_answer()
    ensures { OneCodebookAnswer }
{}

/// Carries a theorem: two answers of `encode_frame` to the same frame are the same codes at the same rate, or the same refusal.
#[tactic(auto, using(crate::proofs::Whole::one_frame_answer))]
pub fn one_frame_answer()
    ensures { OneFrameAnswer }
{}
