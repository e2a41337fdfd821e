//! The check of reels against its cases.
ghost use Rattle.std.specs.Prelude.{◌≡◌, ◌++◌, IfOk, MatchResult, Some, codes, string_bytes};
ghost use Rattle.std.specs.Option.{option_map};
ghost use Rattle.vector_check.specs.Differences.{Finds};
ghost use Rattle.vector_check.specs.Reels.{AnswersReel, IsReelCase, IsRightReel, NamesReel, ReelLine, reel_of};

use crate::differences::difference;
use crate::files::{CaseError, CaseFile, Malformed};
use crate::words::first_word;
use std::alloc::{AllocError, Global};
use std::collections::BTreeMap;

/// The name of a reel and the answer of its check; the reels that were read, by name.
#[derive(Drop)]
pub(crate) struct ReelFile {
    pub(crate) reels: BTreeMap<String, Vec<u8>>,
}

impl CaseFile for ReelFile {
    ghost is_case = { λ file. IsReelCase (reel_of file.reels) };

    ghost is_right = { λ file. IsRightReel (reel_of file.reels) };

    ghost names = { λ file. NamesReel (reel_of file.reels) };

    fn compare(&self, heap: Global, line: &str) -> Result<Option<String>, CaseError> {
        let case = reel_case(&self.reels, line)?;
        Ok(case.difference(heap)?)
    }
}

// The case of a line.
#[derive(Clone, Copy)]
struct ReelCase<'a> {
    name: &'a str,
    bytes: &'a [u8],
    answer: &'a str,
}

// The parts of a line, and the reel that it names.
fn reel_case<'a>(
    reels: &'a BTreeMap<String, Vec<u8>>,
    line: &'a str,
) -> Result<ReelCase<'a>, Malformed>
    ensures { MatchResult result
        (λ case. ReelLine (reel_of reels.now) line.now case.name.now case.bytes.now case.answer.now)
        (λ _. IsReelCase (reel_of reels.now) line.now → ⊥) }
{
    let (name, answer) = first_word(line).ok_or(Malformed::Answer)?;
    let bytes = reels.get(name).ok_or(Malformed::Reel)?;
    Ok(ReelCase {
        name,
        bytes,
        answer,
    })
}

impl ReelCase<'_> {
    // What differs, where the bytes of the reel do not give the answer.
    fn difference(self, heap: Global) -> Result<Option<String>, AllocError>
        ensures { IfOk result (λ found. Finds (AnswersReel self.entry.bytes.now)
            (codes "reel-check " ++ self.entry.name.now) self.entry.answer.now (option_map string_bytes found)) }
    {
        let ReelCase {
            name,
            bytes,
            answer,
        } = self;
        let asked = format!(in heap; "reel-check {name}")?;
        let answered = reel_text::answer_text(heap, bytes)?;
        difference(heap, asked.as_str(), answer, answered.as_str())
    }
}
