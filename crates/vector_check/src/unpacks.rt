//! Unpacking against its cases.
ghost use Rattle.std.specs.Prelude.{◌≡◌, IfOk, MatchResult, string_bytes};
ghost use Rattle.std.specs.Option.{option_map};
ghost use Rattle.packet_lines.specs.Answers.{Answers};
ghost use Rattle.vector_check.specs.Differences.{Finds};
ghost use Rattle.vector_check.specs.Packs.{unpack_of};
ghost use Rattle.vector_check.specs.Unpacks.{IsRightUnpack, IsUnpackCase, NamesUnpack, UnpackLine};

use crate::differences::line_difference;
use crate::files::{CaseError, CaseFile, Malformed};
use crate::words::first_word;
use std::alloc::{AllocError, Global};

/// A rate, the bytes and the answer.
pub(crate) struct UnpackFile;

impl CaseFile for UnpackFile {
    ghost is_case = { λ _. IsUnpackCase };

    ghost is_right = { λ _. IsRightUnpack };

    ghost names = { λ _. NamesUnpack };

    fn compare(&self, heap: Global, line: &str) -> Result<Option<String>, CaseError> {
        let case = unpack_case(line)?;
        Ok(case.difference(heap)?)
    }
}

// The case of a line.
#[derive(Clone, Copy)]
struct UnpackCase<'a> {
    rate: &'a str,
    bytes: &'a str,
    answer: &'a str,
}

// The parts of a line.
fn unpack_case(line: &str) -> Result<UnpackCase<'_>, Malformed>
    ensures { MatchResult result (λ case. UnpackLine line.now case.rate.now case.bytes.now case.answer.now)
        (λ _. IsUnpackCase line.now → ⊥) }
{
    let (rate, rest) = first_word(line).ok_or(Malformed::Bytes)?;
    let (bytes, answer) = first_word(rest).ok_or(Malformed::Answer)?;
    Ok(UnpackCase {
        rate,
        bytes,
        answer,
    })
}

impl UnpackCase<'_> {
    // What differs, where the bytes do not give the answer.
    fn difference(self, heap: Global) -> Result<Option<String>, AllocError>
        ensures { IfOk result (λ found. Finds (Answers (unpack_of self.entry.rate.now self.entry.bytes.now))
            (unpack_of self.entry.rate.now self.entry.bytes.now) self.entry.answer.now
            (option_map string_bytes found)) }
    {
        let UnpackCase {
            rate,
            bytes,
            answer,
        } = self;
        let unpack = format!(in heap; "unpack {rate} {bytes}")?;
        line_difference(heap, unpack.as_str(), answer)
    }
}
