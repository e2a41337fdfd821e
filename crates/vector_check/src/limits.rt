//! Packing into buffers of many lengths against its cases.
ghost use Rattle.std.specs.Prelude.{◌≡◌, ℕ, ◌≤◌, IfOk, List, MatchResult, Ok, string_bytes};
ghost use Rattle.std.specs.Option.{option_map};
ghost use Rattle.packet.specs.declared.codes.CodeNumbers.{CodeNumbers};
ghost use Rattle.packet_lines.specs.Reading.{reading};
ghost use Rattle.packet_lines.specs.Reading.Asked.{pack};
ghost use Rattle.vector_check.specs.Differences.{Finds, Reads};
ghost use Rattle.vector_check.specs.Limits.{AnswersInRoom, AnswersLimit, IsLimitCase, IsRightLimit, IsRoom, LimitLine};
ghost use Rattle.vector_check.specs.Limits.{LimitParts, NamesLimit, limit_of, limit_text, pack_line};

use crate::differences::difference;
use crate::files::{CaseError, CaseFile, Malformed};
use crate::words::last_word;
use packet::CodeNumbers;
use packet_lines::{Request, packet_text, read_line};
use std::alloc::{AllocError, Global};

/// The bytes of the largest output buffer of a case.
const MAX_ROOM: usize = 64;

/// A rate, the 35 codes, a buffer's length and the answer.
pub(crate) struct LimitFile;

impl CaseFile for LimitFile {
    ghost is_case = { λ _. IsLimitCase };

    ghost is_right = { λ _. IsRightLimit };

    ghost names = { λ _. NamesLimit };

    fn compare(&self, heap: Global, line: &str) -> Result<Option<String>, CaseError> {
        let case = limit_case(heap, line)?;
        Ok(case.difference(heap)?)
    }
}

// The case of a line.
#[derive(Drop)]
struct LimitCase<'a> {
    codes: &'a str,
    rate: u8,
    numbers: CodeNumbers,
    room: usize,
    answer: String,
}

// The case of a line, whose parts are read.
fn limit_case(heap: Global, line: &str) -> Result<LimitCase<'_>, CaseError>
    ensures { Reads (λ case. LimitLine line.now (limit_of case)) (IsLimitCase line.now → ⊥) result }
{
    let parts = limit_parts(heap, line)?;
    let room = room(parts.length)?;
    let codes = read_codes(heap, parts.codes)?;
    Ok(LimitCase {
        codes: parts.codes,
        rate: codes.rate,
        numbers: codes.numbers,
        room,
        answer: parts.answer,
    })
}

// The parts of a line.
#[derive(Drop)]
struct LimitWords<'a> {
    codes: &'a str,
    length: &'a str,
    answer: String,
}

// The parts of a line: the answer is the last word, or the last two if the first of these is `refused`.
fn limit_parts(heap: Global, line: &str) -> Result<LimitWords<'_>, CaseError>
    ensures { Reads (λ words. LimitParts line.now words.codes.now words.length.now (string_bytes words.answer))
        ((values length answer : List ℕ) → LimitParts line.now values length answer → ⊥) result }
{
    let (front, last) = last_word(line).ok_or(Malformed::Answer)?;
    let (front, word) = last_word(front).ok_or(Malformed::Length)?;
    if word != "refused" {
        return Ok(LimitWords {
            codes: front,
            length: word,
            answer: String::from_str(heap, last)?,
        });
    }
    let (codes, length) = last_word(front).ok_or(Malformed::Length)?;
    Ok(LimitWords {
        codes,
        length,
        answer: format!(in heap; "refused {last}")?,
    })
}

// The length of a buffer.
fn room(length: &str) -> Result<usize, Malformed>
    ensures { MatchResult result (IsRoom length.now) (λ _. (n : ℕ) → IsRoom length.now n → ⊥) }
{
    let room = length.parse::<usize>().map_err(|_| Malformed::Length)?;
    if room > MAX_ROOM {
        return Err(Malformed::Room);
    }
    Ok(room)
}

// A rate and its codes.
#[derive(Clone, Copy)]
struct RateCodes {
    rate: u8,
    numbers: CodeNumbers,
}

// The rate and the codes of a line.
fn read_codes(heap: Global, codes: &str) -> Result<RateCodes, CaseError>
    ensures { Reads (λ c. reading (pack_line codes.now) ≡ Ok (pack c.rate c.numbers))
        ((rate : ℕ) (c : CodeNumbers) → reading (pack_line codes.now) ≡ Ok (pack rate c) → ⊥) result }
{
    let line = format!(in heap; "pack {codes}")?;
    match read_line(heap, line.as_bytes())? {
        Request::Pack { rate, numbers } => Ok(RateCodes { rate, numbers }),
        Request::Unpack { .. } => Err(Malformed::Codes.into()),
    }
}

impl LimitCase<'_> {
    // What differs, where packing is not answered as the line says.
    fn difference(&self, heap: Global) -> Result<Option<String>, AllocError>
        requires { self.now.room ≤ 64 }
        ensures { IfOk result (λ found. Finds (AnswersLimit (limit_of self.now)) (limit_text (limit_of self.now))
            (string_bytes self.now.answer) (option_map string_bytes found)) }
    {
        let codes = self.codes;
        let room = self.room;
        let asked = format!(in heap; "pack {codes} into {room} bytes")?;
        let answered = answer_in_room(heap, self.rate, &self.numbers, room)?;
        difference(
            heap,
            asked.as_str(),
            self.answer.as_str(),
            answered.as_str(),
        )
    }
}

// What packing codes into a buffer of so many bytes is answered.
fn answer_in_room(
    heap: Global,
    rate: u8,
    numbers: &CodeNumbers,
    room: usize,
) -> Result<String, AllocError>
    requires { room ≤ 64 }
    ensures { IfOk result (λ s. AnswersInRoom rate numbers.now room (string_bytes s)) }
{
    let mut buffer = [0; MAX_ROOM];
    match packet::pack(rate, numbers, &mut buffer[..room]) {
        Ok(bytes) => packet_text(heap, &buffer[..bytes]),
        Err(refusal) => format!(in heap; "{refusal}"),
    }
}
