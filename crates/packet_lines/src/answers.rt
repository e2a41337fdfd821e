//! What a line is answered.
ghost use Rattle.std.specs.Prelude.{◌≡◌, ℕ, IfOk, string_bytes};
ghost use Rattle.packet_lines.specs.Answers.{Answers, AnswersPack, AnswersUnpack};

use crate::reading::{Request, read_line};
use crate::reasons::ReadError;
use crate::texts::{codes_text, packet_text};
use packet::CodeNumbers;
use std::alloc::{AllocError, Global};

// The bytes of the longest packet, which is that of Rate 1.
const MAX_PACKET_BYTES: usize = 22;

/// What a line is answered: a packet, codes, a refusal, or why the line asks for nothing.
pub fn answer(heap: Global, line: &[u8]) -> Result<String, AllocError>
    ensures { IfOk result (λ s. Answers line.now (string_bytes s)) }
{
    match read_line(heap, line) {
        Ok(Request::Pack { rate, numbers }) => pack_answer(heap, rate, &numbers),
        Ok(Request::Unpack { rate, packet }) => unpack_answer(heap, rate, &packet),
        Err(ReadError::Line(reason)) => format!(in heap; "unreadable: {reason}"),
        Err(ReadError::OutOfMemory) => Err(AllocError),
    }
}

// What is answered to codes that are to be packed.
fn pack_answer(heap: Global, rate: u8, numbers: &CodeNumbers) -> Result<String, AllocError>
    ensures { IfOk result (λ s. AnswersPack rate numbers.now (string_bytes s)) }
{
    let mut packet = [0; MAX_PACKET_BYTES];
    match packet::pack(rate, numbers, &mut packet) {
        Ok(bytes) => packet_text(heap, &packet[..bytes]),
        Err(refusal) => format!(in heap; "{refusal}"),
    }
}

// What is answered to a packet that is to be unpacked.
fn unpack_answer(heap: Global, rate: u8, packet: &[u8]) -> Result<String, AllocError>
    ensures { IfOk result (λ s. AnswersUnpack rate packet.now (string_bytes s)) }
{
    match packet::unpack(rate, packet) {
        Ok(codes) => codes_text(heap, &codes.numbers()),
        Err(refusal) => format!(in heap; "{refusal}"),
    }
}
