//! What a line asks for.
ghost use Rattle.std.specs.Prelude.{◌≡◌, true, IfOk, map, length, vec_len};
ghost use Rattle.std.specs.Str.{all_ascii_digits};
ghost use Rattle.std.specs.Str.Lines.{strip_carriage_return};
ghost use Rattle.packet_lines.specs.Reading.{Gives, asked, number, numbers, pack_words, packet_bytes, reading, request_of, unpack_words, words};

use crate::reasons::{ReadError, Unreadable};
use hex::FromHexError;
use packet::CodeNumbers;
use std::alloc::{AllocError, Global};

/// What a line asks for.
#[derive(PartialEq, Eq, Debug, Drop)]
pub enum Request {
    /// To pack codes at the rate that has this number.
    Pack { rate: u8, numbers: CodeNumbers },
    /// To unpack a packet at the rate that has this number.
    Unpack { rate: u8, packet: Vec<u8> },
}

// Behind `pack` stand the rate and the codes.
const PACK_NUMBERS: usize = 36;

/// What a line asks for, or why it asks for nothing. A carriage return at its end is not looked at.
pub fn read_line(heap: Global, line: &[u8]) -> Result<Request, ReadError>
    ensures { Gives asked result (reading line.now) }
{
    let words = words(heap, without_return(line))?;
    read_words(heap, &words)
}

// A line without the carriage return at its end, if it has one.
fn without_return(line: &[u8]) -> &[u8]
    ensures { result.now ≡ strip_carriage_return line.now }
{
    match line {
        [front @ .., b'\r'] => front,
        _ => line,
    }
}

// What words ask for.
fn read_words(heap: Global, words: &[&[u8]]) -> Result<Request, ReadError>
    ensures { Gives asked result (request_of (map (λ w. w.now) words.now)) }
{
    let [verb, values @ ..] = words else {
        return Err(Unreadable::Verb.into());
    };
    if *verb == b"pack".as_slice() {
        read_pack(heap, values)
    } else if *verb == b"unpack".as_slice() {
        read_unpack(heap, values)
    } else {
        Err(Unreadable::Verb.into())
    }
}

// What stands between the spaces of a line.
fn words(heap: Global, line: &[u8]) -> Result<Vec<&[u8]>, AllocError>
    ensures { IfOk result (λ v. map (λ w. w.now) v.items ≡ words line.now) }
{
    line.split(|byte| *byte == b' ').collect(heap)
}

// What the words behind `pack` ask for.
fn read_pack(heap: Global, words: &[&[u8]]) -> Result<Request, ReadError>
    ensures { Gives asked result (pack_words (map (λ w. w.now) words.now)) }
{
    if words.len() != PACK_NUMBERS {
        return Err(Unreadable::PackWords.into());
    }
    let values = numbers(heap, words)?;
    Ok(Request::Pack {
        rate: values[0],
        numbers: CodeNumbers::from_order(values[1..].try_into().unwrap()),
    })
}

// What the words behind `unpack` ask for.
fn read_unpack(heap: Global, words: &[&[u8]]) -> Result<Request, ReadError>
    ensures { Gives asked result (unpack_words (map (λ w. w.now) words.now)) }
{
    let [rate, packet] = words else {
        return Err(Unreadable::UnpackWords.into());
    };
    let rate = number(rate)?;
    let packet = packet_bytes(heap, packet)?;
    Ok(Request::Unpack { rate, packet })
}

// The number that a word is.
fn number(word: &[u8]) -> Result<u8, Unreadable>
    ensures { result ≡ number word.now }
{
    // Else parse would take a plus too.
    if !is_digits(word) {
        return Err(Unreadable::Number);
    }
    digits_number(word)
}

// The number that decimal digits are.
fn digits_number(word: &[u8]) -> Result<u8, Unreadable>
    requires { all_ascii_digits word.now ≡ true }
    ensures { result ≡ number word.now }
{
    str::from_utf8(word)
        .unwrap()
        .parse::<u8>()
        .map_err(|_| Unreadable::Number)
}

// Whether a word has decimal digits alone.
fn is_digits(word: &[u8]) -> bool
    ensures { result ≡ all_ascii_digits word.now }
{
    word.iter().all(|byte| byte.is_ascii_digit())
}

// The numbers that words are.
fn numbers(heap: Global, words: &[&[u8]]) -> Result<Vec<u8>, ReadError>
    ensures value { Gives (λ v. v.items) result (numbers (map (λ w. w.now) words.now)) }
    ensures count { IfOk result (λ v. vec_len v ≡ length words.now) }
{
    let mut values = Vec::new(heap);
    for word in words {
        values.push(number(word)?)?;
    }
    Ok(values)
}

// The bytes of a packet that a word is.
fn packet_bytes(heap: Global, word: &[u8]) -> Result<Vec<u8>, ReadError>
    ensures { Gives (λ v. v.items) result (packet_bytes word.now) }
{
    if word == b"-".as_slice() {
        return Ok(Vec::new(heap));
    }
    if word.is_empty() {
        return Err(Unreadable::Packet.into());
    }
    hex::decode(heap, word).map_err(|e| match e {
        FromHexError::OutOfMemory => ReadError::OutOfMemory,
        _ => ReadError::Line(Unreadable::Packet),
    })
}
