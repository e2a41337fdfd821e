//! Why a line asks for nothing.
ghost use Rattle.std.specs.Prelude.{◌≡◌, Some};
ghost use Rattle.packet_lines.specs.declared.reasons.ReadError.TheVariants.{OutOfMemory, Line};
ghost use Rattle.packet_lines.specs.Texts.{error_text, reason_text};

use std::alloc::{AllocError, AllocFailed};
use std::error::Error;
use std::fmt;

/// What is wrong with a line: the first of these that holds.
#[derive(Clone, Copy, PartialEq, Eq, Debug)]
pub enum Unreadable {
    /// The first word is neither `pack` nor `unpack`.
    Verb,
    /// `pack` is not followed by 36 words.
    PackWords,
    /// `unpack` is not followed by two words.
    UnpackWords,
    /// The rate or a code is not decimal digits of a number from 0 to 255.
    Number,
    /// The packet is neither pairs of hexadecimal digits nor a hyphen.
    Packet,
}

impl fmt::Display for Unreadable {
    ghost output = { λ reason. Some (reason_text reason) };

    /// Writes the reason in words.
    fn fmt<W: fmt::Write>(&self, f: &mut fmt::Formatter<W>) -> fmt::Result {
        f.write_str(match self {
            Unreadable::Verb => "the first word is neither pack nor unpack",
            Unreadable::PackWords => "pack takes a rate and 35 codes, with single spaces between",
            Unreadable::UnpackWords =>
                "unpack takes a rate and a packet, with single spaces between",
            Unreadable::Number => "the rate or a code is not a decimal number from 0 to 255",
            Unreadable::Packet => "the packet is neither pairs of hexadecimal digits nor a hyphen",
        })
    }
}

impl Error for Unreadable {}

/// Why no request was read.
#[derive(Clone, Copy, PartialEq, Eq, Debug)]
pub enum ReadError {
    /// The line asks for nothing.
    Line(Unreadable),
    /// Memory ran out.
    OutOfMemory,
}

impl fmt::Display for ReadError {
    ghost output = { λ e. Some (error_text e) };

    /// Writes the reason in words.
    fn fmt<W: fmt::Write>(&self, f: &mut fmt::Formatter<W>) -> fmt::Result {
        match self {
            ReadError::Line(reason) => reason.fmt(f),
            ReadError::OutOfMemory => f.write_str("out of memory"),
        }
    }
}

impl Error for ReadError {}

impl From<Unreadable> for ReadError {
    ghost from_gives = { λ reason e. e ≡ Line reason };

    fn from(cause: Unreadable) -> ReadError {
        ReadError::Line(cause)
    }
}

impl From<AllocError> for ReadError {
    ghost from_gives = { λ _ e. e ≡ OutOfMemory };

    fn from(_e: AllocError) -> ReadError {
        ReadError::OutOfMemory
    }
}

impl<T: Drop> From<AllocFailed<T>> for ReadError {
    ghost from_gives = { λ _ e. e ≡ OutOfMemory };

    fn from(e: AllocFailed<T>) -> ReadError {
        AllocError::from(e).into()
    }
}
