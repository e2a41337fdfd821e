//! Files of cases, one in each line.
ghost use Rattle.std.specs.Prelude.{◌≡◌, ℕ, List, Some, string_bytes};
ghost use Rattle.vector_check.specs.declared.files.CaseError.TheVariants.{Line, OutOfMemory};
ghost use Rattle.vector_check.specs.Differences.{IsReadError, Judges};

use packet_lines::{ReadError, Unreadable};
use std::alloc::{AllocError, Global};
use std::fmt;

/// A kind of file of cases.
pub(crate) trait CaseFile {
    // a line has the form of the file
    ghost is_case: { Self → List ℕ → Type 0 };

    // and what it says is so
    ghost is_right: { Self → List ℕ → Type 0 };

    // or it is not so, and a text names what differs
    ghost names: { Self → List ℕ → List ℕ → Type 0 };

    /// What differs in the case of a line: nothing if it is right.
    fn compare(&self, heap: Global, line: &str) -> Result<Option<String>, CaseError>
        ensures { Judges string_bytes (is_case self.now line.now) (is_right self.now line.now)
            (names self.now line.now) result };
}

/// What a line lacks to have the form of its file.
#[derive(Clone, Copy, PartialEq, Eq, Debug)]
pub(crate) enum Malformed {
    /// There is no answer.
    Answer,
    /// There are no bytes.
    Bytes,
    /// There are no codes.
    Codes,
    /// There is no length of a buffer.
    Length,
    /// There is no packet.
    Packet,
    /// The reel was not read.
    Reel,
    /// The buffer is too long.
    Room,
    /// The codes cannot be read.
    Unreadable(Unreadable),
}

impl fmt::Display for Malformed {
    /// Writes what the file has: a line that lacks something.
    fn fmt<W: fmt::Write>(&self, f: &mut fmt::Formatter<W>) -> fmt::Result {
        match self {
            Malformed::Answer => f.write_str("a line without an answer"),
            Malformed::Bytes => f.write_str("a line without bytes"),
            Malformed::Codes => f.write_str("a line without codes"),
            Malformed::Length => f.write_str("a line without a length"),
            Malformed::Packet => f.write_str("a line without a packet"),
            Malformed::Reel => f.write_str("a line without a reel that was read"),
            Malformed::Room => f.write_str("a buffer of more than 64 bytes"),
            Malformed::Unreadable(reason) => write!(f, "a line without codes: {reason}"),
        }
    }
}

/// Why a case was not compared.
#[derive(Clone, Copy, PartialEq, Eq, Debug)]
pub(crate) enum CaseError {
    /// The line does not have the form of its file.
    Line(Malformed),
    /// Memory ran out.
    OutOfMemory,
}

impl From<Malformed> for CaseError {
    ghost from_gives = { λ reason e. e ≡ Line reason };

    fn from(cause: Malformed) -> CaseError {
        CaseError::Line(cause)
    }
}

impl From<AllocError> for CaseError {
    ghost from_gives = { λ _ e. e ≡ OutOfMemory };

    fn from(_e: AllocError) -> CaseError {
        CaseError::OutOfMemory
    }
}

impl From<ReadError> for CaseError {
    ghost from_gives = { IsReadError };

    fn from(cause: ReadError) -> CaseError {
        match cause {
            ReadError::Line(reason) => CaseError::Line(Malformed::Unreadable(reason)),
            ReadError::OutOfMemory => CaseError::OutOfMemory,
        }
    }
}
