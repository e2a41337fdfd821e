//! What the words of a command line ask of a program.
ghost use Rattle.std.specs.Prelude.{◌≡◌, Some, Ok, length, map, string_bytes};
ghost use Rattle.program.specs.declared.command_line.Asked.TheVariants.{Run};
ghost use Rattle.program.specs.CommandLine.{asked, asks_help, places, usage, usage_text, word_of};

use std::error::Error;
use std::fmt;

/// What the words of a command line ask of a program.
#[derive(Clone, Copy, PartialEq, Eq, Debug)]
pub enum Asked {
    /// To run. The words are its operands.
    Run,
    /// To print its help.
    Help,
}

/// Why words ask for nothing.
#[derive(Clone, Copy, PartialEq, Eq, Debug)]
pub enum UsageError<'a> {
    /// The program has no place for this word.
    UnknownWord(&'a str),
    /// The program takes more operands than there are words.
    MissingOperand,
}

impl Asked {
    /// What words ask of a program that takes so many operands. They are those behind the program's name, and `--help`
    /// stands alone.
    pub fn from_words(words: &[String], operands: usize) -> Result<Asked, UsageError<'_>>
        ensures answer { usage result ≡ asked operands (map string_bytes words.now) }
        ensures run { result ≡ Ok Run → length words.now ≡ operands }
    {
        let places = places(words, operands);
        match words.get(places) {
            Some(word) => Err(UsageError::UnknownWord(word.as_str())),
            None if words.len() < places => Err(UsageError::MissingOperand),
            None if asks_help(words) => Ok(Asked::Help),
            None => Ok(Asked::Run),
        }
    }
}

// Whether the first word is `--help`.
fn asks_help(words: &[String]) -> bool
    ensures { result ≡ asks_help (map string_bytes words.now) }
{
    words.first().is_some_and(|word| word.as_str() == "--help")
}

// How many words have a place.
fn places(words: &[String], operands: usize) -> usize
    ensures { result ≡ places operands (map string_bytes words.now) }
{
    if asks_help(words) { 1 } else { operands }
}

impl fmt::Display for UsageError<'_> {
    ghost output = { λ e. Some (usage_text (word_of e)) };

    /// Writes one sentence without its full stop.
    fn fmt<W: fmt::Write>(&self, f: &mut fmt::Formatter<W>) -> fmt::Result {
        match self {
            UsageError::UnknownWord(word) => write!(f, "'{word}' is not known"),
            UsageError::MissingOperand => f.write_str("an operand is missing"),
        }
    }
}

impl Error for UsageError<'_> {}
