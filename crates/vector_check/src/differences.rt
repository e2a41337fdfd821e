//! Answers that are not the expected ones.
ghost use Rattle.std.specs.Prelude.{◌≡◌, IfOk, Some, string_bytes};
ghost use Rattle.std.specs.Option.{option_map};
ghost use Rattle.packet_lines.specs.Answers.{Answers};
ghost use Rattle.vector_check.specs.Differences.{Finds, difference_text, joined};

use packet_lines::answer;
use std::alloc::{AllocError, Global};

/// The name of a difference, if what was answered is not what was expected.
pub(crate) fn difference(
    heap: Global,
    asked: &str,
    expected: &str,
    answered: &str,
) -> Result<Option<String>, AllocError>
    ensures { IfOk result (λ found. Finds (λ text. text ≡ answered.now) asked.now expected.now
        (option_map string_bytes found)) }
{
    if answered == expected {
        return Ok(None);
    }
    let text = difference_text(heap, asked, expected, answered)?;
    Ok(Some(text))
}

// What is printed of a difference.
fn difference_text(
    heap: Global,
    asked: &str,
    expected: &str,
    answered: &str,
) -> Result<String, AllocError>
    ensures { IfOk result (λ s. string_bytes s ≡ difference_text asked.now expected.now answered.now) }
{
    format!(in heap; "{asked}: expected '{expected}', answered '{answered}'")
}

/// The name of the difference, if a line about packets is not answered as expected.
pub(crate) fn line_difference(
    heap: Global,
    line: &str,
    expected: &str,
) -> Result<Option<String>, AllocError>
    ensures { IfOk result (λ found. Finds (Answers line.now) line.now expected.now (option_map string_bytes found)) }
{
    let answered = answer(heap, line.as_bytes())?;
    difference(heap, line, expected, answered.as_str())
}

/// What was found in two ways, a line for each.
pub(crate) fn both(
    heap: Global,
    first: Option<String>,
    second: Option<String>,
) -> Result<Option<String>, AllocError>
    ensures { IfOk result (λ found. option_map string_bytes found
        ≡ joined (option_map string_bytes first) (option_map string_bytes second)) }
{
    match (first, second) {
        (None, found) | (found, None) => Ok(found),
        (Some(first), Some(second)) => Ok(Some(format!(in heap; "{first}\n{second}")?)),
    }
}
