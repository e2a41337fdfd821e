//! The words of a line.
ghost use Rattle.std.specs.Prelude.{MatchOption};
ghost use Rattle.vector_check.specs.Words.{FirstWord, IsWord, LastWord};

/// The first word of a text, and what stands behind its space.
pub(crate) fn first_word(text: &str) -> Option<(&str, &str)>
    ensures { MatchOption result (IsWord text.now) (λ x. FirstWord text.now x.0.now x.1.now) }
{
    text.split_once(' ')
}

/// What stands before the last space of a text, and the last word.
pub(crate) fn last_word(text: &str) -> Option<(&str, &str)>
    ensures { MatchOption result (IsWord text.now) (λ x. LastWord text.now x.0.now x.1.now) }
{
    text.rsplit_once(' ')
}
