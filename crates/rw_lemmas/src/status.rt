//! The status of a lemma.

ghost use Rattle.std.specs.Prelude.{◌≡◌};
ghost use Rattle.rw_lemmas.specs.States.{by_verdict};

use rw_sequents::line::Verdict;

/// What is known of a lemma by its certificate.
#[derive(Clone, Copy, Debug, PartialEq, Eq)]
pub enum LemmaStatus {
    Good,
    /// It has no certificate.
    Missing,
    /// The first failing line, counted from 1, the arithmetic line in it or 0, and the cause.
    Bad(u32, u32, u8),
}

/// What a verdict says of a lemma.
pub fn by_verdict(verdict: Verdict) -> LemmaStatus
    ensures { result ≡ by_verdict verdict }
{
    match verdict {
        Verdict::Good => LemmaStatus::Good,
        Verdict::Bad { line, sub, cause } => LemmaStatus::Bad(line, sub, cause),
    }
}
