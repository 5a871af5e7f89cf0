//! Whether what came of a run is what is wanted.
ghost use Rattle.std.specs.Prelude.{◌≡◌, ◌==◌, ◌↔◌, IsTrue};
ghost use Rattle.std.specs.List.{list_all};
ghost use Rattle.spiel_rows.specs.Comparing.{Agrees, count_of};

use crate::row::Count;
use crate::running::Outcome;

/// What is wanted of a run.
#[derive(Clone, Copy)]
pub struct Wanted<'a> {
    /// The exit status.
    pub status: u8,
    /// All that is written to standard output.
    pub out: &'a [u8],
    /// All that is said on standard error.
    pub err: &'a [u8],
    /// The counts that are named.
    pub counts: &'a [(Count, u32)],
}

/// Whether each count that is named is as wanted.
fn has_counts(counts: &[(Count, u32)], outcome: &Outcome) -> bool
    ensures { result ≡ list_all (λ wish. count_of outcome.now wish.0 == wish.1) counts.now }
{
    counts
        .iter()
        .all(|wish| outcome.count(wish.0) == u64::from(wish.1))
}

/// Whether all that is wanted came of the run.
pub fn agrees(wanted: &Wanted<'_>, outcome: &Outcome) -> bool
    ensures { IsTrue result ↔ Agrees wanted.now outcome.now }
{
    if outcome.status != wanted.status {
        return false;
    }
    if outcome.out.taken() != wanted.out {
        return false;
    }
    if outcome.err.taken() != wanted.err {
        return false;
    }
    has_counts(wanted.counts, outcome)
}
