//! How many entries a log has, and how many bytes.

ghost use Rattle.std.specs.Prelude.{◌≡◌, ◌∷◌, ◌++◌, [], List, MatchResult, Some};
ghost use Rattle.hv_replay.specs.Logs.{AreFew, LogEntry};
ghost use Rattle.hv_replay.specs.Working.Logs.{counts_of};
ghost use Rattle.hv_replay.specs.LogFile.{passed_limit};

use crate::fault::LogLimit;

/// The most expanded states of a log.
const MOST_EXPANDED: u32 = 1_000_000;

/// The most pruned states of a log.
const MOST_PRUNED: u32 = 65_000;

/// How many expanded and how many pruned states there are.
#[derive(Clone, Copy)]
pub struct Counts {
    pub expanded: u32,
    pub pruned: u32,
}

impl Counts {
    /// The counts with one state more, or the limit that it exceeds.
    pub fn with(self, expanded: bool) -> Result<Counts, LogLimit>
        ensures { (entries : List LogEntry) (entry : LogEntry) → self ≡ counts_of entries
            → entry.expanded ≡ expanded → AreFew entries → MatchResult result
            (λ more. (more ≡ counts_of (entries ++ entry ∷ [])) × AreFew (entries ++ entry ∷ []))
            (λ limit. passed_limit (entries ++ entry ∷ []) ≡ Some limit) }
    {
        if expanded {
            if self.expanded >= MOST_EXPANDED {
                return Err(LogLimit::Expanded);
            }
            return Ok(Counts {
                expanded: self.expanded + 1,
                pruned: self.pruned,
            });
        }
        if self.pruned >= MOST_PRUNED {
            return Err(LogLimit::Pruned);
        }
        Ok(Counts {
            expanded: self.expanded,
            pruned: self.pruned + 1,
        })
    }
}
