//! What is asked of a proof.

ghost use Rattle.std.specs.Prelude.{◌≡◌, ◌<◌, ◌≤◌};
ghost use Rattle.hv_lines.specs.Setting.{most_budget};

use crate::job::{FileName, Report};

/// A proof that is judged: the name of its file, what a query of a basic statement may cost, and
/// what is said of it where it shows that the task has no plan.
#[derive(Clone, Copy)]
pub(crate) struct ProofFile<'a> {
    pub name: &'a FileName,
    pub budget: u64,
    pub report: Report,
    pub ghost some: { 0 < budget },
    pub ghost small: { budget ≤ most_budget },
}

impl<'a> ProofFile<'a> {
    /// The proof of this name, judged within this budget, of which this is told.
    pub(crate) fn new(name: &'a FileName, budget: u64, report: Report) -> ProofFile<'a>
        requires some { 0 < budget }
        requires small { budget ≤ most_budget }
        ensures name { result.name.now ≡ name.entry.now }
        ensures budget { result.budget ≡ budget }
        ensures report { result.report ≡ report }
    {
        ProofFile {
            name,
            budget,
            report,
        }
    }
}
