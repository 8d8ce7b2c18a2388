//! What may be refused with a translator file.

ghost use Rattle.std.specs.Prelude.{◌≡◌};
ghost use Rattle.hv_sas.specs.Words.{sas_kind_word, sas_limit_word, which_word};
ghost use Rattle.hv_sas.specs.declared.fault.SasFault.TheVariants as F;

use std::alloc::AllocError;
use thiserror::Error;

/// The part of a translator file that a line belongs to.
#[derive(Clone, Copy, Debug, PartialEq, Eq)]
pub enum SasKind {
    /// `begin_version`, `3`, `end_version`.
    Version,
    /// `begin_metric`, `0` or `1`, `end_metric`.
    Metric,
    /// The number of variables.
    Variables,
    /// A variable, from `begin_variable` to `end_variable`.
    Variable,
    /// The number of mutex groups.
    Mutexes,
    /// A mutex group, from `begin_mutex_group` to `end_mutex_group`.
    Mutex,
    /// The initial state, from `begin_state` to `end_state`.
    State,
    /// The goal, from `begin_goal` to `end_goal`.
    Goal,
    /// The number of operators.
    Operators,
    /// An operator, from `begin_operator` to `end_operator`.
    Operator,
    /// The number of axioms, `0`.
    Axioms,
    /// The end of the input.
    End,
}

/// What translators write and this program doesn't support.
#[derive(Clone, Copy, Debug, PartialEq, Eq)]
pub enum SasWhich {
    /// A version other than 3.
    Version,
    /// A variable with an axiom layer.
    Layer,
    /// An effect with conditions.
    Condition,
    /// A second effect of an operator on one variable.
    Twice,
    /// An axiom.
    Axiom,
}

/// A limit that a line of a translator file exceeds.
#[derive(Clone, Copy, Debug, PartialEq, Eq)]
pub enum SasLimit {
    /// More than 65,535 values of the variables together.
    Values,
    /// More than 1,000,000 operators.
    Operators,
    /// A name of more than 1,024 bytes.
    Name,
    /// A cost above 4,294,967,295.
    Cost,
    /// A line of too many bytes, or too far from the start of the file.
    Long,
}

/// Why a line of a translator file is refused.
#[derive(Clone, Copy, Debug, PartialEq, Eq)]
pub enum SasRefusal {
    /// What its place expects isn't there.
    Place(SasKind),
    /// It has a form that isn't supported.
    Unsupported(SasWhich),
    /// It is there, and exceeds this limit.
    Limit(SasLimit),
}

/// Why a translator file isn't read. Lines are counted from 1; at the end of the input the line is
/// the one after the last.
#[derive(Clone, Copy, Debug, PartialEq, Eq, Error)]
pub enum SasFault {
    /// The form that this place expects isn't there.
    #[error("line {0} isn't what the text expects there")]
    Place(u64, SasKind),
    /// The line has a form that isn't supported.
    #[error("line {0} isn't supported")]
    Unsupported(u64, SasWhich),
    /// The line has its form, and exceeds this limit; or it is long, whatever its form.
    #[error("line {0} passes a limit")]
    Limit(u64, SasLimit),
    /// The shelf failed.
    #[error("the file can't be read")]
    ReadFault,
    /// Memory ran out.
    #[error("out of memory")]
    Memory,
}

impl From<AllocError> for SasFault {
    ghost from_gives = { λ _ fault. fault ≡ F.Memory };

    fn from(_error: AllocError) -> SasFault {
        SasFault::Memory
    }
}

impl SasKind {
    /// The word that names the kind in a refusal.
    pub fn word(&self) -> &'static str
        ensures { result.now ≡ sas_kind_word self.now }
    {
        match self {
            SasKind::Version => "version",
            SasKind::Metric => "metric",
            SasKind::Variables => "variables",
            SasKind::Variable => "variable",
            SasKind::Mutexes => "mutexes",
            SasKind::Mutex => "mutex",
            SasKind::State => "state",
            SasKind::Goal => "goal",
            SasKind::Operators => "operators",
            SasKind::Operator => "operator",
            SasKind::Axioms => "axioms",
            SasKind::End => "end",
        }
    }
}

impl SasWhich {
    /// The word that names what isn't supported in a refusal.
    pub fn word(&self) -> &'static str
        ensures { result.now ≡ which_word self.now }
    {
        match self {
            SasWhich::Version => "version",
            SasWhich::Layer => "layer",
            SasWhich::Condition => "condition",
            SasWhich::Twice => "twice",
            SasWhich::Axiom => "axiom",
        }
    }
}

impl SasLimit {
    /// The word that names the limit in a refusal.
    pub fn word(&self) -> &'static str
        ensures { result.now ≡ sas_limit_word self.now }
    {
        match self {
            SasLimit::Values => "values",
            SasLimit::Operators => "operators",
            SasLimit::Name => "name",
            SasLimit::Cost => "cost",
            SasLimit::Long => "long",
        }
    }
}
