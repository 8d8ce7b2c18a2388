//! The literals among the leaves, and what they ask about.

ghost use Rattle.std.specs.Prelude.{◌≡◌, ◌<◌, ◌++◌, ℕ, List, [], ◌∷◌, None, Some, IfOk};
ghost use Rattle.std.specs.Prelude.{IfSome, MatchOption};
ghost use Rattle.std.specs.List.{All};
ghost use Rattle.hv_lines.specs.Literals.{IsLiteral};
ghost use Rattle.hv_lines.specs.Numbering.{ExprRefersBelow, acts_count, expr_at, expr_count};
ghost use Rattle.hv_lines.specs.declared.line.Line.{Line};
ghost use Rattle.hv_basic.specs.Working.Gathered.{AreGathered, AreOthers, IsThe, sign_on};
ghost use Rattle.hv_basic.specs.Leaves.{IsLeafRead, places};

use crate::families::plain_family;
use hv_lines::{Expr, FormulaFamily, Table};
use std::alloc::AllocError;

/// A literal: a formula or constant, or its negation.
#[derive(Clone, Copy)]
pub(crate) struct SignedSet {
    pub set: usize,
    /// Whether it is the formula or constant itself.
    pub is_plain: bool,
}

/// A leaf, with the literal that it is, if it is one, and the family of that literal's formula.
#[derive(Clone, Copy)]
pub(crate) struct Leaf {
    pub place: usize,
    pub literal: Option<SignedSet>,
    pub family: Option<FormulaFamily>,
}

/// What is asked about: a formula or constant, with its sign and family, before the action or after
/// it.
#[derive(Clone, Copy)]
pub(crate) struct Asking {
    pub set: usize,
    pub after: bool,
    pub positive: bool,
    pub family: Option<FormulaFamily>,
}

/// The leaves that are no literals: none, this one alone, or more.
#[derive(Clone, Copy)]
pub(crate) enum Others {
    None,
    One(usize),
    More,
}

/// The literal that the set is.
pub(crate) fn literal_of(table: &Table, set: usize) -> Option<SignedSet>
    requires { set < expr_count table.now.lines }
    ensures is { MatchOption result (IsLiteral table.now.lines set → ⊥)
        (IsThe table.now.lines set) }
    ensures below { IfSome result (λ literal. literal.set < expr_count table.now.lines) }
{
    leaf_of(table, set, table.expr(set)).literal
}

/// The leaf, of which this is the line.
pub(crate) fn leaf_of(table: &Table, place: usize, expr: &Expr) -> Leaf
    requires place { place < expr_count table.now.lines }
    requires says { expr_at table.now.lines place ≡ Some expr.now }
    requires refers { ExprRefersBelow (acts_count table.now.lines)
        (expr_count table.now.lines) expr.now }
    ensures place { result.place ≡ place }
    ensures read { IsLeafRead table.now.lines result }
{
    match expr {
        Expr::Not(set) => match plain_family(table.expr(*set)) {
            Some(family) => Leaf {
                place,
                literal: Some(SignedSet {
                    set: *set,
                    is_plain: false,
                }),
                family,
            },
            None => other_leaf(place),
        },
        expr => match plain_family(expr) {
            Some(family) => Leaf {
                place,
                literal: Some(SignedSet {
                    set: place,
                    is_plain: true,
                }),
                family,
            },
            None => other_leaf(place),
        },
    }
}

fn other_leaf(place: usize) -> Leaf
    ensures place { result.place ≡ place }
    ensures literal { result.literal ≡ None }
{
    Leaf {
        place,
        literal: None,
        family: None,
    }
}

/// Adds what the literals among the leaves ask about; the leaves that are no literals.
pub(crate) fn gather(
    leaves: &[Leaf],
    on_left: bool,
    after: bool,
    into: &mut Vec<Asking>,
) -> Result<Others, AllocError>
    ensures gathered { IfOk result (λ _. (lines : List Line) → All (IsLeafRead lines) leaves.now
        → AreGathered lines (places leaves.now) on_left after into.old.items into.new.items) }
    ensures others { IfOk result (λ others. (lines : List Line) → All (IsLeafRead lines) leaves.now
        → AreOthers lines (places leaves.now) others) }
{
    let mut others = Others::None;
    for leaf in leaves {
        match leaf.literal {
            Some(literal) => {
                into.push(Asking {
                    set: literal.set,
                    after,
                    positive: sign_on(on_left, literal.is_plain),
                    family: leaf.family,
                })?;
            }
            None => others = with_other(others, leaf.place),
        }
    }
    Ok(others)
}

/// The sign of what a literal asks about: its own on the left, the opposite on the right.
fn sign_on(on_left: bool, is_plain: bool) -> bool
    ensures { result ≡ sign_on on_left is_plain }
{
    if on_left { is_plain } else { !is_plain }
}

/// The leaves that are no literals, with one more.
fn with_other(others: Others, leaf: usize) -> Others
    ensures { (lines : List Line) (leaves : List ℕ) → AreOthers lines leaves others
        → (IsLiteral lines leaf → ⊥) → AreOthers lines (leaves ++ leaf ∷ []) result }
{
    match others {
        Others::None => Others::One(leaf),
        Others::One(other) => {
            if other == leaf {
                Others::One(other)
            } else {
                Others::More
            }
        }
        Others::More => Others::More,
    }
}
