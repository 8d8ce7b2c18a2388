//! Keeping what a right side asks: where it is the union of what is kept and a further set, only
//! that set is looked at.

ghost use Rattle.std.specs.Prelude.{◌≡◌, ◌<◌, ◌≤◌, ◌⊎◌, ◌++◌, ◌∷◌, Bool, true, [], None, Some, IfOk};
ghost use Rattle.std.specs.Prelude.{IfSome, MatchOption, OnOk, false, length};
ghost use Rattle.std.specs.List.{All, Contains, insert};
ghost use Rattle.hv_sets.specs.Cubes.{opposite};
ghost use Rattle.hv_sets.specs.declared.literal.Literal.{Literal};
ghost use Rattle.hv_lines.specs.Numbering.{expr_at, expr_count};
ghost use Rattle.hv_lines.specs.Queries.{operand_of};
ghost use Rattle.hv_lines.specs.Shapes.{AskingsRise};
ghost use Rattle.hv_lines.specs.declared.line.Expr.{Expr};
ghost use Rattle.hv_basic.specs.Cases.{lines_in};
ghost use Rattle.hv_basic.specs.Sharing.{IsAgainstSet, IsEnoughFor, IsLoneFor, IsPlainSide};
ghost use Rattle.hv_basic.specs.Sharing.{IsRightSide};
ghost use Rattle.hv_basic.specs.Sharing.{NamesLiteral, clauses_to_choose, own_clauses};
ghost use Rattle.hv_basic.specs.Leaves.{IsLeafRead, places};
ghost use Rattle.hv_basic.specs.Working.Sharing.{AreAddedTo, AreWaysWith, IsAddedTo};
ghost use Rattle.hv_basic.specs.Working.Sharing.{IsSplitAt, IsMadeOf, IsPartBeside};
ghost use Rattle.hv_basic.specs.Working.Sharing.{IsPlaceFor};

use crate::case::Case;
use crate::families::family_with;
use crate::leaves::{Half, leaves};
use crate::shared::Kept;
use crate::signed_sets::{Leaf, SignedSet};
use hv_lines::{Constant, Expr, Table};
use hv_sets::{Clauses, Literal, Operand, Operands};
use std::alloc::{AllocError, Global};
use std::collections::BTreeSet;

/// A clause with more literals isn't short.
const MOST_SHORT: usize = 4;

/// Of a set with more clauses no clause is looked at, and of a left side with more sets no set's.
pub(crate) const MOST_FEW: usize = 8;

/// Has the right side kept, asked about after the action (true) or before it, if it is a union of
/// literals whose formulas, where they aren't negated, are of one family: whether it is kept.
pub(crate) fn keep_right(
    alloc: Global,
    case: &Case<'_>,
    kept: &mut Kept,
    root: usize,
    after: bool,
) -> Result<bool, AllocError>
    requires root { root < expr_count (lines_in case.now) }
    requires kept { IsRightSide (lines_in case.now) kept.old }
    ensures kept { IsRightSide (lines_in case.now) kept.new }
    ensures root { IfOk result (λ yes. yes ≡ true → kept.new.root ≡ Some root) }
    ensures after { IfOk result (λ yes. yes ≡ true → kept.new.after ≡ after) }
{
    if is_kept(kept, root, after) {
        return Ok(true);
    }
    if extend(alloc, case, kept, root, after)? {
        return Ok(true);
    }
    renew(alloc, case, kept, root, after)
}

/// Whether this right side is kept.
pub(crate) fn is_kept(kept: &Kept, root: usize, after: bool) -> bool
    ensures root { result ≡ true → kept.now.root ≡ Some root }
    ensures after { result ≡ true → kept.now.after ≡ after }
{
    kept.root == Some(root) && kept.after == after
}

/// Adds the further set, where the right side is the union of the one that is kept and that set.
fn extend(
    alloc: Global,
    case: &Case<'_>,
    kept: &mut Kept,
    root: usize,
    after: bool,
) -> Result<bool, AllocError>
    requires root { root < expr_count (lines_in case.now) }
    requires kept { IsRightSide (lines_in case.now) kept.old }
    ensures kept { IsRightSide (lines_in case.now) kept.new }
    ensures root { IfOk result (λ yes. yes ≡ true → kept.new.root ≡ Some root) }
    ensures after { IfOk result (λ yes. yes ≡ true → kept.new.after ≡ after) }
{
    if kept.after != after {
        return Ok(false);
    }
    match part_beside(case.table, kept.root, root) {
        None => Ok(false),
        Some(part) => {
            if is_kept(kept, part, after) {
                kept.root = Some(root);
                return Ok(true);
            }
            grow(alloc, case, kept, root, part)
        }
    }
}

/// Keeps the union in place of what was kept.
fn renew(
    alloc: Global,
    case: &Case<'_>,
    kept: &mut Kept,
    root: usize,
    after: bool,
) -> Result<bool, AllocError>
    requires root { root < expr_count (lines_in case.now) }
    requires kept { IsRightSide (lines_in case.now) kept.old }
    ensures kept { IsRightSide (lines_in case.now) kept.new }
    ensures root { IfOk result (λ yes. yes ≡ true → kept.new.root ≡ Some root) }
    ensures after { IfOk result (λ yes. yes ≡ true → kept.new.after ≡ after) }
{
    if !is_union(case.table.expr(root)) {
        return Ok(false);
    }
    clear(alloc, kept, after);
    grow(alloc, case, kept, root, root)
}

/// Whether the set is a union.
pub(crate) fn is_union(expr: &Expr) -> bool {
    match expr {
        Expr::Or(_, _) => true,
        _ => false,
    }
}

fn clear(alloc: Global, kept: &mut Kept, after: bool)
    ensures root { kept.new.root ≡ None }
    ensures after { kept.new.after ≡ after }
    ensures family { kept.new.family ≡ None }
    ensures ways { kept.new.ways ≡ Some 1 }
    ensures enough { (literal : Literal) → NamesLiteral kept.new.enough literal → ⊥ }
    ensures negations { kept.new.negations.items ≡ [] }
    ensures negated { kept.new.negated ≡ None }
    ensures asked { kept.new.question.negative.items ≡ [] }
    ensures operands { kept.new.query.negative ≡ [] }
{
    kept.root = None;
    kept.after = after;
    kept.family = None;
    kept.ways = Some(1);
    kept.enough = BTreeSet::new(alloc);
    kept.negations = Vec::new(alloc);
    kept.negated = None;
    kept.question.negative = Vec::new(alloc);
    kept.query.negative = Operands::new(alloc);
    kept.named = true;
}

/// The other part of the union, where one part is what is kept.
pub(crate) fn part_beside(table: &Table, kept: Option<usize>, root: usize) -> Option<usize>
    requires { root < expr_count table.now.lines }
    ensures { IfSome result (IsPartBeside table.now.lines kept root) }
{
    match table.expr(root) {
        Expr::Or(left, right) => {
            if kept == Some(*left) {
                Some(*right)
            } else if kept == Some(*right) {
                Some(*left)
            } else {
                None
            }
        }
        _ => None,
    }
}

/// Adds the leaves of a part, by which what is kept becomes the union's.
fn grow(
    alloc: Global,
    case: &Case<'_>,
    kept: &mut Kept,
    root: usize,
    part: usize,
) -> Result<bool, AllocError>
    requires root { root < expr_count (lines_in case.now) }
    requires part { part < expr_count (lines_in case.now) }
    requires side { IsPlainSide (lines_in case.now) kept.old }
    requires made { IsMadeOf (lines_in case.now) kept.old root part }
    ensures kept { IsRightSide (lines_in case.now) kept.new }
    ensures root { IfOk result (λ yes. yes ≡ true → kept.new.root ≡ Some root) }
    ensures after { kept.new.after ≡ kept.old.after }
{
    kept.root = None;
    let leaves = leaves(alloc, case.table, Half::Right, part)?;
    if !add_all(case, kept, &leaves)? {
        return Ok(false);
    }
    kept.root = Some(root);
    Ok(true)
}

/// Adds the leaves, of which the oldest is the last: whether each could be added.
fn add_all(case: &Case<'_>, kept: &mut Kept, leaves: &[Leaf]) -> Result<bool, AllocError>
    requires read { All (IsLeafRead (lines_in case.now)) leaves.now }
    requires side { IsPlainSide (lines_in case.now) kept.old }
    ensures side { IfOk result (λ yes. yes ≡ true → IsPlainSide (lines_in case.now) kept.new) }
    ensures added { IfOk result (λ yes. yes ≡ true
        → AreAddedTo (places leaves.now) kept.old kept.new) }
    ensures root { kept.new.root ≡ kept.old.root }
    ensures after { kept.new.after ≡ kept.old.after }
{
    for count in 0..leaves.len() {
        let leaf = leaves[leaves.len() - 1 - count];
        if !add_one(case, kept, leaf)? {
            return Ok(false);
        }
    }
    Ok(true)
}

/// Adds the leaf, if it is a negation, or a formula or constant by which no other family comes in.
fn add_one(case: &Case<'_>, kept: &mut Kept, leaf: Leaf) -> Result<bool, AllocError>
    requires read { IsLeafRead (lines_in case.now) leaf }
    requires side { IsPlainSide (lines_in case.now) kept.old }
    ensures side { IfOk result (λ yes. yes ≡ true → IsPlainSide (lines_in case.now) kept.new) }
    ensures added { IfOk result (λ yes. yes ≡ true → IsAddedTo leaf.place kept.old kept.new) }
    ensures root { kept.new.root ≡ kept.old.root }
    ensures after { kept.new.after ≡ kept.old.after }
{
    let Some(literal) = leaf.literal else {
        return Ok(false);
    };
    if !literal.is_plain {
        return add_negation(case, kept, leaf, literal);
    }
    let Some(both) = family_with(kept.family, leaf.family) else {
        return Ok(false);
    };
    let Some(place) = place_for(&kept.question.negative, leaf.place) else {
        return Ok(true);
    };
    put_in(case, kept, leaf.place, place)?;
    kept.family = both;
    Ok(true)
}

/// Adds the leaf, which is the negation of this set, if no other family comes in by it.
fn add_negation(
    case: &Case<'_>,
    kept: &mut Kept,
    leaf: Leaf,
    literal: SignedSet,
) -> Result<bool, AllocError>
    requires read { IsLeafRead (lines_in case.now) leaf }
    requires is { leaf.literal ≡ Some literal }
    requires negated { literal.is_plain ≡ false }
    requires side { IsPlainSide (lines_in case.now) kept.old }
    ensures side { IfOk result (λ yes. yes ≡ true → IsPlainSide (lines_in case.now) kept.new) }
    ensures added { IfOk result (λ yes. yes ≡ true → IsAddedTo leaf.place kept.old kept.new) }
    ensures root { kept.new.root ≡ kept.old.root }
    ensures after { kept.new.after ≡ kept.old.after }
{
    let Some(both) = family_with(kept.negated, leaf.family) else {
        return Ok(false);
    };
    put_opposites(&mut kept.enough, case.table, literal.set)?;
    kept.negations.push(leaf)?;
    kept.negated = both;
    Ok(true)
}

/// Puts the set in at this place. Where it isn't the last the operands aren't named any more.
fn put_in(case: &Case<'_>, kept: &mut Kept, set: usize, place: usize) -> Result<(), AllocError>
    requires set { set < expr_count (lines_in case.now) }
    requires place { place ≤ length kept.old.question.negative.items }
    ensures asked { OnOk result (kept.new.question.negative.items
        ≡ insert kept.old.question.negative.items place (set, kept.old.after)) }
    ensures ways { OnOk result ((expr : Expr) × (expr_at (lines_in case.now) set ≡ Some expr)
        × AreWaysWith kept.old.ways expr kept.new.ways) }
    ensures enough { OnOk result ((literal : Literal) → NamesLiteral kept.new.enough literal
        → NamesLiteral kept.old.enough literal ⊎ IsEnoughFor (lines_in case.now) set literal) }
    ensures named { OnOk result (kept.new.named ≡ true → (kept.old.named ≡ true)
        × (place ≡ length kept.old.question.negative.items) × (kept.new.query.negative
        ≡ kept.old.query.negative ++ operand_of (lines_in case.now) (set, kept.old.after) ∷ [])) }
    ensures negations { kept.new.negations ≡ kept.old.negations }
    ensures negated { kept.new.negated ≡ kept.old.negated }
    ensures root { kept.new.root ≡ kept.old.root }
    ensures after { kept.new.after ≡ kept.old.after }
    ensures family { kept.new.family ≡ kept.old.family }
{
    let is_last = is_behind(kept, place);
    name_last(case, &mut kept.query.negative, (set, kept.after), is_last)?;
    kept.named = is_last;
    kept.ways = ways_with(kept.ways, case.table.expr(set));
    put_enough(&mut kept.enough, case.table, set)?;
    kept.question.negative.insert(place, (set, kept.after))?;
    Ok(())
}

/// Whether the place is behind all sets, and all have operands.
fn is_behind(kept: &Kept, place: usize) -> bool
    ensures named { result ≡ true → kept.now.named ≡ true }
    ensures place { result ≡ true → place ≡ length kept.now.question.negative.items }
{
    kept.named && place == kept.question.negative.len()
}

/// Puts the operand that asks this last, if it is the last.
fn name_last(
    case: &Case<'_>,
    operands: &mut Operands,
    asked: (usize, bool),
    is_last: bool,
) -> Result<(), AllocError>
    requires { asked.0 < expr_count (lines_in case.now) }
    ensures { OnOk result (is_last ≡ true
        → operands.new ≡ operands.old ++ operand_of (lines_in case.now) asked ∷ []) }
{
    if !is_last {
        return Ok(());
    }
    let store = case.store;
    operands.push(Operand {
        which: store.name(asked.0),
        id: asked.0,
        after: asked.1,
    })?;
    Ok(())
}

/// In how many ways clauses can be chosen with those of one more set; none where that isn't told.
fn ways_with(ways: Option<u64>, expr: &Expr) -> Option<u64>
    ensures { AreWaysWith ways expr.now result }
{
    let old = ways?;
    let count = clauses_to_choose(expr)?;
    count.checked_mul(old)
}

/// How many clauses there are to choose from: those of a formula in clauses, and of the empty set
/// one.
pub(crate) fn clauses_to_choose(expr: &Expr) -> Option<u64>
    ensures { result ≡ clauses_to_choose expr.now }
{
    match expr {
        Expr::Constant(Constant::Empty) => Some(1),
        Expr::Horn(clauses) => Some(clauses.len() as u64),
        Expr::Dual(clauses) => Some(clauses.len() as u64),
        Expr::Two(clauses) => Some(clauses.len() as u64),
        Expr::Constant(Constant::Start) | Expr::Constant(Constant::Goal) => None,
        Expr::States(_) | Expr::Node(_) | Expr::Not(_) => None,
        Expr::And(..) | Expr::Or(..) | Expr::After(..) | Expr::Before(..) => None,
    }
}

/// Puts in the literals of a set that has one short clause: a state in which one of them is true
/// is in the set.
fn put_enough(
    enough: &mut BTreeSet<(u32, bool)>,
    table: &Table,
    set: usize,
) -> Result<(), AllocError>
    requires { set < expr_count table.now.lines }
    ensures { OnOk result ((literal : Literal) → NamesLiteral enough.new literal
        → NamesLiteral enough.old literal ⊎ IsEnoughFor table.now.lines set literal) }
{
    match own_clauses(table.expr(set)) {
        None => Ok(()),
        Some(clauses) => put_lone(enough, clauses),
    }
}

/// The same of these clauses.
fn put_lone(enough: &mut BTreeSet<(u32, bool)>, clauses: &Clauses) -> Result<(), AllocError>
    ensures { OnOk result ((literal : Literal) → NamesLiteral enough.new literal
        → NamesLiteral enough.old literal ⊎ IsLoneFor clauses.now literal) }
{
    if clauses.len() != 1 {
        return Ok(());
    }
    put_short(enough, clauses.get(0))
}

/// Puts in the literals of the clause, if it is short.
fn put_short(enough: &mut BTreeSet<(u32, bool)>, clause: &[Literal]) -> Result<(), AllocError>
    ensures { OnOk result ((literal : Literal) → NamesLiteral enough.new literal
        → NamesLiteral enough.old literal ⊎ Contains clause.now literal) }
{
    if clause.len() > MOST_SHORT {
        return Ok(());
    }
    for literal in clause {
        put_literal(enough, *literal)?;
    }
    Ok(())
}

/// Puts in the opposites of the lone literals of a set with few clauses: a state in which one of
/// them is true isn't in the set.
fn put_opposites(
    enough: &mut BTreeSet<(u32, bool)>,
    table: &Table,
    set: usize,
) -> Result<(), AllocError>
    requires { set < expr_count table.now.lines }
    ensures { OnOk result ((literal : Literal) → NamesLiteral enough.new literal
        → NamesLiteral enough.old literal ⊎ IsAgainstSet table.now.lines set literal) }
{
    match own_clauses(table.expr(set)) {
        None => Ok(()),
        Some(clauses) => put_against(enough, clauses),
    }
}

/// The same of these clauses.
fn put_against(enough: &mut BTreeSet<(u32, bool)>, clauses: &Clauses) -> Result<(), AllocError>
    ensures { OnOk result ((literal : Literal) → NamesLiteral enough.new literal
        → NamesLiteral enough.old literal ⊎ Contains clauses.now (opposite literal ∷ [])) }
{
    if clauses.len() > MOST_FEW {
        return Ok(());
    }
    for place in 0..clauses.len() {
        put_opposite(enough, clauses.get(place))?;
    }
    Ok(())
}

/// Puts in the opposite of the clause's literal, if it has one alone.
fn put_opposite(enough: &mut BTreeSet<(u32, bool)>, clause: &[Literal]) -> Result<(), AllocError>
    ensures { OnOk result ((literal : Literal) → NamesLiteral enough.new literal
        → NamesLiteral enough.old literal ⊎ (clause.now ≡ opposite literal ∷ [])) }
{
    if clause.len() != 1 {
        return Ok(());
    }
    put_literal(enough, opposite(clause[0]))?;
    Ok(())
}

fn opposite(literal: Literal) -> Literal
    ensures { result ≡ opposite literal }
{
    Literal {
        atom: literal.atom,
        positive: !literal.positive,
    }
}

fn put_literal(enough: &mut BTreeSet<(u32, bool)>, literal: Literal) -> Result<(), AllocError>
    ensures { OnOk result ((other : Literal) → NamesLiteral enough.new other
        → NamesLiteral enough.old other ⊎ (literal ≡ other)) }
{
    enough.insert((literal.atom, literal.positive))?;
    Ok(())
}

/// The clauses of a formula in clauses.
pub(crate) fn own_clauses(expr: &Expr) -> Option<&Clauses>
    ensures { MatchOption result (own_clauses expr.now ≡ None)
        (λ clauses. own_clauses expr.now ≡ Some clauses.now) }
{
    match expr {
        Expr::Horn(clauses) => Some(clauses),
        Expr::Dual(clauses) => Some(clauses),
        Expr::Two(clauses) => Some(clauses),
        Expr::Constant(_) | Expr::States(_) | Expr::Node(_) | Expr::Not(_) => None,
        Expr::And(..) | Expr::Or(..) | Expr::After(..) | Expr::Before(..) => None,
    }
}

/// The place at which the set belongs among what is asked about; none where it is there.
fn place_for(asked: &[(usize, bool)], set: usize) -> Option<usize>
    requires { AskingsRise asked.now }
    ensures { MatchOption result ((after : Bool) × Contains asked.now (set, after))
        (IsPlaceFor asked.now set) }
{
    let place = lesser_before(asked, set);
    if place >= asked.len() {
        return Some(place);
    }
    let found = asked[place];
    if found.0 == set {
        return None;
    }
    Some(place)
}

/// How many of what is asked about have lesser identifiers.
pub(crate) fn lesser_before(asked: &[(usize, bool)], set: usize) -> usize
    requires { AskingsRise asked.now }
    ensures { IsSplitAt asked.now set result }
{
    asked.partition_point(|a| a.0 < set)
}
