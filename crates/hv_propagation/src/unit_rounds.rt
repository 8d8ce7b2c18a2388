//! Unit propagation over clauses that are few beside the atoms: in rounds, and without rows that
//! are as long as there are atoms.
//!
//! Each clause is looked at, round by round, beside a cube of what was found out, as long as no
//! more literals are read than there are atoms. So a formula of one clause over many atoms costs
//! what its clause has, and any other at most about twice what rows as long as there are atoms
//! cost.

ghost use Rattle.std.specs.Prelude.{◌≡◌, ◌<◌, [], length, slice_index_or, true, IfOk, OnOk};
ghost use Rattle.std.specs.List.{All};
ghost use Rattle.std.specs.List.Sorted.{IsStrictlyIncreasing};
ghost use Rattle.hv_sets.specs.declared.literal.Literal.{Literal as LiteralOf};
ghost use Rattle.hv_sets.specs.Cubes.{SpeakBelow, atoms_of};
ghost use Rattle.hv_propagation.specs.declared.watched.ScanState.TheVariants as T;
ghost use Rattle.hv_propagation.specs.Clauses.{AreClauses};
ghost use Rattle.hv_propagation.specs.Working.Scan.{IsSeenIn, IsScanState, Scans};
ghost use Rattle.hv_propagation.specs.Trail.{marked};
ghost use Rattle.hv_propagation.specs.Working.UnitRounds.{HasTwo, StepTells};
ghost use Rattle.hv_propagation.specs.UnitRounds.{IsAround, RoundsTell};
ghost use Rattle.hv_propagation.specs.Units.{value_of};

use crate::roots;
use crate::watched::{Pending, Scan, ScanState, Watch};
use hv_sets::{Clauses, Cube, Literal};
use std::alloc::AllocError;

/// What looks into clauses come to, beside the literals of a cube.
#[derive(Clone, Copy, Debug, PartialEq, Eq)]
pub enum RoundsEnd {
    /// No clause tells more.
    Settled,
    /// The clauses are true in no state.
    Broken,
    /// A clause told more.
    Open,
}

/// Puts into the cube what the clauses say, in as many rounds as cost no more than rows would.
pub fn run(clauses: &Clauses, atoms: usize, cube: &mut Cube) -> Result<RoundsEnd, AllocError>
    requires clauses { AreClauses atoms clauses.now }
    requires none { cube.old ≡ [] }
    ensures around { OnOk result (IsAround atoms clauses.now cube.new) }
    ensures tells { IfOk result (RoundsTell atoms clauses.now cube.new) }
{
    if tell_nothing(clauses) {
        return Ok(RoundsEnd::Settled);
    }
    for _ in 0..rounds_of(clauses, atoms) {
        match look_at_each(clauses, atoms, cube)? {
            RoundsEnd::Settled => return Ok(RoundsEnd::Settled),
            RoundsEnd::Broken => return Ok(RoundsEnd::Broken),
            RoundsEnd::Open => {}
        }
    }
    Ok(RoundsEnd::Open)
}

// Whether each clause has two different literals: then it tells nothing while nothing is known.
fn tell_nothing(clauses: &Clauses) -> bool
    ensures { result ≡ true → All HasTwo clauses.now }
{
    for place in 0..clauses.len() {
        if !has_two(clauses.get(place)) {
            return false;
        }
    }
    true
}

// Whether the clause has two different literals.
fn has_two(clause: &[Literal]) -> bool
    ensures { result ≡ true → HasTwo clause.now }
{
    let Some(first) = clause.first() else {
        return false;
    };
    for literal in clause {
        if *literal != *first {
            return true;
        }
    }
    false
}

// How often all literals may be read, so that no more are read than there are atoms.
fn rounds_of(clauses: &Clauses, atoms: usize) -> usize {
    let mut size: usize = 1;
    for place in 0..clauses.len() {
        size = size.saturating_add(clauses.get(place).len());
        if size > atoms {
            return 0;
        }
    }
    atoms / size.max(1)
}

// Looks at each clause once.
fn look_at_each(clauses: &Clauses, atoms: usize, cube: &mut Cube) -> Result<RoundsEnd, AllocError>
    requires clauses { AreClauses atoms clauses.now }
    requires around { IsAround atoms clauses.now cube.old }
    ensures around { OnOk result (IsAround atoms clauses.now cube.new) }
    ensures tells { IfOk result (RoundsTell atoms clauses.now cube.new) }
{
    let mut moved = false;
    for place in 0..clauses.len() {
        match look_at(clauses.get(place), atoms, cube)? {
            RoundsEnd::Settled => {}
            RoundsEnd::Broken => return Ok(RoundsEnd::Broken),
            RoundsEnd::Open => moved = true,
        }
    }
    if moved {
        return Ok(RoundsEnd::Open);
    }
    Ok(RoundsEnd::Settled)
}

// Puts into the cube what a clause says next.
fn look_at(clause: &[Literal], atoms: usize, cube: &mut Cube) -> Result<RoundsEnd, AllocError>
    requires { SpeakBelow atoms clause.now }
    ensures { IfOk result (StepTells atoms clause.now cube.old cube.new) }
{
    match scan(clause, atoms, cube.as_slice()) {
        Scan::Settled => Ok(RoundsEnd::Settled),
        Scan::Broken => Ok(RoundsEnd::Broken),
        Scan::Unit(literal) => {
            cube.add(literal)?;
            Ok(RoundsEnd::Open)
        }
    }
}

// What a clause says next beside literals by rising atoms.
fn scan(clause: &[Literal], atoms: usize, literals: &[Literal]) -> Scan
    requires rises { IsStrictlyIncreasing (atoms_of literals.now) }
    requires below { SpeakBelow atoms clause.now }
    ensures { Scans result [] (marked atoms literals.now) clause.now }
{
    let mut seen = None;
    for place in 0..clause.len() {
        match read(clause, place, seen, atoms, literals) {
            ScanState::Enough(_) => return Scan::Settled,
            ScanState::Left(now) => seen = now,
        }
    }
    match seen {
        None => Scan::Broken,
        Some(last) => Scan::Unit(last.literal),
    }
}

// Reads the literal at a place, beside others that left this one open.
fn read(
    clause: &[Literal],
    place: usize,
    pending: Option<Pending>,
    atoms: usize,
    literals: &[Literal],
) -> ScanState
    requires rises { IsStrictlyIncreasing (atoms_of literals.now) }
    requires below { SpeakBelow atoms clause.now }
    requires place { place < length clause.now }
    requires pending { IsScanState (T.Left pending) [] (marked atoms literals.now) clause.now }
    ensures scan_state { IsScanState result [] (marked atoms literals.now) clause.now }
    ensures here { (d : LiteralOf) → IsSeenIn result [] (marked atoms literals.now)
        (slice_index_or clause.now place d) }
    ensures others { (l : LiteralOf) → IsSeenIn (T.Left pending) [] (marked atoms literals.now) l
        → IsSeenIn result [] (marked atoms literals.now) l }
{
    let literal = clause[place];
    match value_in(literal, atoms, literals) {
        Some(true) => ScanState::Enough(Watch {
            first: place,
            second: place,
        }),
        Some(false) => ScanState::Left(pending),
        None => match pending {
            None => ScanState::Left(Some(Pending { literal, place })),
            Some(other) => {
                if other.literal == literal {
                    return ScanState::Left(pending);
                }
                ScanState::Enough(Watch {
                    first: other.place,
                    second: place,
                })
            }
        },
    }
}

// Whether a literal is true, as far as literals by rising atoms tell.
fn value_in(literal: Literal, atoms: usize, literals: &[Literal]) -> Option<bool>
    requires rises { IsStrictlyIncreasing (atoms_of literals.now) }
    requires atom { literal.atom < atoms }
    ensures { result ≡ value_of [] (marked atoms literals.now) literal }
{
    match roots::said(literals, atoms, literal.atom) {
        None => None,
        Some(value) => Some(value == literal.positive),
    }
}
