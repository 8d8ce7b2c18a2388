//! Looks into a clause, each from the places on at which an earlier one ended.
//!
//! A look into a clause of more than two literals begins at two places that are remembered for it,
//! those of a true literal or of two unassigned ones. It reads the literal at the first and then
//! goes round from the second, so a look costs two reads while both are unassigned; what it skips
//! is false, and stays so until it is taken back, so a clause of n literals costs some 2 * n reads
//! in one chase, however often it is looked into. The places are in a row that the `Scratch` lends,
//! and whatever is in it is right: a place past the end is skipped, any other only says where a
//! look begins, and no answer depends on it. So the row is neither cleared nor taken back, the
//! operands of a query share it (where two of them have a long clause at the same place, the one
//! may send the looks into the other back to its beginning), and a row that is too short costs
//! nothing but time. There is no counter of unassigned literals, which would have to be cleared for
//! each query and taken back for each choice.

ghost use Rattle.std.specs.Prelude.{◌<◌, ◌≤◌, [], ◌∷◌, length, slice_index_or};
ghost use Rattle.hv_sets.specs.declared.literal.Literal.{Literal as LiteralOf};
ghost use Rattle.hv_propagation.specs.declared.watched.ScanState.TheVariants as T;
ghost use Rattle.hv_propagation.specs.Working.Scan.{IsRoundFrom, IsSeenIn, IsScanState, Scans};
ghost use Rattle.hv_propagation.specs.Trail.{marks_of};

use crate::effect::ActionEffect;
use crate::literals;
use crate::trail::Assignment;
use hv_sets::Literal;

// What a clause says next.
#[derive(Clone, Copy, Debug, PartialEq, Eq)]
pub(crate) enum Scan {
    // Nothing more: a literal is true, or two different ones are open.
    Settled,
    // That this literal is true, since all others are false.
    Unit(Literal),
    // That there is no state, since all literals are false.
    Broken,
}

// Two places of a clause, at which a look into it begins. Any two will do, also past its end.
#[derive(Clone, Copy)]
pub(crate) struct Watch {
    pub first: usize,
    pub second: usize,
}

// What a clause says next, and the two places at which the look ended.
#[derive(Clone, Copy)]
pub(crate) struct ScanEnd {
    pub scan: Scan,
    pub watch: Watch,
}

// An open literal, and its place in a clause.
#[derive(Clone, Copy)]
pub(crate) struct Pending {
    pub literal: Literal,
    pub place: usize,
}

// What those literals of a clause tell that were read.
#[derive(Clone, Copy)]
pub(crate) enum ScanState {
    // One is true, or two different ones are open: those at these places.
    Enough(Watch),
    // All are false, but for one open literal, if there is one.
    Left(Option<Pending>),
}

// Looks through the literals of a clause: at that at the first place, and then at those from the
// second place on, with those at the front last, until it is settled.
pub(crate) fn scan_clause(
    clause: &[Literal],
    watch: Watch,
    effect: &ActionEffect<'_>,
    marks: &Assignment<'_>,
) -> ScanEnd
    ensures { Scans result.scan effect.now (marks_of marks.now) clause.now }
{
    if let [one, two] = clause {
        let scan = scan_two(*one, *two, effect, marks);
        return ScanEnd { scan, watch };
    }
    match read_at(clause, watch.first, None, effect, marks) {
        ScanState::Enough(found) => ScanEnd {
            scan: Scan::Settled,
            watch: found,
        },
        ScanState::Left(pending) => {
            let from = watch.second.min(clause.len());
            search(clause, from, pending, effect, marks)
        }
    }
}

// Looks at the literals of a clause of two.
fn scan_two(one: Literal, two: Literal, effect: &ActionEffect<'_>, marks: &Assignment<'_>) -> Scan
    ensures { Scans result effect.now (marks_of marks.now) (one ∷ two ∷ []) }
{
    match literals::value(effect, marks, one) {
        Some(true) => Scan::Settled,
        Some(false) => match literals::value(effect, marks, two) {
            Some(true) => Scan::Settled,
            Some(false) => Scan::Broken,
            None => Scan::Unit(two),
        },
        None => match literals::value(effect, marks, two) {
            Some(true) => Scan::Settled,
            Some(false) => Scan::Unit(one),
            None if one == two => Scan::Unit(one),
            None => Scan::Settled,
        },
    }
}

// Reads the literal at a place, unless that is past the end.
#[inline(always)]
fn read_at(
    clause: &[Literal],
    place: usize,
    pending: Option<Pending>,
    effect: &ActionEffect<'_>,
    marks: &Assignment<'_>,
) -> ScanState
    requires { IsScanState (T.Left pending) effect.now (marks_of marks.now) clause.now }
    ensures { IsScanState result effect.now (marks_of marks.now) clause.now }
{
    if place >= clause.len() {
        return ScanState::Left(pending);
    }
    read(clause, place, pending, effect, marks)
}

// Reads the literal at a place, beside others that left this one open.
#[inline(always)]
fn read(
    clause: &[Literal],
    place: usize,
    pending: Option<Pending>,
    effect: &ActionEffect<'_>,
    marks: &Assignment<'_>,
) -> ScanState
    requires place { place < length clause.now }
    requires pending { IsScanState (T.Left pending) effect.now (marks_of marks.now) clause.now }
    ensures scan_state { IsScanState result effect.now (marks_of marks.now) clause.now }
    ensures here { (d : LiteralOf) → IsSeenIn result effect.now (marks_of marks.now)
        (slice_index_or clause.now place d) }
    ensures others { (l : LiteralOf) → IsSeenIn (T.Left pending) effect.now (marks_of marks.now) l
        → IsSeenIn result effect.now (marks_of marks.now) l }
{
    let literal = clause[place];
    match literals::value(effect, marks, literal) {
        Some(true) => ScanState::Enough(Watch {
            first: place,
            second: place,
        }),
        Some(false) => ScanState::Left(pending),
        None => match pending {
            None => ScanState::Left(Some(Pending { literal, place })),
            Some(other) => {
                if other.literal == literal {
                    return ScanState::Left(pending);
                }
                ScanState::Enough(Watch {
                    first: other.place,
                    second: place,
                })
            }
        },
    }
}

// Reads the literals from a place on, and then those at the front.
#[inline]
fn search(
    clause: &[Literal],
    from: usize,
    pending: Option<Pending>,
    effect: &ActionEffect<'_>,
    marks: &Assignment<'_>,
) -> ScanEnd
    requires from { from ≤ length clause.now }
    requires pending { IsScanState (T.Left pending) effect.now (marks_of marks.now) clause.now }
    ensures { Scans result.scan effect.now (marks_of marks.now) clause.now }
{
    let mut seen = pending;
    for step in 0..clause.len() {
        let place = place_after(from, step, clause.len());
        match read(clause, place, seen, effect, marks) {
            ScanState::Enough(watch) => {
                return ScanEnd {
                    scan: Scan::Settled,
                    watch,
                };
            }
            ScanState::Left(now) => seen = now,
        }
    }
    match seen {
        None => ScanEnd {
            scan: Scan::Broken,
            watch: Watch {
                first: from,
                second: from,
            },
        },
        Some(last) => ScanEnd {
            scan: Scan::Unit(last.literal),
            watch: Watch {
                first: last.place,
                second: last.place,
            },
        },
    }
}

// The place so many steps after another one, where the first comes after the last.
#[inline(always)]
fn place_after(from: usize, step: usize, len: usize) -> usize
    requires from { from ≤ len }
    requires step { step < len }
    ensures { IsRoundFrom from step len result }
{
    let left = len - from;
    if step < left {
        from + step
    } else {
        step - left
    }
}
