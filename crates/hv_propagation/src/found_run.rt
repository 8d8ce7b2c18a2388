//! A list of entries against those of a trail, in one loop.
//!
//! Where a literal became known, all that stands beside it is made true, or is seen to be, and that
//! is most of the work of a chase. So these are loops over bare rows, which know of no effect; what
//! was known before is asked for only where the trail says nothing. Where clauses are in order, the
//! entries follow each other on the trail as they do in the list, and are compared in pairs; from
//! the first one on that doesn't, each is looked for at the place of its atom. That an entry is on
//! the trail is all that counts here: the places may be any.

ghost use Rattle.std.specs.Prelude.{◌≡◌, ◌<◌, ◌≤◌, ◌/◌, ℕ, length, slice_index_or};
ghost use Rattle.hv_propagation.specs.Trail.{marked};
ghost use Rattle.hv_propagation.specs.Working.FoundRun.{AreQueued, IsForcedEntry, IsRun, on_trail};
ghost use Rattle.hv_propagation.specs.Working.Trail.{AreJoined};

use crate::roots::Roots;

// The place in a list that was come to, how long the trail is then, and whether no entry was met
// whose opposite is true.
#[derive(Clone, Copy)]
pub(crate) struct RunEnd {
    pub index: usize,
    pub len: usize,
    pub holds: bool,
}

// How long the trail is, and whether the opposite isn't true.
#[derive(Clone, Copy)]
pub(crate) struct Forced {
    pub len: usize,
    pub holds: bool,
}

// Puts each entry of the list from this place on last in the queue, unless what it denotes is known
// to be true, up to one that denotes no literal of so many atoms.
pub(crate) fn force_each(
    entries: &[u32],
    from: usize,
    atoms: usize,
    roots: &Roots<'_>,
    places: &mut [u32],
    queue: &mut [u32],
    len: usize,
) -> RunEnd
    requires few { atoms ≤ 2147483647 }
    requires joined { AreJoined (marked atoms roots.now) places.old queue.old len }
    ensures { IsRun entries.now from (marked atoms roots.now)
        (on_trail (marked atoms roots.now) queue.old len) places.new queue.new result }
{
    let mut index = past_run(entries, from, places, &queue[..len]);
    let mut end = len;
    while index < entries.len() {
        let entry = entries[index];
        if (entry / 2) as usize >= atoms {
            break;
        }
        let forced = force(entry, atoms, roots, places, queue, end);
        end = forced.len;
        index += 1;
        if !forced.holds {
            return RunEnd {
                index,
                len: end,
                holds: false,
            };
        }
    }
    RunEnd {
        index,
        len: end,
        holds: true,
    }
}

// Puts an entry last, unless something is known of its atom.
#[inline(always)]
fn force(
    entry: u32,
    atoms: usize,
    roots: &Roots<'_>,
    places: &mut [u32],
    queue: &mut [u32],
    len: usize,
) -> Forced
    requires few { atoms ≤ 2147483647 }
    requires atom { entry / 2 < atoms }
    requires joined { AreJoined (marked atoms roots.now) places.old queue.old len }
    ensures { IsForcedEntry entry (marked atoms roots.now)
        (on_trail (marked atoms roots.now) queue.old len) places.new queue.new result }
{
    let atom = entry / 2;
    let place = places[atom as usize] as usize;
    if place < len {
        let found = queue[place];
        if found == entry {
            return Forced { len, holds: true };
        }
        if found / 2 == atom {
            return Forced { len, holds: false };
        }
    }
    match roots.read(atoms, atom) {
        Some(value) => Forced {
            len,
            holds: value == (entry % 2 == 1),
        },
        None => {
            places[atom as usize] = len as u32;
            queue[len] = entry;
            Forced {
                len: len + 1,
                holds: true,
            }
        }
    }
}

// The first place of the list from this one on whose entry doesn't follow that before it in the
// queue.
#[inline(always)]
fn past_run(entries: &[u32], from: usize, places: &[u32], queue: &[u32]) -> usize
    ensures after { from ≤ result }
    ensures queued { AreQueued entries.now queue.now from result }
{
    if from >= entries.len() {
        return from;
    }
    let place = place_of(entries[from], places).min(queue.len());
    from + common_front(&entries[from..], &queue[place..])
}

// How many of the first entries of two lists are the same.
#[inline(always)]
fn common_front(one: &[u32], other: &[u32]) -> usize
    ensures within { result ≤ length one.now }
    ensures other { result ≤ length other.now }
    ensures same { (k : ℕ) → k < result
        → slice_index_or one.now k 0 ≡ slice_index_or other.now k 0 }
{
    let len = one.len().min(other.len());
    let mut count = 0;
    while count < len {
        if one[count] != other[count] {
            return count;
        }
        count += 1;
    }
    count
}

// The place of the entry's atom, or else one past all others.
#[inline(always)]
fn place_of(entry: u32, places: &[u32]) -> usize {
    let atom = (entry / 2) as usize;
    if atom >= places.len() {
        return usize::MAX;
    }
    places[atom] as usize
}
