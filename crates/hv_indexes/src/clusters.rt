//! Clauses in clusters: those of a cluster have one literal in common, under which they are put.
//!
//! A cluster is tried where its literal is false. It has a screen where that takes little room
//! beside its clauses: where the screen is true in the state, all of them are, and where they have
//! two literals each, the screen alone decides.

ghost use Rattle.std.specs.Prelude.{◌≡◌, ◌<◌, ◌^◌, ℕ, [], IfOk, OnOk};
ghost use Rattle.std.specs.Prelude.{length, slice_index_or, true, false};
ghost use Rattle.std.specs.List.{All, Contains};
ghost use Rattle.hv_task.specs.State.{AreBelow, has_atom, state_of};
ghost use Rattle.hv_sets.specs.Cubes.{SpeakBelow};
ghost use Rattle.hv_sets.specs.Truth.{in_clause};
ghost use Rattle.hv_indexes.specs.Mates.{AreClusters, IsPutUnder, cluster_places, AreTried};
ghost use Rattle.hv_indexes.specs.Working.Mates.{AreClustersUpto, HoldsAll, IsDue};
ghost use Rattle.hv_indexes.specs.Working.Mates.{PutsCluster};
ghost use Rattle.hv_indexes.specs.Occurrences.{IsIndexOf};
ghost use Rattle.hv_indexes.specs.Rows.{HasHeads, code, place_of_code};
ghost use Rattle.hv_indexes.specs.declared.clusters.Cluster.{Cluster};

use crate::counted::sort_by_keys;
use crate::occurrences::Occurrences;
use crate::rows::{self, RowHead, RowRange};
use crate::screens::{self, Screen};
use hv_sets::{Clauses, Literal};
use hv_task::State;
use std::alloc::{AllocError, Global};

// A state of all atoms is made where there is a clause for so many of them.
const FLAGS: usize = 8;

/// Where the places of some clauses stand, and the place of their screen.
#[derive(Clone, Copy, Drop)]
pub(crate) struct Cluster {
    pub range: RowRange,
    pub screen: Option<usize>,
}

/// Clusters, and their screens.
#[derive(Drop)]
pub(crate) struct ClusterList {
    pub clusters: Vec<Cluster>,
    pub screens: Vec<Screen>,
}

/// Clauses that have a literal of one sign, each put under the atom of one of these: by rising
/// atoms the places of the clauses, where those of each atom begin, and the cluster of each atom.
#[derive(Drop)]
pub(crate) struct Clusters {
    pub heads: Vec<RowHead>,
    pub places: Vec<u32>,
    pub list: ClusterList,
}

impl Clusters {
    // Those of no clauses.
    pub(crate) fn none(alloc: Global) -> Clusters
        ensures { AreClusters [] result }
    {
        Clusters {
            heads: Vec::new(alloc),
            places: Vec::new(alloc),
            list: ClusterList::new(alloc),
        }
    }

    // Those of the clauses of these codes: of the atom of a literal of this sign, under which the
    // clause is put, and the clause's place.
    pub(crate) fn of(
        alloc: Global,
        atoms: u32,
        sign: bool,
        clauses: &Clauses,
        occurs: &Occurrences,
        codes: Vec<usize>,
    ) -> Result<Clusters, AllocError>
        requires occurs { IsIndexOf clauses.now occurs.now }
        requires codes { (x : ℕ) → Contains codes.items x
            → place_of_code x < length clauses.now }
        ensures are { IfOk result (AreClusters clauses.now) }
        ensures owned { IfOk result (λ them. (p c : ℕ) → c < 2 ^ 32
            → Contains codes.items (code p c) → IsPutUnder them p c) }
    {
        let mut codes = codes;
        sort_by_keys(alloc, &mut codes)?;
        let heads = rows::heads_of(alloc, &codes)?;
        let places = rows::numbers_of(alloc, &codes)?;
        let list = ClusterList::of(alloc, atoms, sign, clauses, occurs, &heads, &places)?;
        Ok(Clusters {
            heads,
            places,
            list,
        })
    }

    // Whether all clauses are true in which the literal of this sign is false under whose atom they
    // are put.
    pub(crate) fn are_true(&self, sign: bool, clauses: &Clauses, state: &State) -> bool
        requires clauses { All (SpeakBelow (length state.now)) clauses.now }
        requires are { AreClusters clauses.now self.now }
        ensures { AreTried result clauses.now (IsDue sign self.now state.now) state.now }
    {
        for at in 0..self.heads.len() {
            if is_true_at(self.heads[at].key, sign, state) {
                continue;
            }
            if !self.holds(at, clauses, state) {
                return false;
            }
        }
        true
    }

    // The same for negative literals, where the state holds just these atoms.
    pub(crate) fn are_true_under(&self, clauses: &Clauses, held: &[u32], state: &State) -> bool
        requires clauses { All (SpeakBelow (length state.now)) clauses.now }
        requires are { AreClusters clauses.now self.now }
        requires below { AreBelow (length state.now) held.now }
        requires state { state.now ≡ state_of (length state.now) held.now }
        ensures { AreTried result clauses.now (IsDue false self.now state.now) state.now }
    {
        if held.len() > self.heads.len() {
            return self.are_true(false, clauses, state);
        }
        for at in 0..held.len() {
            if !self.holds_under(held[at], clauses, state) {
                return false;
            }
        }
        true
    }

    // Whether the clauses are true that are put under this atom.
    fn holds_under(&self, atom: u32, clauses: &Clauses, state: &State) -> bool
        requires clauses { All (SpeakBelow (length state.now)) clauses.now }
        requires are { AreClusters clauses.now self.now }
        ensures { AreTried result clauses.now (IsPutUnder self.now atom) state.now }
    {
        match rows::head_of(&self.heads, atom) {
            None => true,
            Some(at) => self.holds(at, clauses, state),
        }
    }

    // Whether the clauses of the cluster at this place are true.
    fn holds(&self, at: usize, clauses: &Clauses, state: &State) -> bool
        requires clauses { All (SpeakBelow (length state.now)) clauses.now }
        requires are { AreClusters clauses.now self.now }
        requires at { at < length self.now.heads.items }
        ensures { (e : Cluster) → AreTried result clauses.now
            (Contains (cluster_places self.now.places.items
            (slice_index_or self.now.list.clusters.items at e))) state.now }
    {
        let cluster = self.list.clusters[at];
        if let Some(screen) = cluster.screen {
            if let Some(decided) = self.list.screens[screen].decides(state) {
                return decided;
            }
        }
        let range = cluster.range;
        are_true(clauses, &self.places[range.from..range.upto], state)
    }
}

impl ClusterList {
    fn new(alloc: Global) -> ClusterList
        ensures clusters { result.clusters.items ≡ [] }
        ensures screens { result.screens.items ≡ [] }
    {
        ClusterList {
            clusters: Vec::new(alloc),
            screens: Vec::new(alloc),
        }
    }

    // A cluster for each head.
    fn of(
        alloc: Global,
        atoms: u32,
        sign: bool,
        clauses: &Clauses,
        occurs: &Occurrences,
        heads: &[RowHead],
        places: &[u32],
    ) -> Result<ClusterList, AllocError>
        requires occurs { IsIndexOf clauses.now occurs.now }
        requires heads { HasHeads heads.now (length places.now) }
        requires places { (k : ℕ) → k < length places.now
            → slice_index_or places.now k 0 < length clauses.now }
        ensures { IfOk result
            (AreClustersUpto clauses.now heads.now places.now (length heads.now)) }
    {
        let full = full_state(alloc, atoms_of_screens(heads, places.len(), atoms))?;
        let mut list = ClusterList::new(alloc);
        for at in 0..heads.len() {
            let range = rows::part_of(heads, places.len(), heads[at].key);
            let part = &places[range.from..range.upto];
            let own = Literal {
                atom: heads[at].key,
                positive: sign,
            };
            let standing = occurs.standing(own);
            let screen = Screen::of(alloc, clauses, part, &standing, &full)?;
            list.put(range, screen)?;
        }
        Ok(list)
    }

    // Puts a cluster last, and its screen behind the others.
    fn put(&mut self, range: RowRange, screen: Option<Screen>) -> Result<(), AllocError>
        ensures { OnOk result (PutsCluster self.old range screen self.new) }
    {
        match screen {
            None => {
                self.clusters.push(Cluster {
                    range,
                    screen: None,
                })?;
                Ok(())
            }
            Some(screen) => {
                let place = self.screens.len();
                self.screens.push(screen)?;
                self.clusters.push(Cluster {
                    range,
                    screen: Some(place),
                })?;
                Ok(())
            }
        }
    }
}

// How many atoms a screen has: none, if there is none that pays.
fn atoms_of_screens(heads: &[RowHead], count: usize, atoms: u32) -> u32 {
    if atoms as usize / FLAGS > count {
        return 0;
    }
    for at in 0..heads.len() {
        let end = match heads.get(at + 1) {
            None => count,
            Some(next) => next.start as usize,
        };
        if screens::pays(atoms, end.saturating_sub(heads[at].start as usize)) {
            return atoms;
        }
    }
    0
}

// A state that holds so many atoms, all that there are.
fn full_state(alloc: Global, atoms: u32) -> Result<State, AllocError>
    ensures { IfOk result HoldsAll }
{
    let mut full = State::empty(alloc, atoms)?;
    for atom in 0..atoms {
        full.set(atom, true);
    }
    Ok(full)
}

// Whether the literal of this atom and sign is true in the state, which has the atom.
fn is_true_at(atom: u32, sign: bool, state: &State) -> bool
    ensures { result ≡ true → has_atom state.now atom ≡ sign }
{
    atom < state.atoms() && state.has(atom) == sign
}

/// Whether the clauses at these places are true. The answer false says that some clause is false,
/// which may stand elsewhere.
pub fn are_true(clauses: &Clauses, places: &[u32], state: &State) -> bool
    requires clauses { All (SpeakBelow (length state.now)) clauses.now }
    requires places { (k : ℕ) → k < length places.now
        → slice_index_or places.now k 0 < length clauses.now }
    ensures { AreTried result clauses.now (Contains places.now) state.now }
{
    for at in 0..places.len() {
        if !is_true_in(clauses.get(places[at] as usize), state) {
            return false;
        }
    }
    true
}

/// Whether the clause is true in the state.
pub fn is_true_in(clause: &[Literal], state: &State) -> bool
    requires { SpeakBelow (length state.now) clause.now }
    ensures { result ≡ in_clause clause.now state.now }
{
    clause.iter().any(|literal| literal.is_true_in(state))
}
