//! Buffers for a trail.

ghost use Rattle.std.specs.Prelude.{◌≡◌, ◌<◌, ◌≤◌, IfOk, length, slice_index, slice_set};
ghost use Rattle.hv_propagation.specs.Working.Buffers.{places_in, queue_in};
ghost use Rattle.hv_propagation.specs.Working.FoundRun.{IsRun, on_trail};
ghost use Rattle.hv_propagation.specs.Trail.{marked};
ghost use Rattle.hv_propagation.specs.Working.Trail.{AreJoined};

use crate::found_run::{self, RunEnd};
use crate::roots::Roots;
use std::alloc::{AllocError, Global};

// A row of places and a row of entries: its own, or else those that others lend.
#[derive(Drop)]
pub(crate) struct Buffers<'a> {
    places: &'a mut [u32],
    queue: &'a mut [u32],
    own: Option<OwnBuffers>,
}

// Rows that are owned.
#[derive(Drop)]
pub(crate) struct OwnBuffers {
    places: Vec<u32>,
    queue: Vec<u32>,
}

impl<'a> Buffers<'a> {
    // These rows.
    pub(crate) fn lent(places: &'a mut [u32], queue: &'a mut [u32]) -> Buffers<'a>
        ensures places { places_in result ≡ places.old }
        ensures queue { queue_in result ≡ queue.old }
    {
        Buffers {
            places,
            queue,
            own: None,
        }
    }

    // Rows of its own, of this length.
    pub(crate) fn owned(alloc: Global, len: usize) -> Result<Buffers<'a>, AllocError>
        ensures places { IfOk result (λ buffers. len ≤ length (places_in buffers)) }
        ensures queue { IfOk result (λ buffers. len ≤ length (queue_in buffers)) }
    {
        let mut places = Vec::new(alloc);
        places.resize(len, 0)?;
        let mut queue = Vec::new(alloc);
        queue.resize(len, 0)?;
        Ok(Buffers {
            places: &mut [],
            queue: &mut [],
            own: Some(OwnBuffers { places, queue }),
        })
    }

    // Puts each entry of a list last, unless what it denotes is known to be true (`found_run`).
    #[inline(always)]
    pub(crate) fn force_each(
        &mut self,
        entries: &[u32],
        from: usize,
        atoms: usize,
        roots: &Roots<'_>,
        len: usize,
    ) -> RunEnd
        requires few { atoms ≤ 2147483647 }
        requires joined { AreJoined (marked atoms roots.now) (places_in self.old)
            (queue_in self.old) len }
        ensures { IsRun entries.now from (marked atoms roots.now)
            (on_trail (marked atoms roots.now) (queue_in self.old) len)
            (places_in self.new) (queue_in self.new) result }
    {
        match &mut self.own {
            None => {
                found_run::force_each(entries, from, atoms, roots, self.places, self.queue, len)
            }
            Some(rows) => found_run::force_each(
                entries,
                from,
                atoms,
                roots,
                &mut rows.places,
                &mut rows.queue,
                len,
            ),
        }
    }

    // The place that is here.
    #[inline(always)]
    pub(crate) fn place(&self, at: usize) -> u32
        requires { at < length (places_in self.now) }
        ensures { result ≡ slice_index (places_in self.now) at }
    {
        match &self.own {
            None => read(self.places, at),
            Some(rows) => read(&rows.places, at),
        }
    }

    // The entry that is here.
    #[inline(always)]
    pub(crate) fn entry(&self, at: usize) -> u32
        requires { at < length (queue_in self.now) }
        ensures { result ≡ slice_index (queue_in self.now) at }
    {
        match &self.own {
            None => read(self.queue, at),
            Some(rows) => read(&rows.queue, at),
        }
    }

    // Writes a place.
    #[inline(always)]
    pub(crate) fn set_place(&mut self, at: usize, place: u32)
        requires { at < length (places_in self.old) }
        ensures places { places_in self.new ≡ slice_set (places_in self.old) at place }
        ensures queue { queue_in self.new ≡ queue_in self.old }
    {
        match &mut self.own {
            None => write(self.places, at, place),
            Some(rows) => write(&mut rows.places, at, place),
        }
    }

    // Writes an entry.
    #[inline(always)]
    pub(crate) fn set_entry(&mut self, at: usize, entry: u32)
        requires { at < length (queue_in self.old) }
        ensures queue { queue_in self.new ≡ slice_set (queue_in self.old) at entry }
        ensures places { places_in self.new ≡ places_in self.old }
    {
        match &mut self.own {
            None => write(self.queue, at, entry),
            Some(rows) => write(&mut rows.queue, at, entry),
        }
    }
}

#[inline(always)]
fn read(row: &[u32], at: usize) -> u32
    requires { at < length row.now }
    ensures { result ≡ slice_index row.now at }
{
    row[at]
}

#[inline(always)]
fn write(row: &mut [u32], at: usize, value: u32)
    requires { at < length row.old }
    ensures { row.new ≡ slice_set row.old at value }
{
    row[at] = value;
}
