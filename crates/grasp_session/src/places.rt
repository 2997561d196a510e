//! The 64 places of the sessions of a node.

ghost use Rattle.std.specs.Prelude.{◌≡◌, ℕ, ◌+◌, ◌<◌, ◌≤◌, true, Some, None, length, replicate, slice_index_or, slice_set, count_by};
ghost use Rattle.std.specs.Prelude.{is_some, is_none, option_copied, All, IfSome, IfOk};
ghost use Rattle.grasp_session.specs.declared.session.Session.{Session};

use crate::session::Session;
use grasp_cbor::OutOfMemory;
use slab::Slab;
use std::alloc::Global;
use std::marker::Model;

/// How many sessions a node holds at most.
pub(crate) const PLACES: usize = 64;

/// The places, each empty or with a session. The memory for all of them is taken at the beginning.
#[derive(Drop)]
pub(crate) struct Places {
    keys: [Option<usize>; 64],
    sessions: Slab<Session>,
    // no session without an outcome has a deadline before this reading
    earliest: u64,
}

impl Model for Places {
    ghost use Rattle.std.specs.Prelude.{◌≡◌, ◌≤◌, true, List, All, Option, is_none, IfSome};
    ghost use Rattle.grasp_session.specs.declared.session.Session.{Session};
    ghost use Rattle.grasp_session.specs.Places.{held, AreSound};
    ghost use Rattle.grasp_session.specs.contracts.session.Session as session;
    ghost use Rattle.std.specs.Coded.{codes};

    ghost Value = { List (Option Session) };

    ghost coded = { Prim.hlevel (codes, session.the_row.coded) };

    ghost view = { λ p. held p.sessions p.keys };

    ghost invariant = { λ p. AreSound p.sessions p.keys
        × All (λ held. IfSome held (λ session. is_none session.ending ≡ true → p.earliest ≤ session.deadline)) (held p.sessions p.keys) };
}

impl Places {
    /// 64 empty places.
    pub(crate) fn new(alloc: Global) -> Result<Places, OutOfMemory>
        ensures { IfOk result (λ p. p ≡ replicate 64 None) }
    {
        Ok(Places {
            keys: [None; 64],
            sessions: Slab::with_capacity(alloc, PLACES)?,
            earliest: u64::MAX,
        })
    }

    /// How many places there are.
    pub(crate) fn len(&self) -> usize
        ensures value { result ≡ length self.now }
        ensures all { result ≡ 64 }
    {
        self.keys.as_slice().len()
    }

    /// The session at this place, if there is one.
    pub(crate) fn get(&self, place: usize) -> Option<&Session>
        ensures session { option_copied result ≡ slice_index_or self.now place None }
        ensures length { length self.now ≡ 64 }
    {
        match self.keys.get(place) {
            Some(Some(key)) => self.sessions.get(*key),
            _ => None,
        }
    }

    /// Takes out the session at this place, if there is one.
    pub(crate) fn take(&mut self, place: usize) -> Option<Session>
        requires { place < 64 }
        ensures session { result ≡ slice_index_or self.old place None }
        ensures rest { self.new ≡ slice_set self.old place None }
        ensures length { length self.old ≡ 64 }
    {
        let key = self.keys[place]?;
        self.keys[place] = None;
        Some(self.sessions.remove(key))
    }

    /// Puts a session at an empty place.
    pub(crate) fn put(&mut self, place: usize, session: Session)
        requires place { place < 64 }
        requires empty { slice_index_or self.old place None ≡ None }
        ensures kept { self.new ≡ slice_set self.old place (Some session) }
        ensures length { length self.old ≡ 64 }
    {
        self.earliest = self.earliest.min(session.deadline);
        let key = self.sessions.insert_reserved(session);
        self.keys[place] = Some(key);
    }

    /// Before this reading no session without an outcome has its deadline.
    pub(crate) fn earliest(&self) -> u64
        ensures { All (λ held. IfSome held (λ session. is_none session.ending ≡ true → result ≤ session.deadline)) self.now }
    {
        self.earliest
    }

    /// Looks for the least deadline of the sessions without an outcome.
    pub(crate) fn look_again(&mut self)
        ensures { self.new ≡ self.old }
    {
        self.earliest = self.least_deadline();
    }

    /// The least deadline of the sessions without an outcome, or the greatest reading where there is none.
    fn least_deadline(&self) -> u64
        ensures { All (λ held. IfSome held (λ session. is_none session.ending ≡ true → result ≤ session.deadline)) self.now }
    {
        let mut least = u64::MAX;
        for place in 0..self.len() {
            least = earlier(least, self.get(place));
        }
        least
    }

    /// How many places have a session.
    pub(crate) fn count(&self) -> usize
        ensures count { result ≡ count_by is_some self.now }
        ensures length { length self.now ≡ 64 }
    {
        self.sessions.len()
    }
}

/// The lesser of a reading and the deadline of this session, where it has no outcome.
fn earlier(reading: u64, session: Option<&Session>) -> u64
    ensures reading { result ≤ reading }
    ensures deadline { IfSome (option_copied session.entry) (λ session. is_none session.ending ≡ true → result ≤ session.deadline) }
{
    match session {
        Some(session) if session.ending.is_none() => reading.min(session.deadline),
        _ => reading,
    }
}
