//! The edge of one session.

ghost use Rattle.std.specs.Prelude.{◌≡◌, ◌≤◌, true, None};
ghost use Rattle.ftp_base.specs.Outside.{HasRisen};
ghost use Rattle.ftp_system.specs.Edge.{is_between, system_meaning};

use crate::handoff::{Handoff, PendingConnection};
use ftp_base::{Bytes, Edge, SocketAddr};
use ftp_system::SystemEdge;
use std::alloc::Global;
use std::net::Net;
use std::random::RandomSource;
use std::sync::{Arc, Wait};
use std::time::Clock;

/// The system's edge, for one session: the connections that it makes wait for their jobs, and the ports that it binds
/// for their entries.
#[derive(Drop)]
pub(crate) struct SessionEdge<R: Net + Wait + Clock + RandomSource + Copy + Drop> {
    rt: R,
    alloc: Global,
    session: u64,
    handoff: Arc<Handoff, Global>,
    system: SystemEdge<R>,
    faults: u64,
    paused: u64,
}

impl<R: Net + Wait + Clock + RandomSource + Copy + Drop> SessionEdge<R> {
    pub(crate) fn new(
        rt: R,
        alloc: Global,
        session: u64,
        handoff: Arc<Handoff, Global>,
        system: SystemEdge<R>,
    ) -> SessionEdge<R> {
        SessionEdge {
            rt,
            alloc,
            session,
            handoff,
            system,
            faults: 0,
            paused: 0,
        }
    }

    // Counts a call that failed.
    fn count(&mut self)
        ensures fault_rose { HasRisen self.old.faults self.new.faults }
        ensures count { self.old.faults ≤ self.new.faults }
        ensures unpaused { self.new.paused ≡ self.old.paused }
    {
        self.faults = self.faults.saturating_add(1);
    }

    // Binds the port at which the session waits once more: it may be the last.
    fn bind_own(&mut self, lo: u16, hi: u16) -> Option<u16>
        ensures may { is_between lo hi result ≡ true }
        ensures faults { self.new.faults ≡ self.old.faults }
        ensures unpaused { self.new.paused ≡ self.old.paused }
    {
        let port = self.handoff.free_port(&self.rt, self.session)?;
        self.system.bind(lo.max(port), hi.min(port))
    }

    // Keeps the listener of the port that was bound last, and says whether there is room.
    fn keep_bound(&mut self, port: u16) -> bool
        ensures faults { self.new.faults ≡ self.old.faults }
        ensures unpaused { self.new.paused ≡ self.old.paused }
    {
        match self.system.take_bound() {
            Some((_, listener)) => {
                self.handoff
                    .keep_bound(&self.rt, self.session, port, listener)
            }
            None => false,
        }
    }

    // Keeps the connection that was made last, and says whether there is room.
    fn keep_made(&mut self) -> bool
        ensures faults { self.new.faults ≡ self.old.faults }
        ensures unpaused { self.new.paused ≡ self.old.paused }
    {
        match self.system.take_made() {
            Some((number, stream)) => {
                let ahead = Vec::new(self.alloc);
                self.handoff
                    .keep_link(&self.rt, number, PendingConnection { stream, ahead })
            }
            None => false,
        }
    }
}

impl<R: Net + Wait + Clock + RandomSource + Copy + Drop> Edge for SessionEdge<R> {
    ghost view = { λ s. record { feed = None; meaning = system_meaning; faults = s.faults; paused = s.paused } };

    fn now(&mut self) -> u64 {
        self.system.now()
    }

    fn word(&mut self) -> u128 {
        self.system.word()
    }

    fn lookup(&mut self, name: &Bytes) -> Option<u32> {
        let found = self.system.lookup(name);
        if found.is_none() {
            self.count();
        }
        found
    }

    fn bind(&mut self, lo: u16, hi: u16) -> Option<u16> {
        let mut bound = self.system.bind(lo, hi);
        if bound.is_none() {
            bound = self.bind_own(lo, hi);
        }
        match bound {
            Some(port) if self.keep_bound(port) => bound,
            _ => {
                self.count();
                None
            }
        }
    }

    fn connect(&mut self, to: SocketAddr, number: u64) -> bool {
        if self.system.connect(to, number) && self.keep_made() {
            return true;
        }
        self.count();
        false
    }

    fn pause(&mut self, millis: u64) {
        self.system.pause(millis);
        self.paused = self.paused.saturating_add(millis);
    }
}
