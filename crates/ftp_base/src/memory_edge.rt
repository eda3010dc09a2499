//! The edge of the system in memory.

ghost use Rattle.std.specs.Prelude.{◌≡◌, true, false, None, is_none, not, if◌then◌else◌};
ghost use Rattle.ftp_base.specs.Calls.{one_more};
ghost use Rattle.ftp_base.specs.Edge.{edge_view, next_number, next_answer, next_connect, behind_moment, behind_word, behind_lookup, behind_port, behind_connect, after_pause};

use crate::bytes::Bytes;
use crate::coming::Coming;
use crate::edge::Edge;
use crate::net::SocketAddr;
use std::marker::Model;

/// An edge whose answers are listed: each call takes the next item of its list.
///
/// Behind the end of a list words and moments are 0, no name has an address, no port is bound and no connection is made.
#[derive(Drop)]
pub struct MemoryEdge {
    words: Coming<u128>,
    moments: Coming<u64>,
    lookups: Coming<Option<u32>>,
    ports: Coming<Option<u16>>,
    connects: Coming<bool>,
    faults: u64,
    paused: u64,
}

impl Model for MemoryEdge {
    ghost use Rattle.ftp_base.specs.Edge.{EdgeState};

    ghost Value = { EdgeState };

    ghost view = { λ e. record {
      feed = record { moments = e.moments; words = e.words; lookups = e.lookups; ports = e.ports; connects = e.connects };
      faults = e.faults;
      paused = e.paused;
    } };
}

impl MemoryEdge {
    pub fn new(
        words: Vec<u128>,
        moments: Vec<u64>,
        lookups: Vec<Option<u32>>,
        ports: Vec<Option<u16>>,
        connects: Vec<bool>,
    ) -> MemoryEdge
        ensures words { result.feed.words ≡ words.items }
        ensures moments { result.feed.moments ≡ moments.items }
        ensures lookups { result.feed.lookups ≡ lookups.items }
        ensures ports { result.feed.ports ≡ ports.items }
        ensures connects { result.feed.connects ≡ connects.items }
        ensures no_fault { result.faults ≡ 0 }
        ensures unpaused { result.paused ≡ 0 }
    {
        MemoryEdge {
            words: Coming::new(words),
            moments: Coming::new(moments),
            lookups: Coming::new(lookups),
            ports: Coming::new(ports),
            connects: Coming::new(connects),
            faults: 0,
            paused: 0,
        }
    }

    /// How many calls failed. At its last value the count stands still.
    pub fn faults(&self) -> u64
        ensures { result ≡ self.now.faults }
    {
        self.faults
    }

    /// How many milliseconds were paused. At its last value the count stands still.
    pub fn paused(&self) -> u64
        ensures { result ≡ self.now.paused }
    {
        self.paused
    }
}

impl Edge for MemoryEdge {
    ghost view = { edge_view };

    fn now(&mut self) -> u64
        ensures next { result ≡ next_number self.old.feed.moments }
        ensures taken { self.new ≡ record self.old { feed = behind_moment self.old.feed } }
    {
        self.moments.next().unwrap_or(0)
    }

    fn word(&mut self) -> u128
        ensures next { result ≡ next_number self.old.feed.words }
        ensures taken { self.new ≡ record self.old { feed = behind_word self.old.feed } }
    {
        self.words.next().unwrap_or(0)
    }

    fn lookup(&mut self, _name: &Bytes) -> Option<u32>
        ensures next { result ≡ next_answer self.old.feed.lookups }
        ensures taken { self.new.feed ≡ behind_lookup self.old.feed }
        ensures unpaused { self.new.paused ≡ self.old.paused }
        ensures fault_counted { self.new.faults ≡ (if is_none result then one_more self.old.faults else self.old.faults) }
    {
        count_none(self.lookups.next().flatten(), &mut self.faults)
    }

    fn bind(&mut self, _lo: u16, _hi: u16) -> Option<u16>
        ensures next { result ≡ next_answer self.old.feed.ports }
        ensures taken { self.new.feed ≡ behind_port self.old.feed }
        ensures unpaused { self.new.paused ≡ self.old.paused }
        ensures fault_counted { self.new.faults ≡ (if is_none result then one_more self.old.faults else self.old.faults) }
    {
        count_none(self.ports.next().flatten(), &mut self.faults)
    }

    fn connect(&mut self, _to: SocketAddr, _number: u64) -> bool
        ensures next { result ≡ next_connect self.old.feed.connects }
        ensures taken { self.new.feed ≡ behind_connect self.old.feed }
        ensures unpaused { self.new.paused ≡ self.old.paused }
        ensures fault_counted { self.new.faults ≡ (if result then self.old.faults else one_more self.old.faults) }
    {
        let made = self.connects.next().unwrap_or(false);
        if !made {
            self.faults = self.faults.saturating_add(1);
        }
        made
    }

    fn pause(&mut self, millis: u64)
        ensures counted { self.new ≡ record self.old { paused = after_pause millis self.old.paused } }
    {
        self.paused = self.paused.saturating_add(millis);
    }
}

// An answer as it is, with a fault more where there is none.
fn count_none<T>(answer: Option<T>, faults: &mut u64) -> Option<T>
    ensures same { result ≡ answer }
    ensures counted { faults.new ≡ (if is_none answer then one_more faults.old else faults.old) }
{
    if answer.is_none() {
        *faults = faults.saturating_add(1);
    }
    answer
}
