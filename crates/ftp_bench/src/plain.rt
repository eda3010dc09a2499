//! A hub by itself, which runs event after event.

ghost use Rattle.std.specs.Prelude.{◌≡◌, ◌+◌, ◌-◌, None, IfOk, OnOk};
ghost use Rattle.ftp_events.specs.Covers.{link_number};
ghost use Rattle.ftp_bench.specs.Appending.{events_in, taken};

use crate::asking::{connect, user};
use crate::error::BenchError;
use crate::lane::Lane;
use ftp_base::{LinkTable, MemoryLink, MemoryStorage};
use ftp_events::{HubEvent, Log};
use ftp_hub::{Hub, run_event};
use ftp_options::Options;
use std::alloc::Global;

/// A hub with an outside in memory, which it never asks, and with a log, which is kept or stays empty.
#[derive(Drop)]
pub struct Plain {
    alloc: Global,
    hub: Hub,
    storage: MemoryStorage,
    links: LinkTable<MemoryLink>,
    log: Log,
    keeps: bool,
}

/// Runs the events of a lane whose sessions connect first, and says how many entries there are.
pub fn run_all(alloc: Global, options: Options, lane: Lane, keeps: bool) -> Result<u64, BenchError>
    ensures taken { IfOk result (λ n. n ≡ events_in lane) }
{
    let mut plain = Plain::new(alloc, options, keeps);
    plain.run(lane)
}

impl Plain {
    /// A hub to which nothing has happened.
    fn new(alloc: Global, options: Options, keeps: bool) -> Plain
        ensures { taken result ≡ 0 }
    {
        Plain {
            alloc,
            hub: Hub::new(alloc, options),
            storage: MemoryStorage::new(alloc, u64::MAX, Vec::new(alloc)),
            links: LinkTable::new(alloc),
            log: Log::new(alloc),
            keeps,
        }
    }

    /// How many entries were made, or are kept.
    fn taken(&self) -> u64
        ensures { result ≡ taken self.now }
    {
        if self.keeps {
            self.log.len()
        } else {
            self.hub.events()
        }
    }

    /// Runs the events of a lane whose sessions connect first, on a hub to which nothing has happened.
    fn run(&mut self, lane: Lane) -> Result<u64, BenchError>
        requires idle { taken self.old ≡ 0 }
        ensures taken { IfOk result (λ n. n ≡ events_in lane) }
    {
        self.connect_all(lane)?;
        self.ask_all(lane)?;
        Ok(self.taken())
    }

    /// Lets the sessions of a lane connect.
    fn connect_all(&mut self, lane: Lane) -> Result<(), BenchError>
        ensures { OnOk result (taken self.new ≡ taken self.old + (lane.end - lane.first)) }
    {
        for session in lane.first..lane.end {
            self.take(connect(session as u64))?;
        }
        Ok(())
    }

    /// Runs the events of a lane.
    fn ask_all(&mut self, lane: Lane) -> Result<(), BenchError>
        ensures { OnOk result (taken self.new ≡ taken self.old + lane.rounds) }
    {
        for turn in 0..lane.rounds {
            let event = user(self.alloc, lane.session(turn))?;
            self.take(event)?;
        }
        Ok(())
    }

    /// Runs an event, and keeps its entry or lets it go.
    fn take(&mut self, event: HubEvent) -> Result<(), BenchError>
        requires no_link { link_number event.kind ≡ None }
        ensures { OnOk result (taken self.new ≡ taken self.old + 1) }
    {
        let entry = run_event(&mut self.hub, &mut self.storage, &mut self.links, event)?;
        if self.keeps {
            self.log.push(entry)?;
        }
        Ok(())
    }
}
