//! What several tests take: pooled options, events as a script has them, a storage with links, and the log of what happens there.

ghost use Rattle.std.specs.Prelude.{◌≡◌, false};
ghost use Rattle.ftp_options.specs.Modes.{is_legacy};
ghost use Rattle.ftp_events.specs.Right.{IsRight};

use crate::headline::run_all;
use crate::same::holds;
use ftp_base::{Bytes, LinkTable, MemoryLink, MemoryStorage, StoreError};
use ftp_events::{Answer, Decision, Entry, HubEvent, Log};
use ftp_hub::{Hub, covers};
use ftp_options::{ActivePassiveMode, Options, ServerBuilder};
use ftp_text::read_event;
use std::alloc::{AllocError, Global};
use std::process::Abort;

/// All sessions share the ports 50000 and 50001, PORT is on too, and entries are counted.
pub fn pooled(rt: &impl Abort, alloc: Global) -> Options
    ensures { is_legacy result.mode ≡ false }
{
    let mut builder = ServerBuilder::new(alloc);
    builder.pooled_listener_mode();
    builder.active_passive_mode(ActivePassiveMode::ActiveAndPassive);
    builder.passive_ports(50000, 50001);
    builder.metrics();
    builder.build().expect(rt, "options").options
}

/// Ann logs in as session 1.
pub const ANN: &[&[u8]] = &[
    b"0 connect 1 10.0.0.1:4000 10.0.0.9:21 1",
    b"0 user 1 ann",
    b"0 pass 1",
    b"0 auth 1 good",
];

/// The event of a line of a script.
pub fn event(rt: &impl Abort, alloc: Global, line: &[u8]) -> HubEvent {
    read_event(alloc, line).ok().expect(rt, "an event")
}

/// The line of a script happens on a hub.
pub fn step(rt: &impl Abort, alloc: Global, hub: &mut Hub, line: &[u8], answer: Answer) -> Entry {
    let event = event(rt, alloc, line);
    let room = hub.prepare(&event).ok().expect(rt, "room");
    hub.step(room, event, answer)
}

/// The events of lines, one script behind the other.
pub fn events(rt: &impl Abort, alloc: Global, scripts: &[&[&[u8]]]) -> Vec<HubEvent> {
    let mut events = Vec::new(alloc);
    for script in scripts {
        for line in *script {
            let event = event(rt, alloc, line);
            events.push(event).ok().expect(rt, "room for an event");
        }
    }
    events
}

/// A storage with `Hello` under `/a`.
pub fn storage(alloc: Global) -> Result<MemoryStorage, StoreError> {
    let mut storage = MemoryStorage::new(alloc, 5, Vec::new(alloc));
    storage.put_file(Bytes::from_slice(alloc, b"/a")?, b"Hello".to_vec(alloc)?)?;
    Ok(storage)
}

/// Links for four data connections, which give nothing, but for the last, which gives `Hello`.
pub fn links(rt: &impl Abort, alloc: Global) -> LinkTable<MemoryLink> {
    let mut links = LinkTable::new(alloc);
    for number in 11..15 {
        let bytes = if number == 14 {
            b"Hello".as_slice()
        } else {
            b""
        };
        let bytes = bytes.to_vec(alloc).expect(rt, "bytes");
        let link = MemoryLink::new(alloc, bytes, 2, Vec::new(alloc));
        links.insert(number, link).ok().expect(rt, "a free number");
    }
    links
}

/// The log of scripts, one behind the other, on a fresh hub.
pub fn log_of(rt: &impl Abort, alloc: Global, options: Options, scripts: &[&[&[u8]]]) -> Log
    requires shared { is_legacy options.mode ≡ false }
    ensures right { IsRight options result.entries }
{
    let events = events(rt, alloc, scripts);
    let mut storage = storage(alloc).ok().expect(rt, "a storage");
    let mut links = links(rt, alloc);
    holds(rt, covers(&links, &events));
    run_all(alloc, options, &mut storage, &mut links, &events)
        .ok()
        .expect(rt, "a log")
}

/// What was decided, entry by entry.
pub fn decisions_of(alloc: Global, log: &Log) -> Result<Vec<Decision>, AllocError> {
    let mut decisions = Vec::new(alloc);
    for entry in log.as_slice() {
        decisions.push(entry.decision)?;
    }
    Ok(decisions)
}
