//! What a hub counts, and what listeners hear.

use crate::same::{holds, same};
use crate::values::{ANN, events, links, log_of, pooled, storage};
use ftp_base::{
    Bytes, DataChanCmd, DataEvent, DataListener, EventMeta, PresenceEvent, PresenceListener,
};
use ftp_events::{Counters, Log, Status7, deliver};
use ftp_hub::{Hub, covers, run_events};
use std::alloc::{AllocError, Global};
use std::process::Abort;

/// A login, and the download of a file.
const DOWNLOAD: &[&[&[u8]]] = &[
    ANN,
    &[
        b"0 pasv 1 0 - -",
        b"0 retr 1 a",
        b"0 data 11 10.0.0.1:4001 50000",
        b"0 end 1.1",
    ],
];

/// The download happens.
fn download(rt: &impl Abort, alloc: Global, hub: &mut Hub) {
    let events = events(rt, alloc, DOWNLOAD);
    let mut storage = storage(alloc).ok().expect(rt, "a storage");
    let mut links = links(rt, alloc);
    let mut log = Log::new(alloc);
    holds(rt, covers(&links, &events));
    let run = run_events(hub, &mut storage, &mut links, &events, &mut log);
    same(rt, &run.is_ok(), &true);
}

/// The sessions that are live and that there were, the files and bytes that were read, the bytes and transfers of downloads of `a`,
/// and the replies that begin with 2.
fn counted(alloc: Global, counters: &Counters) -> Result<[u64; 7], AllocError> {
    let path = Bytes::from_slice(alloc, b"a")?;
    let retr = DataChanCmd::Retr { path };
    Ok([
        counters.session(),
        counters.sessions_count(),
        counters.read_files(),
        counters.read_bytes(),
        counters.sent_bytes(&retr),
        counters.transferred(&retr, Status7::Success),
        counters.replies(2),
    ])
}

#[test]
fn a_hub_counts_what_its_entries_tell(rt: HostRuntime) {
    let mut hub = Hub::new(rt.alloc(), pooled(&rt, rt.alloc()));
    download(&rt, rt.alloc(), &mut hub);
    let counted = counted(rt.alloc(), hub.counters());
    same(&rt, &counted, &Ok([1, 1, 1, 5, 5, 1, 3]));
}

/// Notes the numbers of the notifications that it is told.
#[derive(Drop)]
struct Noted {
    numbers: Vec<u64>,
}

impl Noted {
    // Without memory a number is left out.
    fn note(&mut self, m: &EventMeta) {
        let _ = self.numbers.push(m.sequence_number);
    }
}

impl DataListener for Noted {
    ghost use Rattle.std.specs.Prelude.{None};

    ghost heard = { λ _. None };

    fn receive_data_event(&mut self, _e: &DataEvent, m: &EventMeta) {
        self.note(m);
    }
}

impl PresenceListener for Noted {
    ghost use Rattle.std.specs.Prelude.{None};

    ghost heard = { λ _. None };

    fn receive_presence_event(&mut self, _e: &PresenceEvent, m: &EventMeta) {
        self.note(m);
    }
}

/// What a listener for data and one for presence note of a log.
fn numbers_noted(alloc: Global, log: &Log) -> (Vec<u64>, Vec<u64>) {
    let mut files = Noted {
        numbers: Vec::new(alloc),
    };
    let mut users = Noted {
        numbers: Vec::new(alloc),
    };
    for entry in log.as_slice() {
        deliver(entry, &mut files, &mut users);
    }
    (files.numbers, users.numbers)
}

#[test]
fn each_listener_hears_what_is_for_it(rt: HostRuntime) {
    let log = log_of(&rt, rt.alloc(), pooled(&rt, rt.alloc()), DOWNLOAD);
    let (files, users) = numbers_noted(rt.alloc(), &log);
    let due = ([2].as_slice(), [1].as_slice());
    same(&rt, &(files.as_slice(), users.as_slice()), &due);
}
