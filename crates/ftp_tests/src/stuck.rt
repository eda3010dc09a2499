//! Transfers over a link that takes every byte and then cannot send what it gathered.

ghost use Rattle.std.specs.Prelude.{true, None, refl};

use crate::same::same;
use crate::transfers::trial::{RETR, Trial, Word};
use crate::values::storage;
use ftp_base::{ErrorKind, Failed, Link, LinkFault, Source, StoreError};
use ftp_transfer::{Completion, Outcome};
use std::alloc::Global;

/// Takes all that is written, gives nothing, and is reset where it is to send.
#[derive(Drop)]
struct StuckLink {
    faults: u64,
    last_fault: Option<LinkFault>,
    closed: bool,
}

impl Source for StuckLink {
    ghost left = { λ _. None };

    ghost faults = { λ l. l.faults };

    ghost sending = { λ l. record { sent = None; closed = l.closed; last_fault = l.last_fault } };

    ghost is_link = { true };

    fn read(&mut self, _out: &mut [u8]) -> Result<usize, Failed> {
        Ok(0)
    }
}

impl Link for StuckLink {
    fn write(&mut self, bytes: &[u8]) -> Result<usize, Failed> {
        Ok(bytes.len())
    }

    fn flush(&mut self) -> Result<(), Failed> {
        self.faults = self.faults.saturating_add(1);
        self.last_fault = Some(LinkFault::Reset);
        Err(Failed::Fault)
    }

    fn close(&mut self) -> Result<(), Failed> {
        self.closed = true;
        Ok(())
    }

    fn last_fault(&self) -> Option<LinkFault> {
        self.last_fault
    }

    ghost connects = { refl };
}

/// Runs a transfer over the link, with `abc` under `/a`.
fn run(alloc: Global, word: Word, path: &[u8]) -> Result<Outcome, StoreError> {
    let mut storage = storage(alloc, 100, &[], &[], &[(b"/a", b"abc")])?;
    let mut link = StuckLink {
        faults: 0,
        last_fault: None,
        closed: false,
    };
    let trial = Trial { word, path, ..RETR };
    Ok(trial.outcome(alloc, &mut storage, &mut link)?)
}

/// The outcome of a download whose link was reset.
const RESET: Outcome = Outcome {
    result: Completion::Refused(ErrorKind::ConnectionClosed),
    bytes: 3,
    fault: Some(LinkFault::Reset),
};

const ROWS: [(Word, &[u8], Outcome); 3] = [
    (Word::Retr, b"/a", RESET),
    (
        Word::Nlst,
        b"/",
        Outcome {
            result: Completion::WriteFailed,
            ..RESET
        },
    ),
    // An upload gathers nothing to send.
    (
        Word::Stor,
        b"/b",
        Outcome {
            result: Completion::Written,
            bytes: 0,
            fault: None,
        },
    ),
];

#[test]
fn what_was_gathered_and_not_sent_is_told_as_at_a_failed_write(rt: HostRuntime) {
    for (word, path, outcome) in &ROWS {
        same(&rt, &run(rt.alloc(), *word, path), &Ok(*outcome));
    }
}
