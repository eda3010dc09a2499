//! A hub of a server of its own, and what is done there.

ghost use Rattle.std.specs.Prelude.{◌≡◌};

use crate::jobs::take_a_file;
use crate::pieces::move_two;
use crate::settled::{Told, settle_two};
use crate::threads::connect_two;
use crate::values::pooled;
use ftp_events::Log;
use ftp_options::Options;
use ftp_shared::{JournalFeed, JournalHub, Serving, SettleError, SharedHub, StepShare};
use std::alloc::Global;
use std::marker::Brand;
use std::process::Abort;
use std::sync::ledger::Blank;
use std::sync::{Arc, Wait};
use std::thread::Threads;

/// What is done on a hub, before it is settled.
#[derive(Drop)]
pub enum Course {
    /// Two threads connect so many sessions each, and a feed is told of it.
    Connect {
        each: u32,
        feed: Option<Arc<JournalFeed, Global>>,
    },
    /// A connection and a name, and then this is told.
    Tell(Told),
    /// A session takes a file; the server is stopped while it does, or not.
    TakeAFile {
        stops_early: bool,
    },
    /// Two jobs move, of which the first is stopped.
    MoveTwo,
}

/// One of the shares that are left.
pub fn share<L: Serving, R: Wait + Abort>(rt: &R, hub: &SharedHub<L>) -> StepShare<L> {
    hub.share(rt).expect(rt, "a share")
}

fn settled_on<L: Serving + Send + Sync, R: Threads + Wait + Abort + Sync>(
    rt: &R,
    alloc: Global,
    options: Options,
    blank: Blank,
    course: Course,
) -> Result<Log, SettleError>
    requires name { blank.name ≡ L.name }
    requires parts { blank.parts ≡ L.parts }
    requires four { blank.parts ≡ 4 }
    requires options { options ≡ L.options }
{
    let (steps, parts) = blank.open::<L>();
    let hub = SharedHub::new(alloc, options, steps, parts, 4);
    match course {
        Course::Connect { each, feed } => connect_two(rt, alloc, hub, each, feed),
        Course::Tell(told) => settle_two(rt, alloc, hub, told),
        Course::TakeAFile { stops_early } => take_a_file(rt, alloc, hub, stops_early),
        Course::MoveTwo => move_two(rt, alloc, hub),
    }
}

/// The journal of a hub after this, or why it is not settled.
pub fn settled_after<R: Threads + Wait + Abort + Sync>(
    rt: &R,
    alloc: Global,
    course: Course,
) -> Result<Log, SettleError> {
    settled_on::<Brand, R>(rt, alloc, pooled(rt, alloc), Blank::new(4), course)
}
