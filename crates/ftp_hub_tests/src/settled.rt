//! Two shares submit an event each, and their hub is settled.

ghost use Rattle.std.specs.Prelude.{◌≡◌, false};
ghost use Rattle.ftp_shared.specs.Outbox.{has_ticket};

use crate::hubs::share;
use crate::shared_values::connect;
use ftp_base::Bytes;
use ftp_events::{Answer, Decision, EventKind, HubEvent, Log};
use ftp_shared::{JournalHub, Receipt, Serving, SettleError, SharedHub, StepShare, Submitted};
use std::alloc::{AllocError, Global};
use std::process::Abort;
use std::sync::Wait;

/// What the hub is settled with.
#[derive(Clone, Copy, Debug, PartialEq, Eq)]
pub enum Told {
    /// Both shares, and both receipts.
    Both,
    /// The first share alone.
    First,
    /// Both shares, and the second receipt at the place of the first.
    Misplaced,
}

/// A share that has submitted one event, and its receipt.
fn submit<L: Serving, R: Wait + Abort>(
    rt: &R,
    hub: &SharedHub<L>,
    kind: EventKind,
) -> (StepShare<L>, Receipt)
    requires { has_ticket kind ≡ false }
{
    let mut share = share(rt, hub);
    let event = HubEvent { at: 0, kind };
    let Submitted { receipt, job } = hub
        .submit(rt, &mut share, event, Answer::None)
        .expect(rt, "a receipt");
    drop(job);
    (share, receipt)
}

/// The receipts that are told.
fn receipts_of(
    rt: &impl Abort,
    alloc: Global,
    one: Receipt,
    two: Receipt,
    told: Told,
) -> Vec<Receipt> {
    match told {
        Told::First => {
            drop((one, two));
            Vec::new(alloc)
        }
        Told::Both => vec![in alloc; two, one].expect(rt, "receipts"),
        Told::Misplaced => {
            drop(one);
            let Receipt { place: _, entry } = two;
            vec![in alloc; Receipt { place: 0, entry }].expect(rt, "a receipt")
        }
    }
}

/// Settles a hub to which a client of this name has connected.
pub fn settle_two<L: Serving, R: Wait + Abort>(
    rt: &R,
    alloc: Global,
    hub: SharedHub<L>,
    told: Told,
) -> Result<Log, SettleError> {
    let session = 1;
    let (first, one) = submit(rt, &hub, connect(session));
    let name = Bytes::from_slice(alloc, b"ann").expect(rt, "a name");
    let (second, two) = submit(rt, &hub, EventKind::User { session, name });
    let receipts = receipts_of(rt, alloc, one, two, told);
    let shares = if told == Told::First {
        vec![in alloc; first].expect(rt, "a share")
    } else {
        vec![in alloc; first, second].expect(rt, "shares")
    };
    hub.settle(shares, receipts.as_slice())
}

/// The place where a receipt differs from the journal, what was decided there, and what by the receipt.
pub fn difference(
    settled: &Result<Log, SettleError>,
) -> Result<Option<(u64, Decision, Decision)>, AllocError> {
    match settled {
        Err(
            SettleError::Differs {
                place,
                kept: Some(kept),
                told,
            },
        ) => Ok(Some((*place, kept.decision, told.decision))),
        Err(SettleError::OutOfMemory) => Err(AllocError),
        _ => Ok(None),
    }
}
