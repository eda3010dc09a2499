//! A session takes a file, whose job is out while others act.

ghost use Rattle.std.specs.Prelude.{◌≡◌, false};
ghost use Rattle.ftp_shared.specs.Outbox.{has_ticket};

use crate::hubs::share;
use crate::same::{holds, same};
use crate::shared_values::{connect, sent_at_once};
use ftp_base::{AuthAnswer, Bytes, DataChanCmd, IpAddr, SocketAddr};
use ftp_events::{Answer, EventKind, HubEvent, Log};
use ftp_shared::{
    JobShare, JournalHub, Serving, SettleError, SharedHub, StepShare, Submitted, Turn,
};
use ftp_transfer::{Completion, Outcome};
use std::alloc::Global;
use std::process::Abort;
use std::sync::Wait;

/// One event of a session.
fn act<L: Serving, R: Wait + Abort>(
    rt: &R,
    hub: &SharedHub<L>,
    share: &mut StepShare<L>,
    kind: EventKind,
) -> Turn
    requires { has_ticket kind ≡ false }
{
    hub.submit_for(rt, share, HubEvent { at: 0, kind }, Answer::None)
        .expect(rt, "a turn")
}

/// One event of a session, of whose turn nothing is asked.
pub fn happen<L: Serving, R: Wait + Abort>(
    rt: &R,
    hub: &SharedHub<L>,
    share: &mut StepShare<L>,
    kind: EventKind,
)
    requires { has_ticket kind ≡ false }
{
    drop(act(rt, hub, share, kind));
}

/// A session logs in.
fn log_in<L: Serving, R: Wait + Abort>(
    rt: &R,
    alloc: Global,
    hub: &SharedHub<L>,
    share: &mut StepShare<L>,
    session: u64,
) {
    happen(rt, hub, share, connect(session));
    let name = Bytes::from_slice(alloc, b"ann").expect(rt, "a name");
    happen(rt, hub, share, EventKind::User { session, name });
    happen(rt, hub, share, EventKind::Pass { session });
    let answer = AuthAnswer::Good;
    happen(rt, hub, share, EventKind::AuthDone { session, answer });
}

/// A session gets a data connection.
fn get_connection<L: Serving, R: Wait + Abort>(
    rt: &R,
    hub: &SharedHub<L>,
    share: &mut StepShare<L>,
    session: u64,
) {
    let pasv = EventKind::Pasv {
        session,
        word: 0,
        lookup: None,
        bound: None,
    };
    happen(rt, hub, share, pasv);
    let arrival = EventKind::DataIn {
        number: session | 16,
        raw: SocketAddr {
            ip: IpAddr::V4(0x0a00_0001),
            port: 4001,
        },
        port: 50000,
    };
    happen(rt, hub, share, arrival);
}

/// A session logs in, gets a data connection and asks for the file `a`.
pub fn start<L: Serving, R: Wait + Abort>(
    rt: &R,
    alloc: Global,
    hub: &SharedHub<L>,
    share: &mut StepShare<L>,
    session: u64,
) -> JobShare {
    log_in(rt, alloc, hub, share, session);
    get_connection(rt, hub, share, session);
    let path = Bytes::from_slice(alloc, b"a").expect(rt, "a path");
    let command = DataChanCmd::Retr { path };
    let Turn { earlier, submitted } = act(rt, hub, share, EventKind::Transfer { session, command });
    drop(earlier);
    let Submitted { receipt, job } = submitted;
    drop(receipt);
    job.expect(rt, "a job")
}

/// Ends the job with so many bytes sent.
pub fn finish<L: Serving, R: Wait + Abort>(
    rt: &R,
    hub: &SharedHub<L>,
    share: &mut StepShare<L>,
    job: JobShare,
    bytes: u64,
) -> Submitted {
    let outcome = Outcome {
        result: Completion::Sent,
        bytes,
        fault: None,
    };
    holds(rt, job.can_end(&outcome));
    hub.finish(rt, share, job, 0, outcome)
        .ok()
        .expect(rt, "the end of a job")
}

/// What session 1 is handed when it quits.
fn handed_at_quit<L: Serving, R: Wait + Abort>(
    rt: &R,
    alloc: Global,
    hub: &SharedHub<L>,
    share: &mut StepShare<L>,
) -> Vec<u8> {
    let Turn { earlier, submitted } = act(rt, hub, share, EventKind::Quit { session: 1 });
    drop(submitted);
    sent_at_once(alloc, &earlier).expect(rt, "a text")
}

/// A session takes a file. Its job is out while the session goes on, or the server is stopped; then comes the session's last event,
/// if the stop was not that.
fn go_on_beside_a_job<L: Serving, R: Wait + Abort>(
    rt: &R,
    alloc: Global,
    hub: &SharedHub<L>,
    share: &mut StepShare<L>,
    stops_early: bool,
) {
    let job = start(rt, alloc, hub, share, 1);
    if stops_early {
        happen(rt, hub, share, EventKind::Shutdown);
    }
    let drained_early = hub.drained(rt);
    let told = finish(rt, hub, share, job, 5);
    let woken = told.others().next();
    drop(told);
    let sent = handed_at_quit(rt, alloc, hub, share);
    // A session that the stop has ended is handed nothing more.
    let (to_wake, handed) = if stops_early {
        (None, b"".as_slice())
    } else {
        (Some(1), b"226 Successfully sent\r\n".as_slice())
    };
    same(
        rt,
        &(drained_early, woken, hub.drained(rt)),
        &(false, to_wake, true),
    );
    same(rt, &sent.as_slice(), &handed);
}

/// The journal of a session that takes a file, and goes on or is stopped while its job is out.
pub fn take_a_file<L: Serving, R: Wait + Abort>(
    rt: &R,
    alloc: Global,
    hub: SharedHub<L>,
    stops_early: bool,
) -> Result<Log, SettleError> {
    let mut share = share(rt, &hub);
    go_on_beside_a_job(rt, alloc, &hub, &mut share, stops_early);
    hub.settle(vec![in alloc; share].expect(rt, "shares"), &[])
}
