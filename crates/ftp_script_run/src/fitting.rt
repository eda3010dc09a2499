//! What the lines of a state say fits their types.
//!
//! The functions do nothing when they run: a contract knows that a number or a byte is in the range of its type once the code looks
//! at it.

ghost use Rattle.std.specs.List.{AllByRecursion};
ghost use Rattle.ftp_text.specs.Fields.{Each, IsAddress, IsIp, IsNumber};
ghost use Rattle.ftp_text.specs.Spelling.{HasPieces, IsPiece, IsSlotKind};
ghost use Rattle.ftp_script_run.specs.Fitting.{FitsInterval, FitsJob, FitsQueued, FitsRecord, FitsSession, FitsSlot, FitsState};

use ftp_base::{Bytes, DataChanCmd, IpAddr, SocketAddr};
use ftp_hub::{HubState, JobLine, QueuedLine, RecordLine, SessionLine, SlotKind, SlotLine};
use ftp_switchboard::Interval;

/// Looks at all that a state says.
pub fn look_at(state: &HubState)
    ensures { FitsState state.now }
{
    number(state.events);
    each_interval(state.used.as_slice());
    each_record(state.records.as_slice());
    each_session(state.sessions.as_slice());
    each_slot(state.slots.as_slice());
    each_queued(state.queued.as_slice());
    each_job(state.jobs.as_slice());
}

fn each_interval(used: &[Interval])
    ensures { AllByRecursion FitsInterval used.now }
{
    for line in used {
        number(line.lo);
        number(line.hi);
    }
}

fn each_record(records: &[RecordLine])
    ensures { AllByRecursion FitsRecord records.now }
{
    for line in records {
        record(line);
    }
}

fn each_session(sessions: &[SessionLine])
    ensures { AllByRecursion FitsSession sessions.now }
{
    for line in sessions {
        session(line);
    }
}

fn each_slot(slots: &[SlotLine])
    ensures { AllByRecursion FitsSlot slots.now }
{
    for line in slots {
        slot(*line);
    }
}

fn each_queued(queued: &[QueuedLine])
    ensures { AllByRecursion FitsQueued queued.now }
{
    for line in queued {
        transfer(line);
    }
}

fn each_job(jobs: &[JobLine])
    ensures { AllByRecursion FitsJob jobs.now }
{
    for line in jobs {
        job(line);
    }
}

fn record(line: &RecordLine)
    ensures { FitsRecord line.now }
{
    let _count = line.count;
    number(line.at);
    optional_ip(line.ip);
    optional(&line.user);
}

fn session(line: &SessionLine)
    ensures { FitsSession line.now }
{
    number(line.session);
    address(line.raw);
    address(line.local);
    ip(line.client);
    number(line.trace);
    number(line.active);
    number(line.offset);
    number(line.tickets);
    number(line.notices);
    optional(&line.user);
    text(line.cwd.as_slice());
}

fn slot(line: SlotLine)
    ensures { FitsSlot line }
{
    number(line.session);
    number(line.at);
    kind(line.what);
}

fn kind(what: SlotKind)
    ensures { IsSlotKind what }
{
    match what {
        SlotKind::Waits { port: _port } => {}
        SlotKind::HasLink { number: link } => number(link),
    }
}

fn transfer(line: &QueuedLine)
    ensures { FitsQueued line.now }
{
    number(line.session);
    number(line.nr);
    number(line.offset);
    command(&line.command);
    text(line.path.as_slice());
}

fn job(line: &JobLine)
    ensures { FitsJob line.now }
{
    number(line.job.ticket.session);
    number(line.job.ticket.nr);
    number(line.job.offset);
    number(line.job.done);
    number(line.job.number);
    text(line.job.user.as_slice());
    command(&line.job.command);
    text(line.job.path.as_slice());
}

fn command(command: &DataChanCmd)
    ensures { HasPieces command.now }
{
    match command {
        DataChanCmd::Retr { path } | DataChanCmd::Stor { path } | DataChanCmd::Appe { path } => {
            text(path.as_slice());
        }
        DataChanCmd::List { options, path } => {
            optional(options);
            optional(path);
        }
        DataChanCmd::Nlst { path } | DataChanCmd::Mlsd { path } => optional(path),
    }
}

fn optional(bytes: &Option<Bytes>)
    ensures { Each IsPiece bytes.now }
{
    if let Some(bytes) = bytes {
        text(bytes.as_slice());
    }
}

fn text(bytes: &[u8])
    ensures { IsPiece bytes.now }
{
    number(bytes.len() as u64);
}

fn optional_ip(address: Option<IpAddr>)
    ensures { Each IsIp address }
{
    if let Some(address) = address {
        ip(address);
    }
}

fn address(address: SocketAddr)
    ensures { IsAddress address }
{
    ip(address.ip);
    let _port = address.port;
}

fn ip(address: IpAddr)
    ensures { IsIp address }
{
    match address {
        IpAddr::V4(_ip) => {}
        IpAddr::V6(_ip) => {}
    }
}

fn number(number: u64)
    ensures { IsNumber number }
{
    let _number = number;
}
