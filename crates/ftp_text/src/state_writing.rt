//! Writing the lines of a state, each with its line feed.

ghost use Rattle.std.specs.Prelude.{◌≡◌, ◌++◌, length, OnOk};
ghost use Rattle.ftp_text.specs.declared.state_line.StateLine.TheVariants as says;
ghost use Rattle.ftp_text.specs.Spelling.{slot_kind_fields, command_field, command_lengths, command_parts, opening_fields, progress_fields, run_fields, bytes_or_none};
ghost use Rattle.ftp_text.specs.Fields.{field, number, escape};
ghost use Rattle.ftp_text.specs.StateText.{with_feed};

use crate::state_piece::{put_bit, put_length};
use crate::word::{COMMAND_WORDS, LOGIN_STATES};
use crate::writing::{
    put, put_address, put_byte, put_field, put_ip_field, put_number, put_optional_ip, put_text,
    put_word,
};
use ftp_base::{Bytes, DataChanCmd};
use ftp_events::CommandWord;
use ftp_hub::{JobLine, QueuedLine, RecordLine, SessionLine, SlotKind, SlotLine};
use ftp_switchboard::Interval;
use ftp_transfer::Job;
use std::alloc::AllocError;

/// Writes the line of the checkpoint.
pub(crate) fn put_checkpoint(
    out: &mut Vec<u8>,
    events: u64,
    stopped: bool,
) -> Result<(), AllocError>
    ensures { OnOk result (out.new.items ≡ out.old.items ++ with_feed (says.Checkpoint events stopped)) }
{
    put(out, b"checkpoint 1")?;
    put_number(out, events)?;
    put_bit(out, stopped)?;
    put_byte(out, b'\n')
}

/// Writes the line of an interval.
pub(crate) fn put_interval(out: &mut Vec<u8>, interval: Interval) -> Result<(), AllocError>
    ensures { OnOk result (out.new.items ≡ out.old.items ++ with_feed (says.Used interval)) }
{
    put(out, b"used")?;
    put_number(out, interval.lo)?;
    put_number(out, interval.hi)?;
    put_byte(out, b'\n')
}

/// Writes the line of a record.
pub(crate) fn put_record(out: &mut Vec<u8>, line: &RecordLine) -> Result<(), AllocError>
    ensures { OnOk result (out.new.items ≡ out.old.items ++ with_feed (says.Record line.now)) }
{
    put(out, b"record")?;
    put_number(out, u64::from(line.count))?;
    put_number(out, line.at)?;
    put_optional_ip(out, line.ip)?;
    put_length(out, &line.user)?;
    put_byte(out, b' ')?;
    put_piece(out, &line.user)?;
    put_byte(out, b'\n')
}

// Writes bytes as a text, or nothing for none.
fn put_piece(out: &mut Vec<u8>, bytes: &Option<Bytes>) -> Result<(), AllocError>
    ensures { OnOk result (out.new.items ≡ out.old.items ++ escape (bytes_or_none bytes.now)) }
{
    match bytes {
        None => Ok(()),
        Some(bytes) => put_text(out, bytes.as_slice()),
    }
}

fn put_opening(out: &mut Vec<u8>, line: &SessionLine) -> Result<(), AllocError>
    ensures { OnOk result (out.new.items ≡ out.old.items ++ opening_fields line.now) }
{
    put_number(out, line.session)?;
    put_address(out, line.raw)?;
    put_address(out, line.local)?;
    put_ip_field(out, line.client)?;
    put_number(out, line.trace)
}

fn put_progress(out: &mut Vec<u8>, line: &SessionLine) -> Result<(), AllocError>
    ensures { OnOk result (out.new.items ≡ out.old.items ++ progress_fields line.now) }
{
    put_word(out, &LOGIN_STATES, line.state)?;
    put_number(out, line.active)?;
    put_number(out, line.offset)?;
    put_number(out, line.tickets)?;
    put_number(out, line.notices)
}

/// Writes the line of a session.
pub(crate) fn put_session(out: &mut Vec<u8>, line: &SessionLine) -> Result<(), AllocError>
    ensures { OnOk result (out.new.items ≡ out.old.items ++ with_feed (says.Session line.now)) }
{
    put(out, b"session")?;
    put_opening(out, line)?;
    put_progress(out, line)?;
    put_length(out, &line.user)?;
    put_name_and_cwd(out, line)?;
    put_byte(out, b'\n')
}

// Writes a space, the name and the directory as a text.
fn put_name_and_cwd(out: &mut Vec<u8>, line: &SessionLine) -> Result<(), AllocError>
    ensures { OnOk result (out.new.items ≡ out.old.items ++ field (escape (bytes_or_none line.now.user ++ line.now.cwd))) }
{
    put_byte(out, b' ')?;
    put_piece(out, &line.user)?;
    put_text(out, line.cwd.as_slice())
}

fn put_slot_kind(out: &mut Vec<u8>, what: SlotKind) -> Result<(), AllocError>
    ensures { OnOk result (out.new.items ≡ out.old.items ++ slot_kind_fields what) }
{
    match what {
        SlotKind::Waits { port } => {
            put_field(out, b"waits")?;
            put_number(out, u64::from(port))
        }
        SlotKind::HasLink { number } => {
            put_field(out, b"link")?;
            put_number(out, number)
        }
    }
}

/// Writes the line of a slot.
pub(crate) fn put_slot(out: &mut Vec<u8>, line: SlotLine) -> Result<(), AllocError>
    ensures { OnOk result (out.new.items ≡ out.old.items ++ with_feed (says.Slot line)) }
{
    put(out, b"slot")?;
    put_number(out, line.session)?;
    put_number(out, line.at)?;
    put_slot_kind(out, line.what)?;
    put_byte(out, b'\n')
}

fn put_command(out: &mut Vec<u8>, command: &DataChanCmd) -> Result<(), AllocError>
    ensures { OnOk result (out.new.items ≡ out.old.items ++ command_field command.now) }
{
    put_word(out, &COMMAND_WORDS, CommandWord::of(command))
}

// Writes how long the options and the argument of a command are.
fn put_lengths(out: &mut Vec<u8>, command: &DataChanCmd) -> Result<(), AllocError>
    ensures { OnOk result (out.new.items ≡ out.old.items ++ command_lengths command.now) }
{
    match command {
        DataChanCmd::Retr { path } | DataChanCmd::Stor { path } | DataChanCmd::Appe { path } => {
            put(out, b" -")?;
            put_number(out, path.as_slice().len() as u64)
        }
        DataChanCmd::List { options, path } => {
            put_length(out, options)?;
            put_length(out, path)
        }
        DataChanCmd::Nlst { path } | DataChanCmd::Mlsd { path } => {
            put(out, b" -")?;
            put_length(out, path)
        }
    }
}

// Writes the options, the argument and the path as a text.
fn put_parts(out: &mut Vec<u8>, command: &DataChanCmd, path: &Bytes) -> Result<(), AllocError>
    ensures { OnOk result (out.new.items ≡ out.old.items ++ escape (command_parts command.now path.now)) }
{
    match command {
        DataChanCmd::Retr { path } | DataChanCmd::Stor { path } | DataChanCmd::Appe { path } => {
            put_text(out, path.as_slice())?;
        }
        DataChanCmd::List { options, path } => {
            put_piece(out, options)?;
            put_piece(out, path)?;
        }
        DataChanCmd::Nlst { path } | DataChanCmd::Mlsd { path } => put_piece(out, path)?,
    }
    put_text(out, path.as_slice())
}

/// Writes the line of a waiting transfer.
pub(crate) fn put_queued(out: &mut Vec<u8>, line: &QueuedLine) -> Result<(), AllocError>
    ensures { OnOk result (out.new.items ≡ out.old.items ++ with_feed (says.Queued line.now)) }
{
    put(out, b"queued")?;
    put_number(out, line.session)?;
    put_number(out, line.nr)?;
    put_number(out, line.offset)?;
    put_command(out, &line.command)?;
    put_lengths(out, &line.command)?;
    put_byte(out, b' ')?;
    put_parts(out, &line.command, &line.path)?;
    put_byte(out, b'\n')
}

fn put_run(out: &mut Vec<u8>, line: &JobLine) -> Result<(), AllocError>
    ensures { OnOk result (out.new.items ≡ out.old.items ++ run_fields line.now) }
{
    let job = &line.job;
    put_number(out, job.ticket.session)?;
    put_number(out, job.ticket.nr)?;
    put_number(out, job.offset)?;
    put_number(out, job.done)?;
    put_bit(out, line.marked)?;
    put_number(out, job.number)
}

/// Writes the line of a running transfer.
pub(crate) fn put_job(out: &mut Vec<u8>, line: &JobLine) -> Result<(), AllocError>
    ensures { OnOk result (out.new.items ≡ out.old.items ++ with_feed (says.Job line.now)) }
{
    put(out, b"job")?;
    put_run(out, line)?;
    put_command(out, &line.job.command)?;
    put_job_lengths(out, &line.job)?;
    put_job_text(out, &line.job)?;
    put_byte(out, b'\n')
}

// Writes how long the user name, the options and the argument are.
fn put_job_lengths(out: &mut Vec<u8>, job: &Job) -> Result<(), AllocError>
    ensures { OnOk result (out.new.items ≡ out.old.items ++ (number (length job.now.user) ++ command_lengths job.now.command)) }
{
    put_number(out, job.user.as_slice().len() as u64)?;
    put_lengths(out, &job.command)
}

// Writes a space, the user name, the options, the argument and the path as a text.
fn put_job_text(out: &mut Vec<u8>, job: &Job) -> Result<(), AllocError>
    ensures { OnOk result (out.new.items ≡ out.old.items ++ field (escape (job.now.user ++ command_parts job.now.command job.now.path))) }
{
    put_byte(out, b' ')?;
    put_text(out, job.user.as_slice())?;
    put_parts(out, &job.command, &job.path)
}
