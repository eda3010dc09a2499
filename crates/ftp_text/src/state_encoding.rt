//! The text of a state.

ghost use Rattle.std.specs.Prelude.{◌≡◌, ◌++◌, List, IfOk, OnOk};
ghost use Rattle.std.specs.List.{flat_map};
ghost use Rattle.ftp_text.specs.declared.state_line.StateLine.{StateLine};
ghost use Rattle.ftp_text.specs.declared.state_line.StateLine.TheVariants as says;
ghost use Rattle.ftp_hub.specs.declared.state.QueuedLine.{QueuedLine};
ghost use Rattle.ftp_text.specs.Grammar.{AreStateLines};
ghost use Rattle.ftp_text.specs.StateText.{state_text, with_feed};
ghost use Rattle.ftp_text.specs.Walk.{Onward, own_queued, own_slot, session_walk, walk};

use crate::state_writing::{
    put_checkpoint, put_interval, put_job, put_queued, put_record, put_session, put_slot,
};
use ftp_base::Bytes;
use ftp_hub::{HubState, JobLine, QueuedLine, RecordLine, SessionLine, SlotLine};
use ftp_switchboard::Interval;
use std::alloc::{AllocError, Global};

/// The text of a state.
///
/// # Proved
///
/// - What is written are the lines of the state's lists, one after the other, each with its line feed (`lists`); of a state
///   whose lists have the order and the form of lines it is the text of these lines (`text`).
pub fn encode_state(alloc: Global, state: &HubState) -> Result<Bytes, AllocError>
    ensures lists { IfOk result (λ text. text ≡ state_text (walk state.now)) }
    ensures text { IfOk result (λ text. (lines : List StateLine) → AreStateLines state.now lines → text ≡ state_text lines) }
{
    let mut out = Vec::new(alloc);
    put_state(&mut out, state)?;
    Ok(Bytes::from_vec(out))
}

fn put_state(out: &mut Vec<u8>, state: &HubState) -> Result<(), AllocError>
    ensures { OnOk result (out.new.items ≡ out.old.items ++ state_text (walk state.now)) }
{
    put_checkpoint(out, state.events, state.stopped)?;
    put_used(out, state.used.as_slice())?;
    put_records(out, state.records.as_slice())?;
    put_sessions(
        out,
        state.sessions.as_slice(),
        state.slots.as_slice(),
        state.queued.as_slice(),
    )?;
    put_jobs(out, state.jobs.as_slice())
}

fn put_used(out: &mut Vec<u8>, used: &[Interval]) -> Result<(), AllocError>
    ensures { OnOk result (out.new.items ≡ out.old.items ++ flat_map (λ x. with_feed (says.Used x)) used.now) }
{
    for interval in used {
        put_interval(out, *interval)?;
    }
    Ok(())
}

fn put_records(out: &mut Vec<u8>, records: &[RecordLine]) -> Result<(), AllocError>
    ensures { OnOk result (out.new.items ≡ out.old.items ++ flat_map (λ x. with_feed (says.Record x)) records.now) }
{
    for line in records {
        put_record(out, line)?;
    }
    Ok(())
}

fn put_jobs(out: &mut Vec<u8>, jobs: &[JobLine]) -> Result<(), AllocError>
    ensures { OnOk result (out.new.items ≡ out.old.items ++ flat_map (λ x. with_feed (says.Job x)) jobs.now) }
{
    for line in jobs {
        put_job(out, line)?;
    }
    Ok(())
}

// Writes each session with its slot and its waiting transfer, where these are the next ones.
fn put_sessions(
    out: &mut Vec<u8>,
    sessions: &[SessionLine],
    slots: &[SlotLine],
    queued: &[QueuedLine],
) -> Result<(), AllocError>
    ensures { OnOk result (out.new.items ≡ out.old.items ++ state_text (session_walk sessions.now slots.now queued.now)) }
{
    let mut slots = slots;
    let mut queued = queued;
    for line in sessions {
        put_session(out, line)?;
        (slots, queued) = put_own_slot(out, line.session, slots, queued)?;
    }
    Ok(())
}

// Writes the next slot where it is of this session, and its transfer. The lines that are left are given back.
fn put_own_slot<'a>(
    out: &mut Vec<u8>,
    session: u64,
    slots: &'a [SlotLine],
    queued: &'a [QueuedLine],
) -> Result<(&'a [SlotLine], &'a [QueuedLine]), AllocError>
    ensures { IfOk result (λ left. (more : Onward) → out.new.items ++ state_text (more left.0.now left.1.now) ≡ out.old.items ++ state_text (own_slot session more slots.now queued.now)) }
{
    match slots {
        [slot, rest @ ..] if slot.session == session => {
            put_slot(out, *slot)?;
            let queued = put_own_queued(out, session, queued)?;
            Ok((rest, queued))
        }
        _ => Ok((slots, queued)),
    }
}

// Writes the next transfer where it is of this session. The lines that are left are given back.
fn put_own_queued<'a>(
    out: &mut Vec<u8>,
    session: u64,
    queued: &'a [QueuedLine],
) -> Result<&'a [QueuedLine], AllocError>
    ensures { IfOk result (λ left. (more : List QueuedLine → List StateLine) → out.new.items ++ state_text (more left.now) ≡ out.old.items ++ state_text (own_queued session more queued.now)) }
{
    match queued {
        [line, rest @ ..] if line.session == session => {
            put_queued(out, line)?;
            Ok(rest)
        }
        _ => Ok(queued),
    }
}
