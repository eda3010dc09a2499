//! What an entry adds to the counts.

ghost use Rattle.std.specs.Prelude.{◌≡◌, ◌<◌, ℕ, count_by, slice_index};
ghost use Rattle.std.specs.List.{list_any};
ghost use Rattle.std.specs.Option.{option_map_or};
ghost use Rattle.ftp_events.specs.declared.status.CommandWord.{CommandWord};
ghost use Rattle.ftp_events.specs.declared.status.Status7.{Status7};
ghost use Rattle.ftp_events.specs.Tallies.{Grows, of_word, of_status};
ghost use Rattle.ftp_events.specs.Counts.{GrowsBy, by_end, delivered, finished, first_digit, is_delivery, is_failure, is_reply, is_sent, is_written, one_if, received_by, sent_by, status_by};

use crate::action::Action;
use crate::decision::Decision;
use crate::event::Answer;
use crate::status::Ended;
use crate::tallies::{Files, PerCommand, PerStatus};
use ftp_base::{Reply, ReplyCode};
use ftp_transfer::{Completion, Outcome};

/// Counts a login that failed.
pub(crate) fn count_failure(count: &mut u64, decision: Decision)
    ensures { Grows (one_if (is_failure decision)) count.old count.new }
{
    if let Decision::LoginFailed { .. } = decision {
        *count = count.saturating_add(1);
    }
}

/// The transfer that is finished, with its outcome.
pub(crate) fn finished(
    decision: Decision,
    answer: Answer,
    ended: Option<Ended>,
) -> Option<(Ended, Outcome)>
    ensures { result ≡ finished decision answer ended }
{
    match (decision, answer, ended) {
        (Decision::Finished, Answer::Done(outcome), Some(transfer)) => Some((transfer, outcome)),
        _ => None,
    }
}

/// Counts the bytes that a finished transfer has sent.
pub(crate) fn count_sent(sent: &mut PerCommand, end: Option<(Ended, Outcome)>)
    ensures { (w : CommandWord) → Grows (by_end (sent_by w) end) (of_word sent.old w) (of_word sent.new w) }
{
    if let Some((transfer, outcome)) = end {
        if !transfer.word.receives() {
            sent.add(transfer.word, outcome.bytes);
        }
    }
}

/// Counts the bytes that a finished transfer has received.
pub(crate) fn count_received(received: &mut PerCommand, end: Option<(Ended, Outcome)>)
    ensures { (w : CommandWord) → Grows (by_end (received_by w) end) (of_word received.old w) (of_word received.new w) }
{
    if let Some((transfer, outcome)) = end {
        if transfer.word.receives() {
            received.add(transfer.word, outcome.bytes);
        }
    }
}

/// Counts the status of a finished transfer.
pub(crate) fn count_status(transferred: &mut PerStatus, end: Option<(Ended, Outcome)>)
    ensures { (w : CommandWord) (s : Status7) → Grows (by_end (status_by w s) end) (of_word (of_status transferred.old s) w) (of_word (of_status transferred.new s) w) }
{
    if let Some((transfer, outcome)) = end {
        if let Some(status) = transfer.status(outcome) {
            transferred.add(transfer.word, status);
        }
    }
}

/// The outcome of a finished transfer, where its session was told.
pub(crate) fn delivered(decision: Decision, answer: Answer, actions: &[Action]) -> Option<Outcome>
    ensures { result ≡ delivered decision answer actions.now }
{
    match (decision, answer) {
        (Decision::Finished, Answer::Done(outcome)) if is_told(actions) => Some(outcome),
        _ => None,
    }
}

// Says whether a session was told of the end of its transfer.
fn is_told(actions: &[Action]) -> bool
    ensures { result ≡ list_any is_delivery actions.now }
{
    actions.iter().any(|action| is_delivery(action))
}

// Says whether the action tells the session of the end of its transfer.
fn is_delivery(action: &Action) -> bool
    ensures { result ≡ is_delivery action.now }
{
    match action {
        Action::Completed { delivered, .. } => *delivered,
        _ => false,
    }
}

/// Counts a file that was sent, or written.
pub(crate) fn count_file(read: &mut Files, written: &mut Files, told: Option<Outcome>)
    ensures read { GrowsBy is_sent told read.old read.new }
    ensures written { GrowsBy is_written told written.old written.new }
{
    let Some(outcome) = told else {
        return;
    };
    match outcome.result {
        Completion::Sent => read.add(outcome.bytes),
        Completion::Written => written.add(outcome.bytes),
        _ => {}
    }
}

/// Counts replies by the first digits of their codes.
pub(crate) fn count_replies(replies: &mut [u64; 10], actions: &[Action])
    ensures { (d : ℕ) → Grows (count_by (is_reply d) actions.now) (slice_index replies.old d) (slice_index replies.new d) }
{
    for action in actions {
        count_reply(replies, action);
    }
}

// Counts the reply, where the action is one.
fn count_reply(replies: &mut [u64; 10], action: &Action)
    ensures { (d : ℕ) → Grows (one_if (is_reply d action.now)) (slice_index replies.old d) (slice_index replies.new d) }
{
    if let Action::Reply {
        reply: Reply::CodeAndMsg { code, .. },
        ..
    } = action
    {
        let digit = first_digit(*code) as usize;
        replies[digit] = replies[digit].saturating_add(1);
    }
}

// The first digit of a code.
fn first_digit(code: ReplyCode) -> u8
    ensures value { result ≡ first_digit code }
    ensures one_place { result < 10 }
{
    code.digits()[0] - b'0'
}
