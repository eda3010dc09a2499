//! Reading a line of a printed log.

ghost use Rattle.std.specs.Prelude.{◌≡◌, ◌≢◌, IfOk, IsErrOf, Some};
ghost use Rattle.ftp_text.specs.declared.fault.LineFault.TheVariants as fault;
ghost use Rattle.ftp_text.specs.Reading.{Gives};
ghost use Rattle.ftp_text.specs.LogLines.{log_line, is_options, IsLogLine};
ghost use Rattle.ftp_text.specs.LineReading.{options_of, event_in, answer_in, decision_in, action_in, log_line_of};

use crate::action::action;
use crate::answer::answer;
use crate::decision::decision;
use crate::event::read_event;
use crate::fault::LineFault;
use crate::field::{literal, whole};
use crate::setup::{Item, read_item};
use ftp_events::{Action, Answer, Decision, HubEvent};
use std::alloc::Global;

/// What a line of a printed log says.
#[derive(Drop)]
pub enum LogLine {
    /// The options, before all entries.
    Options(Item),
    /// What happened.
    Event(HubEvent),
    /// What the outside answered, where something was asked.
    Answer(Answer),
    Decision(Decision),
    /// One of the actions.
    Action(Action),
}

/// What the line says. Its line feed is no part of the line.
///
/// # Proved
///
/// - A line of a printed log is read exactly where the log prints something so, each field in the range of its type: an
///   options line, an event, an answer, any decision, any action (`found`, `bad`, `only`).
pub fn read_log_line(alloc: Global, line: &[u8]) -> Result<LogLine, LineFault>
    // What is read is spelled so, each byte of the line.
    ensures found { IfOk result (λ x. (log_line x ≡ line.now) × IsLogLine x) }

    // A line is bad only where nothing is spelled so.
    ensures bad { IsErrOf result fault.Bad → (x : LogLine) → IsLogLine x → log_line x ≢ line.now }

    // What is spelled so is read, unless memory runs out.
    ensures only { (x : LogLine) → IsLogLine x → log_line x ≡ line.now → Gives (λ y. y) result (Some x) }

    // The same as a function of the line.
    ensures exact { Gives (λ x. x) result (log_line_of line.now) }
{
    line_in(alloc, line)
}

#[tactic(auto, unfolding(crate::specs::LineReading::log_line_of))]
fn line_in(alloc: Global, line: &[u8]) -> Result<LogLine, LineFault>
    ensures { Gives (λ x. x) result (log_line_of line.now) }
{
    match line {
        [b'o', ..] => options(alloc, line),
        [b'>', ..] => event_in(alloc, line),
        [b'?', ..] => answer_in(line),
        [b'=', ..] => decision_in(line),
        _ => action_in(alloc, line),
    }
}

fn options(alloc: Global, line: &[u8]) -> Result<LogLine, LineFault>
    ensures { Gives (λ x. x) result (options_of line.now) }
{
    let item = read_item(alloc, line)?;
    if is_options(&item) {
        Ok(LogLine::Options(item))
    } else {
        drop(item);
        Err(LineFault::Bad)
    }
}

// Whether the item is the options.
fn is_options(item: &Item) -> bool
    ensures { result ≡ is_options item.now }
{
    matches!(item, Item::Options { .. })
}

fn event_in(alloc: Global, line: &[u8]) -> Result<LogLine, LineFault>
    ensures { Gives (λ x. x) result (event_in line.now) }
{
    let rest = literal(b"> ", line)?;
    let event = read_event(alloc, rest)?;
    Ok(LogLine::Event(event))
}

fn answer_in(line: &[u8]) -> Result<LogLine, LineFault>
    ensures { Gives (λ x. x) result (answer_in line.now) }
{
    let answer = whole(answer(line)?)?;
    Ok(LogLine::Answer(answer))
}

fn decision_in(line: &[u8]) -> Result<LogLine, LineFault>
    ensures { Gives (λ x. x) result (decision_in line.now) }
{
    let decision = whole(decision(line)?)?;
    Ok(LogLine::Decision(decision))
}

fn action_in(alloc: Global, line: &[u8]) -> Result<LogLine, LineFault>
    ensures { Gives (λ x. x) result (action_in line.now) }
{
    let action = whole(action(alloc, line)?)?;
    Ok(LogLine::Action(action))
}
