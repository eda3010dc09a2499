//! Reading the lines of events.

ghost use Rattle.std.specs.Prelude.{◌≡◌, ◌≢◌, IfOk, IsErrOf, Some};
ghost use Rattle.ftp_events.specs.declared.event.HubEvent.{HubEvent};
ghost use Rattle.ftp_text.specs.declared.fault.LineFault.TheVariants as fault;
ghost use Rattle.ftp_text.specs.Events.{event_line, IsEvent};
ghost use Rattle.ftp_text.specs.Reading.{Gives};
ghost use Rattle.ftp_text.specs.Forms.{Text, MaybeText, ◌▸◌, Number, all_read};
ghost use Rattle.ftp_text.specs.declared.event_word.EventWord.TheVariants as word;
ghost use Rattle.ftp_text.specs.EventReading.{fields_at, event_of};

use crate::event_word::{EVENT_WORDS, EventWord};
use crate::fault::{LineFault, Parsed};
use crate::field::{
    address, fields, hex_word, number, number_here, optional_dotted, optional_number,
    optional_port, optional_text, port, text_to_end, ticket, word_or_none, word_value,
};
use crate::message::message_to_end;
use crate::word::{ANSWERS, KINDS};
use ftp_base::{Bytes, DataChanCmd};
use ftp_events::{EventKind, HubEvent};
use ftp_transfer::Ticket;
use std::alloc::Global;

/// The event that the line spells. Its line feed is no part of the line.
///
/// # Proved
///
/// - A line gives an event exactly where it is that event's one line; it is bad exactly where it is no event's
///   (`found`, `bad`, `only`, `exact`).
pub fn read_event(alloc: Global, line: &[u8]) -> Result<HubEvent, LineFault>
    // What is read is spelled so, each byte of the line.
    ensures found { IfOk result (λ e. (event_line e ≡ line.now) × IsEvent e) }

    // A line is bad only where no event is spelled so.
    ensures bad { IsErrOf result fault.Bad → (e : HubEvent) → IsEvent e → event_line e ≢ line.now }

    // What is spelled so is read, unless memory runs out.
    ensures only { (e : HubEvent) → IsEvent e → event_line e ≡ line.now → Gives (λ x. x) result (Some e) }

    // The same as a function of the line.
    ensures exact { Gives (λ e. e) result (event_of line.now) }
{
    event(alloc, line)
}

#[tactic(auto, unfolding(crate::specs::EventReading::event_of, crate::specs::Reading::word_value))]
fn event(alloc: Global, line: &[u8]) -> Result<HubEvent, LineFault>
    ensures { Gives (λ e. e) result (event_of line.now) }
{
    let (at, rest) = number_here(line)?;
    let (word, rest) = word_value(&EVENT_WORDS, rest)?;
    let (kind, rest) = event_kind(alloc, word, rest)?;
    if !rest.is_empty() {
        drop(kind);
        return Err(LineFault::Bad);
    }
    Ok(HubEvent { at, kind })
}

#[tactic(auto, unfolding(crate::specs::EventReading::read_as))]
fn event_kind(alloc: Global, word: EventWord, bytes: &[u8]) -> Parsed<'_, EventKind>
    ensures { Gives (λ x. (x.0, x.1.now)) result (fields_at word bytes.now) }
{
    match word {
        EventWord::Connect => connect(bytes),
        EventWord::Proxied => proxied(bytes),
        EventWord::Data => data_in(bytes),
        EventWord::Accepted => accepted(bytes),
        EventWord::User =>
            fields!(bytes; (session, name) = on_text(alloc) => EventKind::User { session, name }),
        EventWord::Pass => fields!(bytes; session = number() => EventKind::Pass { session }),
        EventWord::Auth => auth(bytes),
        EventWord::Pasv => pasv(bytes),
        EventWord::Port => port_in(alloc, bytes),
        EventWord::Retr => fields!(bytes; (session, path) = on_text(alloc)
            => EventKind::Transfer { session, command: DataChanCmd::Retr { path } }),
        EventWord::Stor => fields!(bytes; (session, path) = on_text(alloc)
            => EventKind::Transfer { session, command: DataChanCmd::Stor { path } }),
        EventWord::Appe => fields!(bytes; (session, path) = on_text(alloc)
            => EventKind::Transfer { session, command: DataChanCmd::Appe { path } }),
        EventWord::List => fields!(bytes; (session, path) = on_dir(alloc)
            => EventKind::Transfer { session, command: DataChanCmd::List { options: None, path } }),
        EventWord::Nlst => fields!(bytes; (session, path) = on_dir(alloc)
            => EventKind::Transfer { session, command: DataChanCmd::Nlst { path } }),
        EventWord::Mlsd => fields!(bytes; (session, path) = on_dir(alloc)
            => EventKind::Transfer { session, command: DataChanCmd::Mlsd { path } }),
        EventWord::Stou => stou(bytes),
        EventWord::Rest => rest(bytes),
        EventWord::Cwd => cwd(alloc, bytes),
        EventWord::Closed => fields!(bytes; session = number() => EventKind::Closed { session }),
        EventWord::Quit => fields!(bytes; session = number() => EventKind::Quit { session }),
        EventWord::Slot => fields!(bytes; session = number() => EventKind::SlotTick { session }),
        EventWord::End => {
            let (session, nr, rest) = ticket(bytes)?;
            let ticket = Ticket { session, nr };
            Ok((EventKind::End { ticket }, rest))
        }
        EventWord::Piece => {
            let (session, nr, rest) = ticket(bytes)?;
            let ticket = Ticket { session, nr };
            Ok((EventKind::Piece { ticket }, rest))
        }
        EventWord::Sweep => Ok((EventKind::Sweep, bytes)),
        EventWord::Abor => fields!(bytes; session = number() => EventKind::Abor { session }),
        EventWord::Internal => internal(alloc, bytes),
        EventWord::Idle => fields!(bytes; session = number() => EventKind::IdleTick { session }),
        EventWord::Scavenge => Ok((EventKind::Scavenge, bytes)),
        EventWord::Shutdown => Ok((EventKind::Shutdown, bytes)),
    }
}

// A session and a text.
fn on_text(alloc: Global, bytes: &[u8]) -> Parsed<'_, (u64, Bytes)>
    ensures { Gives (λ x. (x.0, x.1.now)) result (all_read (Number ▸ Text) bytes.now) }
{
    fields!(bytes; session = number(), text = text_to_end(alloc) => (session, text))
}

// A session, and a text or none.
fn on_dir(alloc: Global, bytes: &[u8]) -> Parsed<'_, (u64, Option<Bytes>)>
    ensures { Gives (λ x. (x.0, x.1.now)) result (all_read (Number ▸ MaybeText) bytes.now) }
{
    fields!(bytes; session = number(), text = optional_text(alloc) => (session, text))
}

#[tactic(auto, unfolding(crate::specs::EventReading::read_as))]
fn connect(bytes: &[u8]) -> Parsed<'_, EventKind>
    ensures { Gives (λ x. (x.0, x.1.now)) result (fields_at word.Connect bytes.now) }
{
    fields!(bytes; session = number(), raw = address(), local = address(), trace = number()
        => EventKind::Connect { session, raw, local, trace })
}

#[tactic(auto, unfolding(crate::specs::EventReading::read_as))]
fn proxied(bytes: &[u8]) -> Parsed<'_, EventKind>
    ensures { Gives (λ x. (x.0, x.1.now)) result (fields_at word.Proxied bytes.now) }
{
    fields!(bytes; n = number(), raw = address(), trace = number()
        => EventKind::Proxied { number: n, raw, trace })
}

#[tactic(auto, unfolding(crate::specs::EventReading::read_as))]
fn data_in(bytes: &[u8]) -> Parsed<'_, EventKind>
    ensures { Gives (λ x. (x.0, x.1.now)) result (fields_at word.Data bytes.now) }
{
    fields!(bytes; number = number(), raw = address(), port = port()
        => EventKind::DataIn { number, raw, port })
}

#[tactic(auto, unfolding(crate::specs::EventReading::read_as))]
fn accepted(bytes: &[u8]) -> Parsed<'_, EventKind>
    ensures { Gives (λ x. (x.0, x.1.now)) result (fields_at word.Accepted bytes.now) }
{
    fields!(bytes; session = number(), number = number(), raw = address()
        => EventKind::Accepted { session, number, raw })
}

#[tactic(auto, unfolding(crate::specs::EventReading::read_as, crate::specs::Reading::word_value))]
fn auth(bytes: &[u8]) -> Parsed<'_, EventKind>
    ensures { Gives (λ x. (x.0, x.1.now)) result (fields_at word.Auth bytes.now) }
{
    fields!(bytes; session = number(), answer = word_value(&ANSWERS) => EventKind::AuthDone { session, answer })
}

#[tactic(auto, unfolding(crate::specs::EventReading::read_as))]
fn pasv(bytes: &[u8]) -> Parsed<'_, EventKind>
    ensures { Gives (λ x. (x.0, x.1.now)) result (fields_at word.Pasv bytes.now) }
{
    fields!(bytes; session = number(), word = port(), lookup = optional_dotted(), bound = optional_port()
        => EventKind::Pasv { session, word, lookup, bound })
}

#[tactic(auto, unfolding(crate::specs::EventReading::read_as))]
fn port_in(alloc: Global, bytes: &[u8]) -> Parsed<'_, EventKind>
    ensures { Gives (λ x. (x.0, x.1.now)) result (fields_at word.Port bytes.now) }
{
    fields!(bytes; session = number(), number = optional_number(), text = text_to_end(alloc)
        => EventKind::Port { session, text, number })
}

#[tactic(auto, unfolding(crate::specs::EventReading::read_as))]
fn stou(bytes: &[u8]) -> Parsed<'_, EventKind>
    ensures { Gives (λ x. (x.0, x.1.now)) result (fields_at word.Stou bytes.now) }
{
    fields!(bytes; session = number(), word = hex_word() => EventKind::Stou { session, word })
}

#[tactic(auto, unfolding(crate::specs::EventReading::read_as))]
fn rest(bytes: &[u8]) -> Parsed<'_, EventKind>
    ensures { Gives (λ x. (x.0, x.1.now)) result (fields_at word.Rest bytes.now) }
{
    fields!(bytes; session = number(), offset = number() => EventKind::Rest { session, offset })
}

#[tactic(auto, unfolding(crate::specs::EventReading::read_as, crate::specs::Reading::word_value))]
fn cwd(alloc: Global, bytes: &[u8]) -> Parsed<'_, EventKind>
    ensures { Gives (λ x. (x.0, x.1.now)) result (fields_at word.Cwd bytes.now) }
{
    fields!(bytes; session = number(), refusal = word_or_none(b"ok", &KINDS), path = text_to_end(alloc)
        => EventKind::Cwd { session, path, refusal })
}

#[tactic(auto, unfolding(crate::specs::EventReading::read_as))]
fn internal(alloc: Global, bytes: &[u8]) -> Parsed<'_, EventKind>
    ensures { Gives (λ x. (x.0, x.1.now)) result (fields_at word.Internal bytes.now) }
{
    fields!(bytes; session = number(), message = message_to_end(alloc) => EventKind::Internal { session, message })
}
