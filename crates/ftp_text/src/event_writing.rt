//! Writing the lines of events.

ghost use Rattle.std.specs.Prelude.{◌≡◌, ◌++◌, false, true, OnOk};
ghost use Rattle.std.specs.Option.{option_copied};
ghost use Rattle.ftp_events.specs.declared.event.EventKind.TheVariants as kind;
ghost use Rattle.ftp_text.specs.Fields.{number, field, ticket, escape, optional_text};
ghost use Rattle.ftp_text.specs.Events.{is_connection, is_short, word_field, kind_fields, event_line};

use crate::event_word::EventWord;
use crate::message::put_message;
use crate::writing::{
    put_address, put_answer, put_decimal, put_field, put_hex_word, put_number, put_optional_dotted,
    put_optional_number, put_optional_port, put_optional_text, put_refusal, put_text_field,
    put_ticket,
};
use ftp_base::{Bytes, DataChanCmd, ErrorKind};
use ftp_events::{EventKind, HubEvent};
use ftp_transfer::Ticket;
use std::alloc::AllocError;

/// Writes the event's line at the end of the buffer, without a line feed.
///
/// # Proved
///
/// - An event's line, the line on what was sent on a link, and a file's line (also `put_sent`; `put_file`).
pub fn put_event(out: &mut Vec<u8>, event: &HubEvent) -> Result<(), AllocError>
    ensures { OnOk result (out.new.items ≡ out.old.items ++ event_line event.now) }
{
    put_decimal(out, event.at)?;
    put_kind(out, &event.kind)
}

fn put_kind(out: &mut Vec<u8>, kind: &EventKind) -> Result<(), AllocError>
    ensures { OnOk result (out.new.items ≡ out.old.items ++ kind_fields kind.now) }
{
    match kind {
        EventKind::Connect {
            session,
            raw,
            local,
            trace,
        } => {
            put_numbered(out, EventWord::Connect, *session)?;
            put_address(out, *raw)?;
            put_address(out, *local)?;
            put_number(out, *trace)
        }
        EventKind::Proxied { number, raw, trace } => {
            put_numbered(out, EventWord::Proxied, *number)?;
            put_address(out, *raw)?;
            put_number(out, *trace)
        }
        EventKind::DataIn { number, raw, port } => {
            put_numbered(out, EventWord::Data, *number)?;
            put_address(out, *raw)?;
            put_number(out, u64::from(*port))
        }
        EventKind::Accepted {
            session,
            number,
            raw,
        } => {
            put_numbered(out, EventWord::Accepted, *session)?;
            put_number(out, *number)?;
            put_address(out, *raw)
        }
        _ => put_command(out, kind),
    }
}

// The line of an event that brings no connection.
fn put_command(out: &mut Vec<u8>, kind: &EventKind) -> Result<(), AllocError>
    requires { is_connection kind.now ≡ false }
    ensures { OnOk result (out.new.items ≡ out.old.items ++ kind_fields kind.now) }
{
    match kind {
        EventKind::User { session, name } => put_named(out, EventWord::User, *session, name),
        EventKind::AuthDone { session, answer } => {
            put_numbered(out, EventWord::Auth, *session)?;
            put_answer(out, *answer)
        }
        EventKind::Pasv {
            session,
            word,
            lookup,
            bound,
        } => put_pasv(out, *session, *word, *lookup, *bound),
        EventKind::Port {
            session,
            text,
            number,
        } => put_port(out, *session, text, *number),
        EventKind::Transfer { session, command } => put_transfer(out, *session, command),
        EventKind::Stou { session, word } => {
            put_numbered(out, EventWord::Stou, *session)?;
            put_hex_word(out, *word)
        }
        EventKind::Rest { session, offset } => {
            put_numbered(out, EventWord::Rest, *session)?;
            put_number(out, *offset)
        }
        EventKind::Cwd {
            session,
            path,
            refusal,
        } => put_cwd(out, *session, path, *refusal),
        EventKind::End { ticket } => put_ticketed(out, EventWord::End, *ticket),
        EventKind::Piece { ticket } => put_ticketed(out, EventWord::Piece, *ticket),
        EventKind::Internal { session, message } => {
            put_numbered(out, EventWord::Internal, *session)?;
            put_message(out, message)
        }
        _ => put_short(out, kind),
    }
}

// The line of an event that says no more than a session behind its word.
fn put_short(out: &mut Vec<u8>, kind: &EventKind) -> Result<(), AllocError>
    requires { is_short kind.now ≡ true }
    ensures { OnOk result (out.new.items ≡ out.old.items ++ kind_fields kind.now) }
{
    match kind {
        EventKind::Pass { session } => put_numbered(out, EventWord::Pass, *session),
        EventKind::Abor { session } => put_numbered(out, EventWord::Abor, *session),
        EventKind::Quit { session } => put_numbered(out, EventWord::Quit, *session),
        EventKind::Closed { session } => put_numbered(out, EventWord::Closed, *session),
        EventKind::SlotTick { session } => put_numbered(out, EventWord::Slot, *session),
        EventKind::IdleTick { session } => put_numbered(out, EventWord::Idle, *session),
        EventKind::Sweep => put_field(out, EventWord::Sweep.text()),
        EventKind::Scavenge => put_field(out, EventWord::Scavenge.text()),
        EventKind::Shutdown => put_field(out, EventWord::Shutdown.text()),
        _ => unreachable!(),
    }
}

fn put_pasv(
    out: &mut Vec<u8>,
    session: u64,
    word: u16,
    lookup: Option<u32>,
    bound: Option<u16>,
) -> Result<(), AllocError>
    ensures { OnOk result (out.new.items ≡ out.old.items ++ kind_fields (kind.Pasv session word lookup bound)) }
{
    put_numbered(out, EventWord::Pasv, session)?;
    put_number(out, u64::from(word))?;
    put_optional_dotted(out, lookup)?;
    put_optional_port(out, bound)
}

fn put_port(
    out: &mut Vec<u8>,
    session: u64,
    text: &Bytes,
    number: Option<u64>,
) -> Result<(), AllocError>
    ensures { OnOk result (out.new.items ≡ out.old.items ++ kind_fields (kind.Port session text.now number)) }
{
    put_numbered(out, EventWord::Port, session)?;
    put_optional_number(out, number)?;
    put_text_field(out, text.as_slice())
}

fn put_transfer(out: &mut Vec<u8>, session: u64, command: &DataChanCmd) -> Result<(), AllocError>
    ensures { OnOk result (out.new.items ≡ out.old.items ++ kind_fields (kind.Transfer session command.now)) }
{
    match command {
        DataChanCmd::Retr { path } => put_named(out, EventWord::Retr, session, path),
        DataChanCmd::Stor { path } => put_named(out, EventWord::Stor, session, path),
        DataChanCmd::Appe { path } => put_named(out, EventWord::Appe, session, path),
        DataChanCmd::List { options: _, path } => put_listing(
            out,
            EventWord::List,
            session,
            path.as_ref(),
        ),
        DataChanCmd::Nlst { path } => put_listing(out, EventWord::Nlst, session, path.as_ref()),
        DataChanCmd::Mlsd { path } => put_listing(out, EventWord::Mlsd, session, path.as_ref()),
    }
}

fn put_cwd(
    out: &mut Vec<u8>,
    session: u64,
    path: &Bytes,
    refusal: Option<ErrorKind>,
) -> Result<(), AllocError>
    ensures { OnOk result (out.new.items ≡ out.old.items ++ kind_fields (kind.Cwd session path.now refusal)) }
{
    put_numbered(out, EventWord::Cwd, session)?;
    put_refusal(out, refusal)?;
    put_text_field(out, path.as_slice())
}

// The word of an event, and the number that it is about.
fn put_numbered(out: &mut Vec<u8>, word: EventWord, n: u64) -> Result<(), AllocError>
    ensures { OnOk result (out.new.items ≡ out.old.items ++ (word_field word ++ number n)) }
{
    put_field(out, word.text())?;
    put_number(out, n)
}

// The word of an event, and the transfer that it is about.
fn put_ticketed(out: &mut Vec<u8>, word: EventWord, of: Ticket) -> Result<(), AllocError>
    ensures { OnOk result (out.new.items ≡ out.old.items ++ (word_field word ++ ticket of.session of.nr)) }
{
    put_field(out, word.text())?;
    put_ticket(out, of.session, of.nr)
}

// The word of an event, the number that it is about, and a text.
fn put_named(out: &mut Vec<u8>, word: EventWord, n: u64, text: &Bytes) -> Result<(), AllocError>
    ensures { OnOk result (out.new.items ≡ out.old.items ++ (word_field word ++ number n ++ field (escape text.now))) }
{
    put_numbered(out, word, n)?;
    put_text_field(out, text.as_slice())
}

// The word of an event, the number that it is about, and a text or none.
fn put_listing(
    out: &mut Vec<u8>,
    word: EventWord,
    n: u64,
    text: Option<&Bytes>,
) -> Result<(), AllocError>
    ensures { OnOk result (out.new.items ≡ out.old.items ++ (word_field word ++ number n ++ optional_text (option_copied text.entry))) }
{
    put_numbered(out, word, n)?;
    put_optional_text(out, text)
}
