//! Replies on their way to the client, by way of one buffer that is used again and again.

ghost use Rattle.std.specs.Prelude.{◌≡◌, ◌++◌, [], ◌∷◌, OnOk, OnErr, IsErrOf};
ghost use Rattle.ftp_base.specs.declared.fault.Failed.TheVariants.{Fault};
ghost use Rattle.ftp_base.specs.Outside.{Writes};
ghost use Rattle.ftp_base.specs.Reply.{encoding};
ghost use Rattle.ftp_control.specs.Writing.{WritesFront};
ghost use Rattle.ftp_shared.specs.Outbox.{replies_in};
ghost use Rattle.ftp_talk.specs.Saying.{greeting_line, OnlySays, OnlyWrites, IsPaused};
ghost use Rattle.ftp_talk.specs.Pieces.{Says, SaysPieces, entry_pieces, piece_delays, piece_text, pieces_of, said_pieces};

use ftp_base::{Bytes, Edge, Failed, Link, Reply};
use ftp_events::Action;
use ftp_extras::put_epsv_reply;
use std::alloc::AllocError;

/// Sends all of the bytes, in as many calls as the link needs.
pub(crate) fn write_all<L: Link>(link: &mut L, bytes: &[u8]) -> Result<(), Failed>
    ensures wrote { OnOk result (Writes (L.sending link.old).sent (L.sending link.new).sent bytes.now) }
    ensures link { OnlyWrites (IsErrOf result Fault) (L.left link.old) (L.left link.new) (L.faults link.old) (L.faults link.new) }

    // After an error a part from the front was sent.
    ensures front { OnErr result (WritesFront (L.sending link.old).sent (L.sending link.new).sent bytes.now) }
{
    let mut rest = bytes;
    while !rest.is_empty() {
        let n = link.write(rest)?;
        rest = &rest[n..];
    }
    Ok(())
}

/// Puts the line of the greeting behind the text: with the words, or those of the profile.
pub(crate) fn put_greeting(text: &mut Vec<u8>, words: &Option<Bytes>) -> Result<(), AllocError>
    ensures { OnOk result (text.new.items ≡ text.old.items ++ greeting_line words.now) }
{
    text.extend_from_slice(b"220 ")?;
    match words {
        Some(words) => text.extend_from_slice(words.as_slice())?,
        None => text.extend_from_slice(b"Welcome to the libunftp FTP server")?,
    }
    text.extend_from_slice(b"\r\n")
}

// Puts the line of a reply behind the text.
fn put_reply(text: &mut Vec<u8>, reply: &Reply) -> Result<(), AllocError>
    ensures { OnOk result (text.new.items ≡ text.old.items ++ encoding reply.now) }
{
    match reply {
        Reply::None => Ok(()),
        Reply::CodeAndMsg { code, msg } => {
            text.extend_from_slice(code.digits())?;
            text.extend_from_slice(b" ")?;
            text.extend_from_slice(msg.as_slice())?;
            text.extend_from_slice(b"\r\n")
        }
    }
}

// Sends the text that waits, and empties it.
fn flush<L: Link>(link: &mut L, text: &mut Vec<u8>) -> Result<(), Failed>
    ensures wrote { OnOk result (Writes (L.sending link.old).sent (L.sending link.new).sent text.old.items) }
    ensures empty { OnOk result (text.new.items ≡ []) }
    ensures link { OnlyWrites (IsErrOf result Fault) (L.left link.old) (L.left link.new) (L.faults link.old) (L.faults link.new) }
    ensures front { OnErr result (WritesFront (L.sending link.old).sent (L.sending link.new).sent text.old.items) }
{
    write_all(link, text.as_slice())?;
    text.clear();
    Ok(())
}

// Lets the delay of a reply pass, where it has one. What waits before it is sent before that.
fn pause<L: Link, E: Edge>(
    link: &mut L,
    edge: &mut E,
    text: &mut Vec<u8>,
    delay: u32,
) -> Result<(), Failed>
    ensures said { OnOk result (Says (L.sending link.old).sent (L.sending link.new).sent (E.view edge.old).paused (E.view edge.new).paused text.old.items text.new.items ((delay, []) ∷ [])) }
    ensures calls { OnlySays (IsErrOf result Fault) (L.left link.old) (L.left link.new) (L.faults link.old) (L.faults link.new) (E.view edge.old) (E.view edge.new) }
    ensures unpaused { OnErr result ((E.view edge.new).paused ≡ (E.view edge.old).paused) }
    ensures front { OnErr result (WritesFront (L.sending link.old).sent (L.sending link.new).sent text.old.items) }
{
    if delay > 0 {
        flush(link, text)?;
        edge.pause(u64::from(delay));
    }
    Ok(())
}

// Adds a reply to the text that waits.
fn add<L: Link, E: Edge>(
    link: &mut L,
    edge: &mut E,
    text: &mut Vec<u8>,
    delay: u32,
    reply: &Reply,
) -> Result<(), Failed>
    ensures said { OnOk result (Says (L.sending link.old).sent (L.sending link.new).sent (E.view edge.old).paused (E.view edge.new).paused text.old.items text.new.items ((delay, encoding reply.now) ∷ [])) }
    ensures calls { OnlySays (IsErrOf result Fault) (L.left link.old) (L.left link.new) (L.faults link.old) (L.faults link.new) (E.view edge.old) (E.view edge.new) }
    ensures front { OnErr result (SaysPieces (L.sending link.old).sent (L.sending link.new).sent (E.view edge.old).paused (E.view edge.new).paused text.old.items ((delay, encoding reply.now) ∷ [])) }
{
    pause(link, edge, text, delay)?;
    match put_reply(text, reply) {
        Ok(()) => Ok(()),
        Err(_) => Err(Failed::Memory),
    }
}

// Adds the reply of the action, where it is one to the session.
fn add_action<L: Link, E: Edge>(
    link: &mut L,
    edge: &mut E,
    text: &mut Vec<u8>,
    session: u64,
    action: &Action,
) -> Result<(), Failed>
    ensures said { OnOk result (Says (L.sending link.old).sent (L.sending link.new).sent (E.view edge.old).paused (E.view edge.new).paused text.old.items text.new.items (pieces_of (replies_in (action.now ∷ []) session))) }
    ensures calls { OnlySays (IsErrOf result Fault) (L.left link.old) (L.left link.new) (L.faults link.old) (L.faults link.new) (E.view edge.old) (E.view edge.new) }
    ensures front { OnErr result (SaysPieces (L.sending link.old).sent (L.sending link.new).sent (E.view edge.old).paused (E.view edge.new).paused text.old.items (pieces_of (replies_in (action.now ∷ []) session))) }
{
    if let Action::Reply {
        session: to,
        delay,
        reply,
    } = action
    {
        if *to == session {
            return add(link, edge, text, *delay, reply);
        }
    }
    Ok(())
}

// Adds replies in their order.
fn add_replies<L: Link, E: Edge>(
    link: &mut L,
    edge: &mut E,
    text: &mut Vec<u8>,
    replies: &[(u32, Reply)],
) -> Result<(), Failed>
    ensures said { OnOk result (Says (L.sending link.old).sent (L.sending link.new).sent (E.view edge.old).paused (E.view edge.new).paused text.old.items text.new.items (pieces_of replies.now)) }
    ensures calls { OnlySays (IsErrOf result Fault) (L.left link.old) (L.left link.new) (L.faults link.old) (L.faults link.new) (E.view edge.old) (E.view edge.new) }
    ensures front { OnErr result (SaysPieces (L.sending link.old).sent (L.sending link.new).sent (E.view edge.old).paused (E.view edge.new).paused text.old.items (pieces_of replies.now)) }
{
    for (delay, reply) in replies {
        add(link, edge, text, *delay, reply)?;
    }
    Ok(())
}

// Adds what an entry says: the replies to the session among its actions, or that to an EPSV that is granted a port.
fn add_entry<L: Link, E: Edge>(
    link: &mut L,
    edge: &mut E,
    text: &mut Vec<u8>,
    session: u64,
    port: Option<u16>,
    actions: &[Action],
) -> Result<(), Failed>
    ensures said { OnOk result (Says (L.sending link.old).sent (L.sending link.new).sent (E.view edge.old).paused (E.view edge.new).paused text.old.items text.new.items (entry_pieces session port actions.now)) }
    ensures calls { OnlySays (IsErrOf result Fault) (L.left link.old) (L.left link.new) (L.faults link.old) (L.faults link.new) (E.view edge.old) (E.view edge.new) }
    ensures front { OnErr result (SaysPieces (L.sending link.old).sent (L.sending link.new).sent (E.view edge.old).paused (E.view edge.new).paused text.old.items (entry_pieces session port actions.now)) }
{
    match port {
        None => {
            for action in actions {
                add_action(link, edge, text, session, action)?;
            }
            Ok(())
        }
        Some(port) => match put_epsv_reply(text, port) {
            Ok(()) => Ok(()),
            Err(_) => Err(Failed::Memory),
        },
    }
}

/// Says what is due on an entry: the earlier replies, and then those to the session among the actions; where a port is granted for
/// an EPSV, the reply that shows it in place of those.
///
/// Replies without a delay that stand side by side go in one write, where the link takes them so. The text is a buffer
/// that may hold anything.
pub(crate) fn say_for<L: Link, E: Edge>(
    link: &mut L,
    edge: &mut E,
    text: &mut Vec<u8>,
    session: u64,
    port: Option<u16>,
    earlier: &[(u32, Reply)],
    actions: &[Action],
) -> Result<(), Failed>
    ensures wrote { OnOk result (Writes (L.sending link.old).sent (L.sending link.new).sent (piece_text (said_pieces session port earlier.now actions.now))) }
    ensures calls { OnlySays (IsErrOf result Fault) (L.left link.old) (L.left link.new) (L.faults link.old) (L.faults link.new) (E.view edge.old) (E.view edge.new) }
    ensures paused { OnOk result (IsPaused (piece_delays (said_pieces session port earlier.now actions.now)) (E.view edge.old).paused (E.view edge.new).paused) }

    // After an error a part from the front was sent, each reply behind its delay.
    ensures front { OnErr result (SaysPieces (L.sending link.old).sent (L.sending link.new).sent (E.view edge.old).paused (E.view edge.new).paused [] (said_pieces session port earlier.now actions.now)) }
{
    text.clear();
    add_replies(link, edge, text, earlier)?;
    add_entry(link, edge, text, session, port, actions)?;
    flush(link, text)
}
