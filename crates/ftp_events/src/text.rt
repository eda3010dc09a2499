//! The texts of replies.

ghost use Rattle.std.specs.Prelude.{◌≡◌, true, ◌+◌, ◌≤◌, ◌<◌, ◌^◌, ◌++◌, [], ◌∷◌, length, decimal, IfOk};
ghost use Rattle.std.specs.Vec.{vec_len, vec_capacity};
ghost use Rattle.ftp_base.specs.declared.reply.Reply.TheVariants as reply;
ghost use Rattle.ftp_events.specs.Text.{passive_text, passive_numbers, offset_text, unique_name};
ghost use Rattle.ftp_events.specs.Message.{is_of_change, is_worded, reply_of, reply_of_kind};
ghost use Rattle.ftp_events.specs.Reply.{passive_reply, unshown};
ghost use Rattle.ftp_base.specs.declared.net.IpAddr.TheVariants.{V4};
ghost use Rattle.ftp_options.specs.declared.host.PassiveHost.TheVariants.{Dns};

use crate::wording;
use ftp_base::{Bytes, ControlChanMsg, ErrorKind, Reply, ReplyCode, ReplyText};
use ftp_options::PassiveHost;
use itoa::Buffer;
use std::alloc::{AllocError, Global};
use uuid::Builder;

/// No passive reply's text is longer, in bytes.
pub const PASSIVE_TEXT: usize = 64;

/// The reply to a message.
///
/// # Proved
///
/// - The reply to a message and to a refusal of a storage; the words of a message that has words (also `refusal`;
///   `words_of`: `reply`, `short`).
pub fn reply_of(alloc: Global, message: &ControlChanMsg) -> Result<Reply, AllocError>
    ensures { IfOk result (λ reply. reply ≡ reply_of message.now) }
{
    let (code, msg) = match message {
        ControlChanMsg::CommandChannelReply(reply) => return reply.copy(alloc),
        ControlChanMsg::ExitControlLoop
        | ControlChanMsg::SecureControlChannel
        | ControlChanMsg::PlaintextControlChannel => return Ok(Reply::None),
        ControlChanMsg::MkDirSuccess { path } => (
            ReplyCode::DirCreated,
            ReplyText::from_bytes(path.copy(alloc)?),
        ),
        _ => {
            let (code, words) = words_of(message);
            (code, ReplyText::from_static(words))
        }
    };
    Ok(Reply::CodeAndMsg { code, msg })
}

/// The code and the words that answer a message which has words for its reply.
pub fn words_of(message: &ControlChanMsg) -> (ReplyCode, &'static [u8])
    requires { is_worded message.now ≡ true }
    ensures reply { reply.CodeAndMsg result.0 result.1.now ≡ reply_of message.now }
    ensures short { length result.1.now ≤ 64 }
{
    match message {
        ControlChanMsg::PermissionDenied => (ReplyCode::FileError, b"Permision denied"),
        ControlChanMsg::NotFound => (ReplyCode::FileError, b"File not found"),
        ControlChanMsg::SentData { .. } => (ReplyCode::ClosingDataConnection, wording::SENT),
        ControlChanMsg::WrittenData { .. } => (ReplyCode::ClosingDataConnection, wording::WRITTEN),
        ControlChanMsg::ConnectionReset => (ReplyCode::ConnectionClosed, wording::BROKEN_OFF),
        ControlChanMsg::DataConnectionClosedAfterStor => (
            ReplyCode::FileActionOkay,
            b"unFTP holds your data for you",
        ),
        ControlChanMsg::WriteFailed => (ReplyCode::TransientFileError, wording::WRITE_FAILED),
        ControlChanMsg::DirectorySuccessfullyListed => (
            ReplyCode::ClosingDataConnection,
            wording::LISTED,
        ),
        ControlChanMsg::DirectoryListFailure => (
            ReplyCode::ClosingDataConnection,
            b"Failed to list the directory",
        ),
        ControlChanMsg::CwdSuccess => (ReplyCode::FileActionOkay, wording::CWD_CHANGED),
        ControlChanMsg::AuthSuccess { .. } => (ReplyCode::UserLoggedIn, wording::LOGGED_IN),
        ControlChanMsg::AuthFailed => (ReplyCode::NotLoggedIn, wording::AUTH_FAILED),
        ControlChanMsg::StorageError(kind) => refusal(*kind),
        _ => change_words(message),
    }
}

// The code and the words on what was changed in the storage, or could not be.
fn change_words(message: &ControlChanMsg) -> (ReplyCode, &'static [u8])
    requires { is_of_change message.now ≡ true }
    ensures reply { reply.CodeAndMsg result.0 result.1.now ≡ reply_of message.now }
    ensures short { length result.1.now ≤ 64 }
{
    match message {
        ControlChanMsg::DelFileSuccess { .. } | ControlChanMsg::RmDirSuccess { .. } => (
            ReplyCode::FileActionOkay,
            b"Successfully removed",
        ),
        ControlChanMsg::RenameSuccess { .. } => (ReplyCode::FileActionOkay, b"Renamed"),
        ControlChanMsg::DelFail => (ReplyCode::TransientFileError, b"Failed to delete the file"),
        ControlChanMsg::MkdirFail => (ReplyCode::FileError, b"Failed to create directory"),
        _ => unreachable!(),
    }
}

/// The code and the text that answer a refusal by the storage.
pub fn refusal(kind: ErrorKind) -> (ReplyCode, &'static [u8])
    ensures reply { reply.CodeAndMsg result.0 result.1.now ≡ reply_of_kind kind }
    ensures short { length result.1.now ≤ 64 }
{
    match kind {
        ErrorKind::TransientFileNotAvailable => (ReplyCode::TransientFileError, b"File not found"),
        ErrorKind::PermanentFileNotAvailable => (ReplyCode::FileError, b"File not found"),
        ErrorKind::PermanentDirectoryNotAvailable => (ReplyCode::FileError, b"Directory not found"),
        ErrorKind::PermanentDirectoryNotEmpty => (ReplyCode::FileError, b"Directory not empty"),
        ErrorKind::PermissionDenied => (ReplyCode::FileError, b"Permission denied"),
        ErrorKind::ConnectionClosed => (ReplyCode::ConnectionClosed, b"Connection closed"),
        ErrorKind::LocalError => (ReplyCode::LocalError, b"Local error"),
        ErrorKind::PageTypeUnknown => (ReplyCode::PageTypeUnknown, b"Page type unknown"),
        ErrorKind::InsufficientStorageSpaceError => (
            ReplyCode::OutOfSpace,
            b"Insufficient storage space",
        ),
        ErrorKind::ExceededStorageAllocationError => (
            ReplyCode::ExceededStorageAllocation,
            b"Exceeded storage allocation",
        ),
        ErrorKind::FileNameNotAllowedError => (ReplyCode::BadFileName, b"File name not allowed"),
        ErrorKind::CommandNotImplemented => (
            ReplyCode::CommandNotImplemented,
            b"Command not implemented",
        ),
    }
}

/// The reply that advertises a passive port (RFC 959, section 4.1.2), or that says that there is no address to
/// advertise. The addresses are IPv4, as one number in network order; `lookup` is what the advertised name was
/// looked up to.
///
/// # Proved
///
/// - The reply to a PASV: the address of the control connection, the fixed one or what was looked up, with the port;
///   for a name without a lookup that this was not resolved.
pub fn make_pasv_reply(
    alloc: Global,
    host: &PassiveHost,
    conn_ip: u32,
    lookup: Option<u32>,
    port: u16,
) -> Result<Reply, AllocError>
    ensures { IfOk result (λ reply. reply ≡ passive_reply host.now (V4 conn_ip) lookup port) }
{
    let shown = match host {
        PassiveHost::FromConnection => conn_ip,
        PassiveHost::Ip(ip) => *ip,
        PassiveHost::Dns(name) => match lookup {
            Some(ip) => ip,
            None => return unresolved(alloc, name),
        },
    };
    let mut text = Vec::with_capacity(alloc, PASSIVE_TEXT)?;
    write_passive_text(&mut text, shown, port);
    Ok(Reply::CodeAndMsg {
        code: ReplyCode::EnteringPassiveMode,
        msg: ReplyText::from_vec(text),
    })
}

// Says that a name was not looked up to an address.
fn unresolved(alloc: Global, name: &Bytes) -> Result<Reply, AllocError>
    ensures { IfOk result (λ reply. reply ≡ unshown (Dns name.now)) }
{
    let mut text = Vec::new(alloc);
    text.extend_from_slice(wording::UNRESOLVED)?;
    text.extend_from_slice(name.as_slice())?;
    text.extend_from_slice(b"'")?;
    Ok(Reply::CodeAndMsg {
        code: ReplyCode::CantOpenDataConnection,
        msg: ReplyText::from_vec(text),
    })
}

/// Writes the text of a passive reply behind the text, in room that it has.
///
/// # Proved
///
/// - The texts of a 227 and of a 350, and the name of a STOU, from a number (also `write_offset_text`; `unique_name`).
pub fn write_passive_text(text: &mut Vec<u8>, ip: u32, port: u16)
    requires { vec_len text.old + 64 ≤ vec_capacity text.old }
    ensures { text.new.items ≡ text.old.items ++ passive_text ip port }
{
    let [a, b, c, d] = ip.to_be_bytes();
    write_numbers(text, a, b, c, d, (port / 256) as u8, (port % 256) as u8);
}

/// The name of a unique file: the text of the UUID of version 4 that a random word gives.
pub fn unique_name(alloc: Global, word: u128) -> Result<Bytes, AllocError>
    ensures { IfOk result (λ name. name ≡ unique_name word) }
{
    let mut text = [0; 36];
    let id = Builder::from_random_bytes(word.to_be_bytes()).into_uuid();
    let name = id.hyphenated().encode_lower(&mut text);
    Bytes::from_slice(alloc, name.as_bytes())
}

/// Writes the text that answers a restart offset (RFC 3659, section 5) behind the text, in room that it has.
pub fn write_offset_text(text: &mut Vec<u8>, offset: u64)
    requires { vec_len text.old + 64 ≤ vec_capacity text.old }
    ensures { text.new.items ≡ text.old.items ++ offset_text offset }
{
    write_words(text, b"Restarting at ");
    write_offset(text, offset);
    write_words(text, b". Now send STORE or RETRIEVE.");
}

// Writes the digits of an offset.
fn write_offset(text: &mut Vec<u8>, offset: u64)
    requires room { vec_len text.old + 20 ≤ vec_capacity text.old }
    ensures items { text.new.items ≡ text.old.items ++ decimal offset }
    ensures len { vec_len text.new ≤ vec_len text.old + 20 }
    ensures capacity { vec_capacity text.old ≤ vec_capacity text.new }
{
    let mut buffer = Buffer::new();
    write_words(text, buffer.format(offset).as_bytes());
}

// Writes six numbers in their frame.
fn write_numbers(text: &mut Vec<u8>, a: u8, b: u8, c: u8, d: u8, high: u8, low: u8)
    requires { vec_len text.old + 64 ≤ vec_capacity text.old }
    ensures { text.new.items ≡ text.old.items ++ passive_numbers (a ∷ b ∷ c ∷ d ∷ high ∷ low ∷ []) }
{
    write_words(text, b"Entering Passive Mode (");
    write_number(text, a, b",");
    write_number(text, b, b",");
    write_number(text, c, b",");
    write_number(text, d, b",");
    write_number(text, high, b",");
    write_number(text, low, b")");
}

/// Writes words behind the text, in room that it has.
pub fn write_words(text: &mut Vec<u8>, words: &[u8])
    requires { vec_len text.old + length words.now ≤ vec_capacity text.old }
    ensures items { text.new.items ≡ text.old.items ++ words.now }
    ensures len { vec_len text.new ≡ vec_len text.old + length words.now }
    ensures capacity { vec_capacity text.old ≤ vec_capacity text.new }
{
    match text.extend_from_slice(words) {
        Ok(()) => {}
        Err(_) => unreachable!(),
    }
}

// Writes a number and the mark behind it.
fn write_number(text: &mut Vec<u8>, n: u8, mark: &[u8])
    requires one { length mark.now ≡ 1 }
    requires room { vec_len text.old + 4 ≤ vec_capacity text.old }
    ensures items { text.new.items ≡ text.old.items ++ (decimal n ++ mark.now) }
    ensures len { vec_len text.new ≤ vec_len text.old + 4 }
    ensures capacity { vec_capacity text.old ≤ vec_capacity text.new }
{
    let mut buffer = Buffer::new();
    write_words(text, buffer.format(n).as_bytes());
    write_words(text, mark);
}
