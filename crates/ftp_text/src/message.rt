//! A message to the control layer, as the end of a line: its word, and what stands behind the word.

ghost use Rattle.std.specs.Prelude.{◌≡◌, ◌++◌, OnOk};
ghost use Rattle.ftp_base.specs.declared.message.ControlChanMsg.TheVariants as message;
ghost use Rattle.ftp_base.specs.declared.reply.Reply.TheVariants as reply;
ghost use Rattle.ftp_text.specs.LineWords as word;
ghost use Rattle.ftp_text.specs.Fields.{field, escape};
ghost use Rattle.ftp_text.specs.Reading.{Gives, by_word};
ghost use Rattle.ftp_text.specs.Message.{message_word_text, two_paths, code_and_text, message_fields, words_with_fields, message_words, two_paths_at, message_behind, message_at};

use crate::fault::{LineFault, Parsed};
use crate::field::{fields, number, reply_code, text_to_end, word, word_value};
use crate::word::{KINDS, REPLY_CODES};
use crate::writing::{put_error_kind, put_field, put_number, put_text, put_text_field};
use ftp_base::{Bytes, ControlChanMsg, Reply, ReplyCode, ReplyText};
use std::alloc::{AllocError, Global};

/// A message, up to the end of the line.
#[tactic(auto, unfolding(crate::specs::Message::message_at, crate::specs::Reading::word_value))]
pub fn message_to_end(alloc: Global, bytes: &[u8]) -> Parsed<'_, ControlChanMsg>
    ensures { Gives (λ x. (x.0, x.1.now)) result (message_at bytes.now) }
{
    let (word, rest) = word(bytes)?;
    behind(alloc, word, rest)
}

// The message of a word, with what stands behind it.
fn behind<'a>(alloc: Global, word: &[u8], bytes: &'a [u8]) -> Parsed<'a, ControlChanMsg>
    ensures { Gives (λ x. (x.0, x.1.now)) result (by_word message_word_text message_words message_behind word.now bytes.now) }
{
    match word {
        b"denied" => Ok((ControlChanMsg::PermissionDenied, bytes)),
        b"notfound" => Ok((ControlChanMsg::NotFound, bytes)),
        b"delfail" => Ok((ControlChanMsg::DelFail, bytes)),
        b"mkdirfail" => Ok((ControlChanMsg::MkdirFail, bytes)),
        _ => with_fields(alloc, word, bytes),
    }
}

// The message of a word that has fields.
fn with_fields<'a>(alloc: Global, word: &[u8], bytes: &'a [u8]) -> Parsed<'a, ControlChanMsg>
    ensures { Gives (λ x. (x.0, x.1.now)) result (by_word message_word_text words_with_fields message_behind word.now bytes.now) }
{
    match word {
        b"deleted" =>
            fields!(bytes; path = text_to_end(alloc) => ControlChanMsg::DelFileSuccess { path }),
        b"removed" =>
            fields!(bytes; path = text_to_end(alloc) => ControlChanMsg::RmDirSuccess { path }),
        b"made" =>
            fields!(bytes; path = text_to_end(alloc) => ControlChanMsg::MkDirSuccess { path }),
        b"renamed" => renamed(alloc, bytes),
        b"kind" => of_kind(bytes),
        b"reply" => given_reply(alloc, bytes),
        _ => Err(LineFault::Bad),
    }
}

#[tactic(auto, unfolding(crate::specs::Reading::word_value))]
fn of_kind(bytes: &[u8]) -> Parsed<'_, ControlChanMsg>
    ensures { Gives (λ x. (x.0, x.1.now)) result (message_behind word.Kind bytes.now) }
{
    fields!(bytes; kind = word_value(&KINDS) => ControlChanMsg::StorageError(kind))
}

fn renamed(alloc: Global, bytes: &[u8]) -> Parsed<'_, ControlChanMsg>
    ensures { Gives (λ x. (x.0, x.1.now)) result (message_behind word.Renamed bytes.now) }
{
    fields!(bytes; (old_path, new_path) = paths_to_end(alloc) => ControlChanMsg::RenameSuccess { old_path, new_path })
}

// Two paths: the length of the first, and a text that begins with it.
#[tactic(auto, unfolding(crate::specs::Message::two_paths_at))]
fn paths_to_end(alloc: Global, bytes: &[u8]) -> Parsed<'_, (Bytes, Bytes)>
    ensures { Gives (λ x. (x.0, x.1.now)) result (two_paths_at bytes.now) }
{
    let (len, rest) = number(bytes)?;
    let (text, rest) = text_to_end(alloc, rest)?;
    let text = text.as_slice();
    if len > text.len() as u64 {
        return Err(LineFault::Bad);
    }
    let (first, second) = text.split_at(len as usize);
    let first = Bytes::from_slice(alloc, first)?;
    let second = Bytes::from_slice(alloc, second)?;
    Ok(((first, second), rest))
}

fn given_reply(alloc: Global, bytes: &[u8]) -> Parsed<'_, ControlChanMsg>
    ensures { Gives (λ x. (x.0, x.1.now)) result (message_behind word.AsItIs bytes.now) }
{
    let (code, rest) = reply_code(&REPLY_CODES, bytes)?;
    let (msg, rest) = text_to_end(alloc, rest)?;
    let msg = ReplyText::from_bytes(msg);
    let reply = Reply::CodeAndMsg { code, msg };
    Ok((ControlChanMsg::CommandChannelReply(reply), rest))
}

/// Writes the word and the fields of a message, and nothing for one that has no word.
pub fn put_message(out: &mut Vec<u8>, message: &ControlChanMsg) -> Result<(), AllocError>
    ensures { OnOk result (out.new.items ≡ out.old.items ++ message_fields message.now) }
{
    match message {
        ControlChanMsg::PermissionDenied => put_field(out, b"denied"),
        ControlChanMsg::NotFound => put_field(out, b"notfound"),
        ControlChanMsg::DelFail => put_field(out, b"delfail"),
        ControlChanMsg::MkdirFail => put_field(out, b"mkdirfail"),
        ControlChanMsg::DelFileSuccess { path } => put_path(out, b"deleted", path),
        ControlChanMsg::RmDirSuccess { path } => put_path(out, b"removed", path),
        ControlChanMsg::MkDirSuccess { path } => put_path(out, b"made", path),
        ControlChanMsg::RenameSuccess { old_path, new_path } => put_paths(out, old_path, new_path),
        ControlChanMsg::StorageError(kind) => {
            put_field(out, b"kind")?;
            put_error_kind(out, *kind)
        }
        ControlChanMsg::CommandChannelReply(Reply::CodeAndMsg { code, msg }) => put_reply(
            out, *code, msg,
        ),
        _ => Ok(()),
    }
}

fn put_path(out: &mut Vec<u8>, word: &[u8], path: &Bytes) -> Result<(), AllocError>
    ensures { OnOk result (out.new.items ≡ out.old.items ++ (field word.now ++ field (escape path.now))) }
{
    put_field(out, word)?;
    put_text_field(out, path.as_slice())
}

fn put_paths(out: &mut Vec<u8>, old_path: &Bytes, new_path: &Bytes) -> Result<(), AllocError>
    ensures { OnOk result (out.new.items ≡ out.old.items ++ message_fields (message.RenameSuccess old_path.now new_path.now)) }
{
    put_field(out, b"renamed")?;
    put_number(out, old_path.as_slice().len() as u64)?;
    put_text_field(out, old_path.as_slice())?;
    put_text(out, new_path.as_slice())
}

fn put_reply(out: &mut Vec<u8>, code: ReplyCode, msg: &ReplyText) -> Result<(), AllocError>
    ensures { OnOk result (out.new.items ≡ out.old.items ++ message_fields (message.CommandChannelReply (reply.CodeAndMsg code msg.now))) }
{
    put_field(out, b"reply")?;
    put_field(out, code.digits())?;
    put_text_field(out, msg.as_slice())
}
