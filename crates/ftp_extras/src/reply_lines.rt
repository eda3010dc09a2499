//! Replies as they are sent (RFC 959, section 4.2; RFC 2428 for EPSV).

ghost use Rattle.std.specs.Prelude.{◌≡◌, ◌++◌, ℕ, true, List, IfOk, OnOk};
ghost use Rattle.std.specs.List.{flat_map};
ghost use Rattle.ftp_extras.specs.ReplyLines.{OneLine, ManyLines, line_with_end, reply_bytes, epsv_reply, is_whole_reply};
ghost use Rattle.ftp_extras.specs.Extra.{says_text, tells};

use crate::extra::{Extra, ExtraResult};
use ftp_base::{Bytes, ControlChanMsg, Reply, ReplyCode, ReplyText};
use std::alloc::{AllocError, Global};

/// Puts a line at the end of a text.
pub(crate) fn put_line(text: &mut Vec<u8>, line: &[u8]) -> Result<(), AllocError>
    ensures { OnOk result (text.new.items ≡ text.old.items ++ line_with_end line.now) }
{
    text.extend_from_slice(line)?;
    text.extend_from_slice(b"\r\n")?;
    Ok(())
}

/// A reply of one line, of a code that the hub does not send.
pub(crate) fn say(alloc: Global, code: &[u8], text: &[u8]) -> ExtraResult
    ensures { IfOk result (λ x. x ≡ says_text (OneLine code.now text.now)) }
{
    let mut line = Vec::from_slice(alloc, code)?;
    line.extend_from_slice(b" ")?;
    put_line(&mut line, text)?;
    Ok(Extra::Say(Bytes::from_vec(line)))
}

/// A reply of several lines, of which those between the first and the last one come with their ends.
pub(crate) fn say_many(
    alloc: Global,
    code: &[u8],
    first: &[u8],
    middle: &[u8],
    last: &[u8],
) -> ExtraResult
    ensures { IfOk result (λ x. (lines : List (List ℕ)) → middle.now ≡ flat_map line_with_end lines → x ≡ says_text (ManyLines code.now first.now lines last.now)) }
{
    let mut text = Vec::from_slice(alloc, code)?;
    text.extend_from_slice(b"-")?;
    put_line(&mut text, first)?;
    text.extend_from_slice(middle)?;
    text.extend_from_slice(code)?;
    text.extend_from_slice(b" ")?;
    put_line(&mut text, last)?;
    Ok(Extra::Say(Bytes::from_vec(text)))
}

/// Puts the reply to an EPSV that is granted a port.
///
/// # Proved
///
/// - One whole line, of code 229, that shows the port between three bars and one (`put`, `whole`).
#[tactic(auto, using(crate::proofs::ReplyLemmas::whole_epsv_reply))]
pub fn put_epsv_reply(text: &mut Vec<u8>, port: u16) -> Result<(), AllocError>
    ensures put { OnOk result (text.new.items ≡ text.old.items ++ reply_bytes (epsv_reply port)) }
    ensures whole { is_whole_reply (epsv_reply port) ≡ true }
{
    let alloc = *text.allocator();
    let digits = format!(in alloc; "{port}")?.into_bytes();
    let mut line = Vec::from_slice(alloc, b"Entering Extended Passive Mode (|||")?;
    line.extend_from_slice(digits.as_slice())?;
    line.extend_from_slice(b"|)")?;
    text.extend_from_slice(b"229 ")?;
    put_line(text, line.as_slice())
}

/// A reply that the hub sends.
pub(crate) fn tell(alloc: Global, code: ReplyCode, text: &[u8]) -> ExtraResult
    ensures { IfOk result (λ x. x ≡ tells code text.now) }
{
    let msg = ReplyText::from_bytes(Bytes::from_slice(alloc, text)?);
    Ok(Extra::Tell(ControlChanMsg::CommandChannelReply(Reply::CodeAndMsg { code, msg })))
}
