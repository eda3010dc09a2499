//! The two forms of a line.

ghost use Rattle.std.specs.Prelude.{◌≡◌, ◌++◌, map, OnOk};
ghost use Rattle.std.specs.List.{flat_map};
ghost use Rattle.std.specs.Option.{option_to_list};
ghost use Rattle.ftp_text.specs.Fields.{field};
ghost use Rattle.ftp_audit.specs.Forms.{maybe_client, bare_byte, blankless, bare_path, other_path, log_word_text, line_result_text, own_front, own_back, own_line, xferlog_byte, command_direction, direction_of, completion_byte, xferlog_front, xferlog_back, xferlog_with, log_line_text, v6_digits};

use crate::calendar::{put_ctime, put_iso};
use crate::line::{LineResult, LineWord, LogForm, LogLine};
use ftp_base::{Bytes, IpAddr};
use ftp_events::CommandWord;
use ftp_text::writing::{
    put, put_byte, put_error_kind, put_field, put_hex_bytes, put_number, put_optional_dotted,
    put_text,
};
use std::alloc::AllocError;

// The digits of an IPv6 address.
#[tactic(auto, unfolding(crate::specs::Forms::v6_digits))]
fn put_v6_digits(out: &mut Vec<u8>, ip: u128) -> Result<(), AllocError>
    ensures { OnOk result (out.new.items ≡ out.old.items ++ v6_digits ip) }
{
    put_hex_bytes(out, &ip.to_be_bytes())
}

// Writes a space and where a client is.
fn put_client(out: &mut Vec<u8>, client: Option<IpAddr>) -> Result<(), AllocError>
    ensures { OnOk result (out.new.items ≡ out.old.items ++ field (maybe_client client)) }
{
    match client {
        None => put(out, b" -"),
        Some(IpAddr::V4(ip)) => put_optional_dotted(out, Some(ip)),
        Some(IpAddr::V6(ip)) => {
            put(out, b" [")?;
            put_v6_digits(out, ip)?;
            put_byte(out, b']')
        }
    }
}

fn put_bare_byte(out: &mut Vec<u8>, b: u8) -> Result<(), AllocError>
    ensures { OnOk result (out.new.items ≡ out.old.items ++ bare_byte b) }
{
    if b == b' ' {
        return put(out, b"\\x20");
    }
    put_text(out, &[b])
}

// A text without blanks.
fn put_bare(out: &mut Vec<u8>, text: &[u8]) -> Result<(), AllocError>
    ensures { OnOk result (out.new.items ≡ out.old.items ++ blankless text.now) }
{
    for b in text {
        put_bare_byte(out, *b)?;
    }
    Ok(())
}

// Writes a space and a path, or a hyphen for none.
fn put_path(out: &mut Vec<u8>, path: &[u8]) -> Result<(), AllocError>
    ensures { OnOk result (out.new.items ≡ out.old.items ++ field (bare_path path.now)) }
{
    put_byte(out, b' ')?;
    match path {
        [] => put_byte(out, b'-'),
        _ => put_bare(out, path),
    }
}

// Writes a second path.
fn put_second(out: &mut Vec<u8>, path: &Option<Bytes>) -> Result<(), AllocError>
    ensures { OnOk result (out.new.items ≡ out.old.items ++ other_path path.now) }
{
    match path {
        None => Ok(()),
        Some(path) => put_path(out, path.as_slice()),
    }
}

/// The word of a line.
pub(crate) fn word_text(word: LineWord) -> &'static [u8]
    ensures { result.now ≡ log_word_text word }
{
    match word {
        LineWord::Connect => b"connect",
        LineWord::Login => b"login",
        LineWord::End => b"end",
        LineWord::Transfer(None) => b"-",
        LineWord::Transfer(Some(CommandWord::Retr)) => b"RETR",
        LineWord::Transfer(Some(CommandWord::Stor)) => b"STOR",
        LineWord::Transfer(Some(CommandWord::Appe)) => b"APPE",
        LineWord::Transfer(Some(CommandWord::List)) => b"LIST",
        LineWord::Transfer(Some(CommandWord::Nlst)) => b"NLST",
        LineWord::Transfer(Some(CommandWord::Mlsd)) => b"MLSD",
        LineWord::Dele => b"DELE",
        LineWord::Rmd => b"RMD",
        LineWord::Mkd => b"MKD",
        LineWord::Rnto => b"RNTO",
    }
}

// Writes a space and the word of a result.
fn put_result(out: &mut Vec<u8>, outcome: LineResult) -> Result<(), AllocError>
    ensures { OnOk result (out.new.items ≡ out.old.items ++ field (line_result_text outcome)) }
{
    match outcome {
        LineResult::Done => put_field(out, b"ok"),
        LineResult::Failed => put_field(out, b"failed"),
        LineResult::Locked => put_field(out, b"locked"),
        LineResult::Quit => put_field(out, b"quit"),
        LineResult::Closed => put_field(out, b"closed"),
        LineResult::TimedOut => put_field(out, b"timeout"),
        LineResult::Stopped => put_field(out, b"stopped"),
        LineResult::Aborted => put_field(out, b"aborted"),
        LineResult::Refused(kind) => put_error_kind(out, kind),
        LineResult::OutOfMemory => put_field(out, b"memory"),
    }
}

// When, where and who.
#[tactic(auto, unfolding(crate::specs::Forms::own_front))]
fn put_own_front(out: &mut Vec<u8>, moment: u64, line: &LogLine) -> Result<(), AllocError>
    ensures { OnOk result (out.new.items ≡ out.old.items ++ own_front moment line.now) }
{
    put_iso(out, moment)?;
    put_number(out, line.session)?;
    put_client(out, line.client)?;
    put_byte(out, b' ')?;
    put_bare(out, line.user.as_slice())?;
    put_field(out, word_text(line.word))
}

// How it came out.
#[tactic(auto, unfolding(crate::specs::Forms::own_back))]
fn put_own_back(out: &mut Vec<u8>, line: &LogLine) -> Result<(), AllocError>
    ensures { OnOk result (out.new.items ≡ out.old.items ++ own_back line.now) }
{
    put_number(out, line.bytes)?;
    put_number(out, line.millis)?;
    put_result(out, line.result)?;
    put_path(out, line.path.as_slice())?;
    put_second(out, &line.to)?;
    put_byte(out, b'\n')
}

// A line in its own form.
fn put_own(out: &mut Vec<u8>, moment: u64, line: &LogLine) -> Result<(), AllocError>
    ensures { OnOk result (out.new.items ≡ out.old.items ++ own_line moment line.now) }
{
    put_own_front(out, moment, line)?;
    put_own_back(out, line)
}

// A text in which blanks and control bytes are underscores.
fn put_underscored(out: &mut Vec<u8>, text: &[u8]) -> Result<(), AllocError>
    ensures { OnOk result (out.new.items ≡ out.old.items ++ map xferlog_byte text.now) }
{
    for b in text {
        put_byte(out, if *b <= b' ' || *b == 127 { b'_' } else { *b })?;
    }
    Ok(())
}

fn command_direction(word: CommandWord) -> Option<u8>
    ensures { result ≡ command_direction word }
{
    match word {
        CommandWord::Retr => Some(b'o'),
        CommandWord::Stor | CommandWord::Appe => Some(b'i'),
        _ => None,
    }
}

fn direction_of(word: LineWord) -> Option<u8>
    ensures { result ≡ direction_of word }
{
    match word {
        LineWord::Transfer(Some(command)) => command_direction(command),
        LineWord::Dele => Some(b'd'),
        _ => None,
    }
}

fn completion_byte(outcome: LineResult) -> u8
    ensures { result ≡ completion_byte outcome }
{
    match outcome {
        LineResult::Done => b'c',
        _ => b'i',
    }
}

// A line of xferlog up to the path.
#[tactic(auto, unfolding(crate::specs::Forms::xferlog_front))]
fn put_xferlog_front(out: &mut Vec<u8>, moment: u64, line: &LogLine) -> Result<(), AllocError>
    ensures { OnOk result (out.new.items ≡ out.old.items ++ xferlog_front moment line.now) }
{
    put_ctime(out, moment)?;
    put_number(out, line.millis / 1000)?;
    put_client(out, line.client)?;
    put_number(out, line.bytes)?;
    put_byte(out, b' ')?;
    put_underscored(out, line.path.as_slice())
}

// What stands behind it.
#[tactic(auto, unfolding(crate::specs::Forms::xferlog_back))]
fn put_xferlog_back(out: &mut Vec<u8>, line: &LogLine, direction: u8) -> Result<(), AllocError>
    ensures { OnOk result (out.new.items ≡ out.old.items ++ xferlog_back line.now direction) }
{
    put(out, b" b _ ")?;
    put_byte(out, direction)?;
    put(out, b" r ")?;
    put_underscored(out, line.user.as_slice())?;
    put(out, b" ftp 0 * ")?;
    put_byte(out, completion_byte(line.result))?;
    put_byte(out, b'\n')
}

// A line of xferlog.
fn put_xferlog(
    out: &mut Vec<u8>,
    moment: u64,
    line: &LogLine,
    direction: u8,
) -> Result<(), AllocError>
    ensures { OnOk result (out.new.items ≡ out.old.items ++ xferlog_with moment line.now direction) }
{
    put_xferlog_front(out, moment, line)?;
    put_xferlog_back(out, line, direction)
}

/// Writes a line in a form, where the server started at a moment in milliseconds since the first day of 1970.
pub(crate) fn put_line(
    out: &mut Vec<u8>,
    form: LogForm,
    start: u64,
    line: &LogLine,
) -> Result<(), AllocError>
    ensures { OnOk result (out.new.items ≡ out.old.items ++ log_line_text form start line.now) }
{
    let moment = start.saturating_add(line.at);
    match form {
        LogForm::Own => put_own(out, moment, line),
        LogForm::Xferlog => match direction_of(line.word) {
            Some(direction) => put_xferlog(out, moment, line, direction),
            None => Ok(()),
        },
    }
}

/// Writes a line, if there is one.
pub(crate) fn put_maybe(
    out: &mut Vec<u8>,
    form: LogForm,
    start: u64,
    line: &Option<LogLine>,
) -> Result<(), AllocError>
    ensures { OnOk result (out.new.items ≡ out.old.items ++ flat_map (log_line_text form start) (option_to_list line.now)) }
{
    match line {
        Some(line) => put_line(out, form, start, line),
        None => Ok(()),
    }
}
