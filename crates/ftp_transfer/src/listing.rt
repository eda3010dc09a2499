//! The texts of LIST, NLST (RFC 959, section 4.1.3) and MLSD (RFC 3659, section 7).

ghost use Rattle.std.specs.Prelude.{◌≡◌, ◌++◌, true, IfOk, OnOk, codes, decimal};
ghost use Rattle.ftp_transfer.specs.Listing.{facts, modify_fact, mode, date_shown, twelve_places, entry_of, listing_text as text_of};
ghost use Rattle.ftp_transfer.specs.Transfer.{is_listing};

use ftp_base::{Bytes, DataChanCmd, FileInfo, Looks, Meta};
use std::alloc::{AllocError, Global};

/// The facts that MLSD tells of a file or a directory.
pub fn format_facts(alloc: Global, meta: &Meta) -> Result<Bytes, AllocError>
    ensures { IfOk result (λ text. text ≡ facts meta.now) }
{
    let mut text = Vec::new(alloc);
    put_facts(&mut text, meta)?;
    Ok(Bytes::from_vec(text))
}

/// The text of a listing: a line a child, each with CR and LF at its end.
pub fn listing_text(
    alloc: Global,
    command: &DataChanCmd,
    children: &[FileInfo],
) -> Result<Vec<u8>, AllocError>
    requires command { is_listing command.now ≡ true }
    ensures { IfOk result (λ text. text.items ≡ text_of command.now children.now) }
{
    let mut text = Vec::new(alloc);
    for child in children {
        put_entry(&mut text, command, child)?;
        text.extend_from_slice(b"\r\n")?;
    }
    Ok(text)
}

fn put_entry(text: &mut Vec<u8>, command: &DataChanCmd, child: &FileInfo) -> Result<(), AllocError>
    ensures { OnOk result (text.new.items ≡ text.old.items ++ entry_of command.now child.now) }
{
    match command {
        DataChanCmd::List { .. } => put_long(text, child)?,
        DataChanCmd::Nlst { .. } => text.extend_from_slice(child.name.as_slice())?,
        DataChanCmd::Mlsd { .. } => {
            put_facts(text, &child.meta)?;
            put_modify(text, child.looks)?;
            text.extend_from_slice(b" ")?;
            text.extend_from_slice(child.name.as_slice())?;
        }
        _ => {}
    }
    Ok(())
}

fn put_facts(text: &mut Vec<u8>, meta: &Meta) -> Result<(), AllocError>
    ensures { OnOk result (text.new.items ≡ text.old.items ++ facts meta.now) }
{
    if meta.is_dir {
        text.extend_from_slice(b"type=dir;")?;
        return Ok(());
    }
    text.extend_from_slice(b"type=file;size=")?;
    let digits = digits_of(*text.allocator(), meta.len)?;
    text.extend_from_slice(digits.as_slice())?;
    text.extend_from_slice(b";")?;
    Ok(())
}

fn put_modify(text: &mut Vec<u8>, looks: Option<Looks>) -> Result<(), AllocError>
    ensures { OnOk result (text.new.items ≡ text.old.items ++ modify_fact looks) }
{
    if let Some(looks) = looks {
        text.extend_from_slice(b"modify=")?;
        text.extend_from_slice(&looks.modify)?;
        text.extend_from_slice(b";")?;
    }
    Ok(())
}

fn put_long(text: &mut Vec<u8>, child: &FileInfo) -> Result<(), AllocError>
    ensures { OnOk result (text.new.items ≡ text.old.items ++ (mode child.now.meta child.now.looks ++ codes " 1 ftp ftp " ++ twelve_places child.now.meta.len ++ codes " " ++ date_shown child.now.looks ++ codes " " ++ child.now.name)) }
{
    put_mode(text, &child.meta, child.looks)?;
    text.extend_from_slice(b" 1 ftp ftp ")?;
    put_size(text, child.meta.len)?;
    text.extend_from_slice(b" ")?;
    put_date(text, child.looks)?;
    text.extend_from_slice(b" ")?;
    text.extend_from_slice(child.name.as_slice())?;
    Ok(())
}

/// Writes what it is and who may do what, in ten letters.
fn put_mode(text: &mut Vec<u8>, meta: &Meta, looks: Option<Looks>) -> Result<(), AllocError>
    ensures { OnOk result (text.new.items ≡ text.old.items ++ mode meta.now looks) }
{
    match (looks, meta.is_dir) {
        (None, true) => text.extend_from_slice(b"drwxrwxrwx")?,
        (None, false) => text.extend_from_slice(b"-rw-rw-rw-")?,
        (Some(looks), is_dir) => {
            text.push(if is_dir { b'd' } else { b'-' })?;
            text.extend_from_slice(&looks.mode)?;
        }
    }
    Ok(())
}

/// Writes when it was last changed.
fn put_date(text: &mut Vec<u8>, looks: Option<Looks>) -> Result<(), AllocError>
    ensures { OnOk result (text.new.items ≡ text.old.items ++ date_shown looks) }
{
    match looks {
        None => text.extend_from_slice(b"Jan 01 1970")?,
        Some(looks) => text.extend_from_slice(&looks.shown)?,
    }
    Ok(())
}

/// Writes a number in twelve places, on the right of them.
fn put_size(text: &mut Vec<u8>, size: u64) -> Result<(), AllocError>
    ensures { OnOk result (text.new.items ≡ text.old.items ++ twelve_places size) }
{
    let digits = digits_of(*text.allocator(), size)?;
    let shown = digits.as_slice();
    let blanks = BLANKS.len() - shown.len().min(BLANKS.len());
    text.extend_from_slice(&BLANKS[..blanks])?;
    text.extend_from_slice(shown)?;
    Ok(())
}

const BLANKS: [u8; 12] = [b' '; 12];

fn digits_of(alloc: Global, n: u64) -> Result<Vec<u8>, AllocError>
    ensures { IfOk result (λ digits. digits.items ≡ decimal n) }
{
    Ok(format!(in alloc; "{n}")?.into_bytes())
}
