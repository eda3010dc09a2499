//! Writing to the sink, by way of one buffer that is used again and again.

ghost use Rattle.std.specs.Prelude.{◌≡◌, ◌≤◌, ◌++◌, OnOk, OnErr, IsErrOf};
ghost use Rattle.ftp_base.specs.declared.fault.Failed.TheVariants.{Fault};
ghost use Rattle.ftp_base.specs.Outside.{HasRisen, Writes};
ghost use Rattle.ftp_control.specs.Writing.{WritesFront};
ghost use Rattle.ftp_text.specs.Printing.{entry_lines};
ghost use Rattle.ftp_text.specs.Setup.{file_line};
ghost use Rattle.ftp_script_run.specs.Outcome.{bad_line};
ghost use Rattle.ftp_script_run.specs.Left.{sent_on, link_lines, file_lines};

use ftp_base::{Failed, LinkTable, MemoryLink, MemoryStorage, Sink};
use ftp_control::write_all;
use ftp_events::Entry;
use ftp_text::writing::{put, put_byte, put_number};
use ftp_text::{put_entry, put_file, put_sent};
use std::alloc::{AllocError, Global};

/// Writes the lines of the entry.
pub fn print_entry<K: Sink>(sink: &mut K, text: &mut Vec<u8>, entry: &Entry) -> Result<(), Failed>
    ensures wrote { OnOk result (Writes (K.written sink.old) (K.written sink.new) (entry_lines entry.now)) }
    ensures fault_rose { IsErrOf result Fault → HasRisen (K.faults sink.old) (K.faults sink.new) }
    ensures count { K.faults sink.old ≤ K.faults sink.new }

    // After an error a part from the front was written.
    ensures front { OnErr result (WritesFront (K.written sink.old) (K.written sink.new) (entry_lines entry.now)) }
{
    text.clear();
    if put_entry(text, entry).is_err() {
        return Err(Failed::Memory);
    }
    write_all(sink, text.as_slice())
}

/// Writes the line that names a bad line.
pub fn print_bad_line<K: Sink>(sink: &mut K, text: &mut Vec<u8>, number: u64) -> Result<(), Failed>
    ensures wrote { OnOk result (Writes (K.written sink.old) (K.written sink.new) (bad_line number)) }
    ensures fault_rose { IsErrOf result Fault → HasRisen (K.faults sink.old) (K.faults sink.new) }
    ensures count { K.faults sink.old ≤ K.faults sink.new }

    // After an error a part from the front was written.
    ensures front { OnErr result (WritesFront (K.written sink.old) (K.written sink.new) (bad_line number)) }
{
    text.clear();
    if put_bad_line(text, number).is_err() {
        return Err(Failed::Memory);
    }
    write_all(sink, text.as_slice())
}

fn put_bad_line(out: &mut Vec<u8>, number: u64) -> Result<(), AllocError>
    ensures { OnOk result (out.new.items ≡ out.old.items ++ bad_line number) }
{
    put(out, b"bad line")?;
    put_number(out, number)?;
    put_byte(out, b'\n')
}

/// Writes what was sent on each link, a line each, in ascending order of their numbers.
pub fn print_links<K: Sink>(
    alloc: Global,
    sink: &mut K,
    text: &mut Vec<u8>,
    links: &LinkTable<MemoryLink>,
) -> Result<(), Failed>
    ensures wrote { OnOk result (Writes (K.written sink.old) (K.written sink.new) (link_lines links.now)) }
    ensures fault_rose { IsErrOf result Fault → HasRisen (K.faults sink.old) (K.faults sink.new) }
    ensures count { K.faults sink.old ≤ K.faults sink.new }

    // After an error a part from the front was written.
    ensures front { OnErr result (WritesFront (K.written sink.old) (K.written sink.new) (link_lines links.now)) }
{
    let Ok(numbers) = links.numbers(alloc) else {
        return Err(Failed::Memory);
    };
    for number in &numbers {
        print_sent(sink, text, links, *number)?;
    }
    Ok(())
}

// Writes what was sent on the link of this number.
fn print_sent<K: Sink>(
    sink: &mut K,
    text: &mut Vec<u8>,
    links: &LinkTable<MemoryLink>,
    number: u64,
) -> Result<(), Failed>
    ensures wrote { OnOk result (Writes (K.written sink.old) (K.written sink.new) (sent_on links.now number)) }
    ensures fault_rose { IsErrOf result Fault → HasRisen (K.faults sink.old) (K.faults sink.new) }
    ensures count { K.faults sink.old ≤ K.faults sink.new }
    ensures front { OnErr result (WritesFront (K.written sink.old) (K.written sink.new) (sent_on links.now number)) }
{
    let sent = match links.get(number) {
        Some(link) => link.sent(),
        None => &[],
    };
    text.clear();
    if put_sent(text, number, sent).is_err() {
        return Err(Failed::Memory);
    }
    write_all(sink, text.as_slice())
}

/// Writes the files of the storage, a line each, in byte order of their paths.
pub fn print_files<K: Sink>(
    sink: &mut K,
    text: &mut Vec<u8>,
    storage: &MemoryStorage,
) -> Result<(), Failed>
    ensures wrote { OnOk result (Writes (K.written sink.old) (K.written sink.new) (file_lines storage.now)) }
    ensures fault_rose { IsErrOf result Fault → HasRisen (K.faults sink.old) (K.faults sink.new) }
    ensures count { K.faults sink.old ≤ K.faults sink.new }

    // After an error a part from the front was written.
    ensures front { OnErr result (WritesFront (K.written sink.old) (K.written sink.new) (file_lines storage.now)) }
{
    for (path, bytes) in storage.files() {
        print_file(sink, text, path, bytes)?;
    }
    Ok(())
}

// Writes the line of the file.
fn print_file<K: Sink>(
    sink: &mut K,
    text: &mut Vec<u8>,
    path: &[u8],
    bytes: &[u8],
) -> Result<(), Failed>
    ensures wrote { OnOk result (Writes (K.written sink.old) (K.written sink.new) (file_line (path.now, bytes.now))) }
    ensures fault_rose { IsErrOf result Fault → HasRisen (K.faults sink.old) (K.faults sink.new) }
    ensures count { K.faults sink.old ≤ K.faults sink.new }
    ensures front { OnErr result (WritesFront (K.written sink.old) (K.written sink.new) (file_line (path.now, bytes.now))) }
{
    text.clear();
    if put_file(text, path, bytes).is_err() {
        return Err(Failed::Memory);
    }
    write_all(sink, text.as_slice())
}
