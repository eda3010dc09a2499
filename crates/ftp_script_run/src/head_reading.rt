//! Reading what stands before the script of a resumed run.

ghost use Rattle.std.specs.Prelude.{◌≡◌, ◌⊎◌, ℕ, ◌≤◌, ◌++◌, ◌↔◌, List, [], true, false, length, IfOk, IfErr, IfNone, IfSome, IsErrOf, OnOk};
ghost use Rattle.ftp_base.specs.Outside.{HasRisen};
ghost use Rattle.ftp_control.specs.Lines.{bytes_in, IsWithin};
ghost use Rattle.ftp_text.specs.declared.setup.Item.{Item};
ghost use Rattle.ftp_script_run.specs.declared.text_script.ScriptError.{ScriptError};
ghost use Rattle.ftp_script_run.specs.Resumed.{AreOfOptions, Finds, FindsHead, IsOptionsLine, KeepsLines, ReadsHead, ReadsLine, bar, sets_options};

use crate::admission::LONGEST_LINE;
use crate::head::Head;
use crate::text_script::ScriptError;
use ftp_base::{Failed, Source};
use ftp_control::Span;
use ftp_text::{Item, LineFault, read_item};
use memchr::memchr;
use std::alloc::Global;

impl Head {
    /// Reads the lines up to that of two hyphens, or up to the end of the source. A line of a state may be of any length.
    pub fn read<S: Source>(
        alloc: Global,
        buffer: &mut [u8],
        held: &mut Span,
        source: &mut S,
    ) -> Result<Head, ScriptError>
        requires within { IsWithin buffer.old held.old }
        requires len { length buffer.old ≡ 65537 }
        ensures told { IfOk result (λ head. IfSome (S.left source.old) (λ left. (texts : List (List ℕ)) × KeepsLines head texts × FindsHead head.is_closed head texts (bytes_in buffer.old held.old ++ left) (bytes_in buffer.new held.new) (S.left source.new))) }
        ensures options { IfOk result (λ head. AreOfOptions head.options) }
        ensures only { IfErr result (λ e. (e ≡ ScriptError.Fault) ⊎ (e ≡ ScriptError.Memory)) }
        ensures fault_rose { IsErrOf result ScriptError.Fault → HasRisen (S.faults source.old) (S.faults source.new) }
        ensures count { S.faults source.old ≤ S.faults source.new }
        ensures within { IsWithin buffer.new held.new }
        ensures len { length buffer.new ≡ length buffer.old }
    {
        let mut line = Vec::new(alloc);
        let (options, is_there) = read_options(alloc, buffer, held, source, &mut line)?;
        let mut head = Head::new(alloc, options);
        match read_state(&mut head, is_there, buffer, held, source, &mut line) {
            Ok(()) => Ok(head),
            Err(error) => {
                drop(head);
                Err(error)
            }
        }
    }
}

// Adds the line and those behind it, where it is there, up to that of two hyphens or to the end.
fn read_state<S: Source>(
    head: &mut Head,
    has_line: bool,
    buffer: &mut [u8],
    held: &mut Span,
    source: &mut S,
    line: &mut Vec<u8>,
) -> Result<(), ScriptError>
    requires within { IsWithin buffer.old held.old }
    requires len { length buffer.old ≡ 65537 }
    requires text { head.old.text.items ≡ [] }
    requires lines { head.old.lines ≡ 0 }
    requires open { head.old.is_closed ≡ false }
    ensures told { OnOk result ((bytes : List ℕ) → ReadsHead bytes head.old.options [] has_line line.old.items (bytes_in buffer.old held.old) (S.left source.old) → Finds head.new bytes (bytes_in buffer.new held.new) (S.left source.new)) }
    ensures options { OnOk result (head.new.options ≡ head.old.options) }
    ensures only { IfErr result (λ e. (e ≡ ScriptError.Fault) ⊎ (e ≡ ScriptError.Memory)) }
    ensures fault_rose { IsErrOf result ScriptError.Fault → HasRisen (S.faults source.old) (S.faults source.new) }
    ensures count { S.faults source.old ≤ S.faults source.new }
    ensures within { IsWithin buffer.new held.new }
    ensures len { length buffer.new ≡ length buffer.old }
{
    let mut is_there = has_line;
    while is_there {
        if is_bar(line.as_slice()) {
            head.close();
            return Ok(());
        }
        head.add(line.as_slice())?;
        is_there = read_line(buffer, held, source, line)?;
    }
    Ok(())
}

// Reads an options line, where the first is one, and the line behind it or in its place. It says whether that one is there.
fn read_options<S: Source>(
    alloc: Global,
    buffer: &mut [u8],
    held: &mut Span,
    source: &mut S,
    line: &mut Vec<u8>,
) -> Result<(Option<Item>, bool), ScriptError>
    requires within { IsWithin buffer.old held.old }
    requires len { length buffer.old ≡ 65537 }
    ensures told { IfOk result (λ read. IfSome (S.left source.old) (λ left. ReadsHead (bytes_in buffer.old held.old ++ left) read.0 [] read.1 line.new.items (bytes_in buffer.new held.new) (S.left source.new))) }
    ensures options { IfOk result (λ read. AreOfOptions read.0) }
    ensures only { IfErr result (λ e. (e ≡ ScriptError.Fault) ⊎ (e ≡ ScriptError.Memory)) }
    ensures fault_rose { IsErrOf result ScriptError.Fault → HasRisen (S.faults source.old) (S.faults source.new) }
    ensures count { S.faults source.old ≤ S.faults source.new }
    ensures within { IsWithin buffer.new held.new }
    ensures len { length buffer.new ≡ length buffer.old }
{
    if !read_line(buffer, held, source, line)? {
        return Ok((None, false));
    }
    match options_in(alloc, line.as_slice())? {
        Some(options) => read_behind(options, buffer, held, source, line),
        None => Ok((None, true)),
    }
}

// Reads the line behind that of the options in its place.
fn read_behind<S: Source>(
    options: Item,
    buffer: &mut [u8],
    held: &mut Span,
    source: &mut S,
    line: &mut Vec<u8>,
) -> Result<(Option<Item>, bool), ScriptError>
    requires within { IsWithin buffer.old held.old }
    requires len { length buffer.old ≡ 65537 }
    ensures told { IfOk result (λ read. (read.0 ≡ Some options) ×
        IfSome (S.left source.old) (λ left. ReadsLine read.1 (bytes_in buffer.old held.old ++ left) line.new.items (bytes_in buffer.new held.new) (S.left source.new))) }
    ensures only { IfErr result (λ e. (e ≡ ScriptError.Fault) ⊎ (e ≡ ScriptError.Memory)) }
    ensures fault_rose { IsErrOf result ScriptError.Fault → HasRisen (S.faults source.old) (S.faults source.new) }
    ensures count { S.faults source.old ≤ S.faults source.new }
    ensures within { IsWithin buffer.new held.new }
    ensures len { length buffer.new ≡ length buffer.old }
{
    match read_line(buffer, held, source, line) {
        Ok(is_there) => Ok((Some(options), is_there)),
        Err(error) => {
            drop(options);
            Err(error)
        }
    }
}

// The item of an options line.
fn options_in(alloc: Global, line: &[u8]) -> Result<Option<Item>, ScriptError>
    ensures found { IfOk result (λ found. IfSome found (λ i. IsOptionsLine line.now i)) }
    ensures options { IfOk result AreOfOptions }
    ensures none { IfOk result (λ found. IfNone found ((i : Item) → IsOptionsLine line.now i → ⊥)) }
    ensures only_memory { IfErr result (λ e. e ≡ ScriptError.Memory) }
{
    if line.len() > LONGEST_LINE {
        return Ok(None);
    }
    match read_item(alloc, line) {
        Ok(item) => Ok(options_only(item)),
        Err(LineFault::Bad) => Ok(None),
        Err(LineFault::Memory) => Err(ScriptError::Memory),
    }
}

// The item, where it sets options.
fn options_only(item: Item) -> Option<Item>
    ensures found { IfSome result (λ i. (i ≡ item) × (sets_options i ≡ true)) }
    ensures none { IfNone result (sets_options item ≡ false) }
{
    match item {
        options @ Item::Options { .. } => Some(options),
        _ => None,
    }
}

// Says whether the line is the one between a state and a script.
fn is_bar(line: &[u8]) -> bool
    ensures { (result ≡ true) ↔ (line.now ≡ bar) }
{
    line == b"--".as_slice()
}

// Reads the next line in place of the one before it, without its line feed, and says whether there is one. The last may lack its
// line feed.
fn read_line<S: Source>(
    buffer: &mut [u8],
    held: &mut Span,
    source: &mut S,
    line: &mut Vec<u8>,
) -> Result<bool, ScriptError>
    requires within { IsWithin buffer.old held.old }
    requires len { length buffer.old ≡ 65537 }
    ensures told { IfOk result (λ there. IfSome (S.left source.old) (λ left. ReadsLine there (bytes_in buffer.old held.old ++ left) line.new.items (bytes_in buffer.new held.new) (S.left source.new))) }
    ensures only { IfErr result (λ e. (e ≡ ScriptError.Fault) ⊎ (e ≡ ScriptError.Memory)) }
    ensures fault_rose { IsErrOf result ScriptError.Fault → HasRisen (S.faults source.old) (S.faults source.new) }
    ensures count { S.faults source.old ≤ S.faults source.new }
    ensures within { IsWithin buffer.new held.new }
    ensures len { length buffer.new ≡ length buffer.old }
{
    line.clear();
    loop {
        let bytes = &buffer[held.start..held.end];
        if let Some(end) = memchr(b'\n', bytes) {
            line.extend_from_slice(&bytes[..end])?;
            held.start += end + 1;
            return Ok(true);
        }
        line.extend_from_slice(bytes)?;
        *held = Span { start: 0, end: 0 };
        held.end = match source.read(buffer) {
            Ok(n) => n,
            Err(Failed::Fault | Failed::Memory) => return Err(ScriptError::Fault),
        };
        if held.end == 0 {
            return Ok(!line.is_empty());
        }
    }
}
