//! A command with what it reads and writes.
//!
//! Its first line is `SOURCE SINK WORDS..`: how the source and the sink move bytes, as `7` or `7/3`, and the words of the
//! command. The lines behind it are what the command reads, without the last line feed.

ghost use Rattle.std.specs.Prelude.{◌≤◌};

use ftp_base::{MemorySink, MemorySource};
use ftp_script_run::{Status, run_script};
use std::alloc::{AllocError, Global};

/// How many bytes move in a call, and the call that fails, counted from 1.
#[derive(Clone, Copy)]
struct Calls {
    chunk: u32,
    fails: Option<u64>,
}

impl Calls {
    fn of(word: &str) -> Calls
        ensures { 1 ≤ result.chunk }
    {
        let (chunk, fails) = match word.split_once('/') {
            Some((chunk, fails)) => (chunk, fails.parse::<u64>().ok()),
            None => (word, None),
        };
        let chunk = chunk.parse::<u32>().unwrap_or(1).max(1);
        Calls { chunk, fails }
    }

    fn failing(self, alloc: Global) -> Result<Vec<u64>, AllocError> {
        match self.fails {
            Some(call) => [call].to_vec(alloc),
            None => Ok(Vec::new(alloc)),
        }
    }
}

/// A command, and what it reads.
#[derive(Clone, Copy)]
pub struct Case<'a> {
    head: &'a str,
    script: &'a str,
}

impl<'a> Case<'a> {
    pub fn of(lines: &'a str) -> Case<'a> {
        let (head, script) = lines.split_once('\n').unwrap_or((lines, ""));
        Case { head, script }
    }

    /// Prints the first line, what the command writes, and how it ends.
    pub fn print(&self, alloc: Global, out: &mut Vec<u8>) -> Result<(), AllocError> {
        let mut words = self.head.split(' ');
        let source = Calls::of(words.next().unwrap_or(""));
        let sink = Calls::of(words.next().unwrap_or(""));
        let mut command = Vec::new(alloc);
        for word in words {
            command.push(word.as_bytes().to_vec(alloc)?)?;
        }
        put(out, &[b"%% ", self.head.as_bytes(), b"\n"])?;
        let status = self.run(alloc, source, sink, command.as_slice(), out)?;
        let end = format!(in alloc; "%% {status:?}\n")?;
        put(out, &[end.as_bytes()])
    }

    /// Runs the command, and adds what it writes.
    fn run(
        &self,
        alloc: Global,
        source: Calls,
        sink: Calls,
        command: &[Vec<u8>],
        out: &mut Vec<u8>,
    ) -> Result<Status, AllocError>
        requires source { 1 ≤ source.chunk }
        requires sink { 1 ≤ sink.chunk }
    {
        let script = self.script.as_bytes().to_vec(alloc)?;
        let mut source = MemorySource::new(script, source.chunk, source.failing(alloc)?);
        let mut sink = MemorySink::new(alloc, sink.chunk, sink.failing(alloc)?);
        let status = run_script(alloc, command, &mut source, &mut sink);
        put(out, &[sink.written()])?;
        Ok(status)
    }
}

fn put(out: &mut Vec<u8>, texts: &[&[u8]]) -> Result<(), AllocError> {
    for text in texts {
        out.extend_from_slice(text)?;
    }
    Ok(())
}
