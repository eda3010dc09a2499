//! A log on disk.

use ftp_audit::{LogForm, ServerLog};
use ftp_events::Entry;
use std::alloc::Global;
use std::fs::{File, OpenOptions};
use std::io;
use std::io::Write;
use std::rt::Files;
use std::sync::{Mutex, Wait};

/// What is known of the journal so far, and the file to which the lines are added.
#[derive(Drop)]
struct Lines {
    log: ServerLog,
    file: File,
}

/// A log of a journal's entries, in a file that others may rename.
#[derive(Drop)]
pub struct LogFile<R: Wait + Drop> {
    rt: R,
    alloc: Global,
    path: String,
    lines: Mutex<Lines>,
}

// The file at a path, to which is added.
fn file_at<R: Files<File = File>>(rt: &R, path: &str) -> io::Result<File> {
    OpenOptions::new().append(true).create(true).open(rt, path)
}

impl<R: Wait + Drop> LogFile<R> {
    /// Where it is.
    pub fn path(&self) -> &str {
        self.path.as_str()
    }

    /// Adds the lines that the next entry tells.
    pub fn take(&self, entry: &Entry) -> io::Result<()> {
        let mut text = Vec::new(self.alloc);
        let mut lines = self.lines.lock(&self.rt);
        lines.log.take(entry, &mut text)?;
        if text.is_empty() {
            return Ok(());
        }
        lines.file.write_all(text.as_slice())
    }
}

impl<R: Wait + Files<File = File> + AllocGlobal + Copy + Drop> LogFile<R> {
    /// A log in the file at a path, which is made where there is none. Moments are counted from one in milliseconds since the first
    /// day of 1970.
    pub fn open(rt: R, path: &str, form: LogForm, start: u64) -> io::Result<LogFile<R>> {
        let alloc = rt.alloc();
        let file = file_at(&rt, path)?;
        let path = String::from_str(alloc, path)?;
        let log = ServerLog::new(alloc, form, start);
        Ok(LogFile {
            rt,
            alloc,
            path,
            lines: Mutex::new(Lines { log, file }),
        })
    }

    /// From now on adds to the file that stands at the path then, which is made where there is none. Where it cannot be opened, lines go
    /// on in the one before.
    pub fn reopen(&self) -> io::Result<()> {
        let file = file_at(&self.rt, self.path.as_str())?;
        self.lines.lock(&self.rt).file = file;
        Ok(())
    }
}
