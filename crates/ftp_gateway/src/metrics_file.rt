//! The counts of a gateway, in a file that Prometheus' node_exporter takes up.

use ftp_audit::Tally;
use ftp_events::Entry;
use ftp_hub::PrepareError;
use ftp_options::Options;
use std::alloc::{AllocError, Global};
use std::rt::Files;
use std::sync::{Mutex, Wait};
use std::{fs, io, mem};

/// The file where counts are told, and their text as it is now.
#[derive(Drop)]
pub struct MetricsFile<R: Wait + Drop> {
    rt: R,
    alloc: Global,
    path: String,
    // Where the next one is written, before it takes the place of the last.
    beside: String,
    text: Mutex<Vec<u8>>,
}

impl<R: Wait + Drop> MetricsFile<R> {
    /// Where it is.
    pub fn path(&self) -> &str {
        self.path.as_str()
    }

    // This is the text from now on; that of before is given for it.
    fn tell(&self, text: &mut Vec<u8>) {
        mem::swap(&mut *self.text.lock(&self.rt), text);
    }
}

impl<R: Wait + Files + AllocGlobal + Copy + Drop> MetricsFile<R> {
    /// A file at a path. Nothing is told, and nothing is written yet.
    pub fn new(rt: R, path: &str) -> io::Result<MetricsFile<R>> {
        let alloc = rt.alloc();
        Ok(MetricsFile {
            rt,
            alloc,
            path: String::from_str(alloc, path)?,
            beside: format!(in alloc; "{path}.new")?,
            text: Mutex::new(Vec::new(alloc)),
        })
    }

    /// Writes the file anew. Whoever reads it finds the counts whole, those from before or those of now.
    pub fn write(&self) -> io::Result<()> {
        let text = Vec::from_slice(self.alloc, self.text.lock(&self.rt).as_slice())?;
        fs::write(&self.rt, self.beside.as_str(), text.as_slice())?;
        fs::rename(&self.rt, self.beside.as_str(), self.path.as_str())
    }
}

/// What is counted so far.
#[derive(Drop)]
pub struct RunningCounts {
    tally: Tally,
    // A text that was told before.
    text: Vec<u8>,
}

impl RunningCounts {
    /// Nothing was counted of a server with these options, and that is told.
    pub fn new<R: Wait + Drop>(
        alloc: Global,
        options: Options,
        file: &MetricsFile<R>,
    ) -> Result<RunningCounts, AllocError> {
        let mut counts = RunningCounts {
            tally: Tally::new(alloc, options),
            text: Vec::new(alloc),
        };
        counts.tell(file)?;
        Ok(counts)
    }

    /// Counts the next entry, and tells it.
    pub fn take<R: Wait + Drop>(
        &mut self,
        entry: &Entry,
        file: &MetricsFile<R>,
    ) -> Result<(), PrepareError> {
        self.tally.take(entry)?;
        self.tell(file)?;
        Ok(())
    }

    fn tell<R: Wait + Drop>(&mut self, file: &MetricsFile<R>) -> Result<(), AllocError> {
        self.text.clear();
        self.tally.put(&mut self.text)?;
        file.tell(&mut self.text);
        Ok(())
    }
}
