//! What a gateway writes of its journal.

use crate::log_file::LogFile;
use crate::metrics_file::{MetricsFile, RunningCounts};
use crate::refusal::Refusal;
use ftp_audit::LogForm;
use ftp_base::Bytes;
use ftp_config::GatewayConfig;
use ftp_events::Entry;
use ftp_options::{Options, ServerError};
use std::alloc::{AllocError, Global};
use std::fs::File;
use std::rt::Files;
use std::sync::{Arc, Mutex, Wait};
use std::time::{Clock, Duration};

/// The files of a journal: its logs, and its counts.
#[derive(Drop)]
pub struct RecordFiles<R: Wait + Drop> {
    alloc: Global,
    logs: Vec<LogFile<R>>,
    metrics: Option<MetricsFile<R>>,
}

/// What the entries of a journal tell, and the files where it is written, which others may share.
#[derive(Drop)]
pub struct Records<R: Wait + Drop> {
    rt: R,
    files: Arc<RecordFiles<R>, Global>,
    // What is counted, where that is told.
    counts: Option<Mutex<RunningCounts>>,
}

// A time in milliseconds.
fn millis(time: Duration) -> u64 {
    u64::try_from(time.as_millis()).unwrap_or(u64::MAX)
}

// The moment from which those of a journal are counted, in milliseconds since the first day of 1970.
fn start<R: Clock>(rt: &R) -> u64 {
    let (Ok(now), Ok(since_start)) = (rt.since_1970(), rt.monotonic()) else {
        return 0;
    };
    millis(now).saturating_sub(millis(since_start))
}

// A path that a configuration names.
fn path_text(path: &Bytes) -> Option<&str> {
    std::str::from_utf8(path.as_slice()).ok()
}

// Why a file cannot be written.
fn unwritable(alloc: Global, path: &[u8]) -> Refusal {
    match Bytes::from_slice(alloc, path) {
        Ok(path) => Refusal::Unwritable(path),
        Err(AllocError) => Refusal::OutOfMemory,
    }
}

impl<R: Wait + Drop> Records<R> {
    /// Whether nothing is written.
    pub fn is_empty(&self) -> bool {
        self.files.logs.is_empty() && self.files.metrics.is_none()
    }

    /// The files, for one more who has them.
    pub fn files(&self) -> Result<Arc<RecordFiles<R>, Global>, Refusal> {
        Ok(Arc::try_clone(&self.files)?)
    }

    /// Writes what the next entry tells, wherever it can be written, and says where it cannot.
    pub fn take(&self, entry: &Entry) -> Result<(), Refusal> {
        let files = &*self.files;
        let mut failed = None;
        for log in &files.logs {
            if log.take(entry).is_err() {
                failed = Some(log.path());
            }
        }
        if let (Some(counts), Some(metrics)) = (&self.counts, &files.metrics) {
            if counts.lock(&self.rt).take(entry, metrics).is_err() {
                failed = Some(metrics.path());
            }
        }
        match failed {
            Some(path) => Err(unwritable(files.alloc, path.as_bytes())),
            None => Ok(()),
        }
    }
}

impl<R: Wait + Files<File = File> + Clock + AllocGlobal + Copy + Drop> Records<R> {
    /// Opens the files that a configuration names, for the journal of a server with these options, and writes the first counts.
    pub fn open(rt: R, config: &GatewayConfig, options: &Options) -> Result<Records<R>, Refusal> {
        let files = RecordFiles::open(rt, config)?;
        let counts = files.first_counts(options)?;
        files.write_metrics()?;
        match Arc::new(rt.alloc(), files) {
            Ok(files) => Ok(Records { rt, files, counts }),
            Err(failed) => {
                drop(failed);
                Err(Refusal::OutOfMemory)
            }
        }
    }

    /// The server has ended so: the last counts are written, and it is said where one of both failed.
    pub fn end(&self, served: Result<(), ServerError>) -> Result<(), Refusal> {
        let counted = self.files.write_metrics();
        match served {
            Ok(()) => counted,
            Err(error) => Err(Refusal::Server(error)),
        }
    }
}

impl<R: Wait + Files<File = File> + Clock + AllocGlobal + Copy + Drop> RecordFiles<R> {
    // Opens the files that a configuration names.
    fn open(rt: R, config: &GatewayConfig) -> Result<RecordFiles<R>, Refusal> {
        let alloc = rt.alloc();
        let mut files = RecordFiles {
            alloc,
            logs: Vec::new(alloc),
            metrics: None,
        };
        files.add_log(rt, &config.log_file, LogForm::Own)?;
        files.add_log(rt, &config.xferlog_file, LogForm::Xferlog)?;
        if let Some(path) = &config.metrics_file {
            files.tell_in(rt, path)?;
        }
        Ok(files)
    }

    // Has a log written too, where a path is named.
    fn add_log(&mut self, rt: R, path: &Option<Bytes>, form: LogForm) -> Result<(), Refusal> {
        let Some(path) = path else {
            return Ok(());
        };
        let opened = match path_text(path) {
            Some(text) => LogFile::open(rt, text, form, start(&rt)).ok(),
            None => None,
        };
        let Some(log) = opened else {
            return Err(unwritable(self.alloc, path.as_slice()));
        };
        match self.logs.push(log) {
            Ok(()) => Ok(()),
            Err(failed) => {
                drop(failed);
                Err(Refusal::OutOfMemory)
            }
        }
    }

    // Has counts written too.
    fn tell_in(&mut self, rt: R, path: &Bytes) -> Result<(), Refusal> {
        let made = match path_text(path) {
            Some(text) => MetricsFile::new(rt, text).ok(),
            None => None,
        };
        match made {
            Some(metrics) => {
                self.metrics = Some(metrics);
                Ok(())
            }
            None => Err(unwritable(self.alloc, path.as_slice())),
        }
    }

    // What is counted of a server with these options, where that is told.
    fn first_counts(&self, options: &Options) -> Result<Option<Mutex<RunningCounts>>, AllocError> {
        let Some(metrics) = &self.metrics else {
            return Ok(None);
        };
        let counts = RunningCounts::new(self.alloc, options.copy(self.alloc)?, metrics)?;
        Ok(Some(Mutex::new(counts)))
    }

    /// Has each log go on in the file that stands at its path then.
    pub fn reopen(&self) -> Result<(), Refusal> {
        for log in &self.logs {
            if log.reopen().is_err() {
                return Err(unwritable(self.alloc, log.path().as_bytes()));
            }
        }
        Ok(())
    }

    /// Writes the counts anew.
    pub fn write_metrics(&self) -> Result<(), Refusal> {
        let Some(metrics) = &self.metrics else {
            return Ok(());
        };
        match metrics.write() {
            Ok(()) => Ok(()),
            Err(_) => Err(unwritable(self.alloc, metrics.path().as_bytes())),
        }
    }
}
