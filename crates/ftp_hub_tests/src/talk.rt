//! A talk in memory, over a desk by itself.

ghost use Rattle.std.specs.Prelude.{◌≡◌};

use crate::counting::{CountingDesk, Counts};
use crate::talk_values::{OnlyAnn, edge, opening, storage};
use crate::values::pooled;
use ftp_base::{Bytes, Control, MemoryEdge, MemoryStorage};
use ftp_events::Answer;
use ftp_extras::FileExtras;
use ftp_options::Options;
use ftp_shared::{Desk, JobShare, Serving, SoloDesk};
use ftp_talk::{ServeEnd, serve_control, serve_control_with};
use std::alloc::{AllocError, Global};
use std::marker::Brand;
use std::process::Abort;
use std::sync::ledger::Blank;

/// The words beside the profile's, over files in memory.
pub type FileWords = FileExtras<MemoryStorage>;

/// The talk on a connection, over a desk.
fn serve_over<D: Desk, C: Control>(
    alloc: Global,
    desk: &mut D,
    control: &mut C,
    edge: &mut MemoryEdge,
    words: Option<FileWords>,
) -> ServeEnd {
    let (first, none) = (opening(), Answer::None);
    match words {
        Some(words) => {
            let mut words = words;
            serve_control_with(
                alloc, desk, control, edge, &OnlyAnn, &mut words, first, none,
            )
        }
        None => serve_control(alloc, desk, control, edge, &OnlyAnn, first, none),
    }
}

/// What was seen of a talk: how it ended, what was submitted, and the job that started first.
#[derive(Drop)]
pub struct Talked {
    pub end: ServeEnd,
    pub counts: Counts,
    pub job: Option<JobShare>,
}

impl Talked {
    /// The path of the job that started first, empty where none did.
    pub fn path(&self, alloc: Global) -> Result<Bytes, AllocError> {
        match &self.job {
            Some(share) => Ok(share.job(alloc)?.path),
            None => Bytes::from_slice(alloc, b""),
        }
    }
}

/// The talk on a connection, over a desk of this server.
fn talk_at<L: Serving, C: Control>(
    alloc: Global,
    options: Options,
    storage: MemoryStorage,
    edge: MemoryEdge,
    control: &mut C,
    words: Option<FileWords>,
    blank: Blank,
) -> Talked
    requires name { blank.name ≡ L.name }
    requires parts { blank.parts ≡ L.parts }
    requires two { blank.parts ≡ 2 }
    requires options { options ≡ L.options }
{
    let (steps, parts) = blank.open::<L>();
    let desk = SoloDesk::new(alloc, options, storage, steps, parts, 2);
    let mut desk = CountingDesk::new(desk);
    let mut edge = edge;
    let end = serve_over(alloc, &mut desk, control, &mut edge, words);
    Talked {
        end,
        counts: desk.counts,
        job: desk.desk.take_job(),
    }
}

/// The talk on a connection.
pub fn talk<A: Abort, C: Control>(
    rt: &A,
    alloc: Global,
    control: &mut C,
    words: Option<FileWords>,
) -> Talked {
    let storage = storage(alloc).expect(rt, "a storage");
    let edge = edge(alloc).expect(rt, "an edge");
    let options = pooled(rt, alloc);
    talk_at::<Brand, C>(alloc, options, storage, edge, control, words, Blank::new(2))
}
