//! The rounds that are timed.

ghost use Rattle.std.specs.Prelude.{◌≡◌, ◌*◌, ◌^◌, ◌<◌, length, codes, IfOk, IfErr, OnErr};
ghost use Rattle.ftp_base.specs.Storage.{old_bytes};
ghost use Rattle.ftp_transfer.specs.Ran.{IsDone};
ghost use Rattle.ftp_bench.specs.Moving.{total};

use crate::command::{Kind, Load};
use crate::error::BenchError;
use ftp_audit::Quota;
use ftp_base::{Bytes, DataChanCmd, MemoryLink, MemoryStorage, Storage};
use ftp_transfer::{Completion, Job, Outcome, Ticket, execute};
use std::alloc::{AllocError, Global};

/// How many bytes a link moves in a call, and a plain copy in a piece.
const CHUNK: u32 = 65_536;

/// Moves a load, and says how many bytes moved in all.
///
/// # Proved
///
/// - A load that gives a number has moved that many bytes: its rounds times its mebibytes; each round the file for
///   RETR, and the bytes for STOR, with or without budgets, and a copy (`moved`; also `retrieve_all`, `store_all`,
///   `copy_all`: `moved`; `retrieve`, `store`, `copy`: `whole`).
pub fn move_bytes(alloc: Global, load: Load) -> Result<u64, BenchError>
    ensures moved { IfOk result (λ n. n ≡ total load) }
{
    let mut bytes = Vec::new(alloc);
    bytes.resize(load.mebibytes as usize * 1_048_576, b'a')?;
    let bytes = bytes.as_slice();
    match load.kind {
        Kind::Retr => retrieve_all(alloc, bytes, load.rounds),
        Kind::Stor => store_all(alloc, &mut no_files(alloc), bytes, load.rounds),
        Kind::Quota => {
            let mut quota = Quota::new(alloc, no_files(alloc), u64::MAX);
            store_all(alloc, &mut quota, bytes, load.rounds)
        }
        Kind::Copy => copy_all(alloc, bytes, load.rounds),
    }
}

/// A storage without a file, in which files of any length have room.
fn no_files(alloc: Global) -> MemoryStorage {
    MemoryStorage::new(alloc, u64::MAX, Vec::new(alloc))
}

/// A storage in which a download finds the bytes.
fn storage_with(alloc: Global, bytes: &[u8]) -> Result<MemoryStorage, BenchError>
    ensures found { IfOk result (λ storage. old_bytes storage.files (codes "/a") ≡ bytes.now) }
{
    let mut storage = no_files(alloc);
    let file = Vec::from_slice(alloc, bytes)?;
    storage.put_file(Bytes::from_slice(alloc, b"/a")?, file)?;
    Ok(storage)
}

/// Sends the bytes so often, and says how many moved in all.
fn retrieve_all(alloc: Global, bytes: &[u8], rounds: u16) -> Result<u64, BenchError>
    requires in_range { length bytes.now < 2 ^ 48 }
    ensures moved { IfOk result (λ n. n ≡ rounds * length bytes.now) }
{
    let mut storage = storage_with(alloc, bytes)?;
    let mut moved: u64 = 0;
    for _done in 0..rounds {
        moved += retrieve(alloc, &mut storage)?;
    }
    Ok(moved)
}

/// Stores the bytes so often, and says how many moved in all.
fn store_all<S: Storage>(
    alloc: Global,
    storage: &mut S,
    bytes: &[u8],
    rounds: u16,
) -> Result<u64, BenchError>
    requires in_range { length bytes.now < 2 ^ 48 }
    ensures moved { IfOk result (λ n. n ≡ rounds * length bytes.now) }
{
    let mut moved: u64 = 0;
    for _done in 0..rounds {
        moved += store(alloc, storage, bytes)?;
    }
    Ok(moved)
}

/// Copies the bytes so often, and says how many moved in all.
fn copy_all(alloc: Global, bytes: &[u8], rounds: u16) -> Result<u64, BenchError>
    requires in_range { length bytes.now < 2 ^ 48 }
    ensures moved { IfOk result (λ n. n ≡ rounds * length bytes.now) }
{
    let mut moved: u64 = 0;
    for _done in 0..rounds {
        moved += copy(alloc, bytes)?;
    }
    Ok(moved)
}

/// Sends the file.
fn retrieve(alloc: Global, storage: &mut MemoryStorage) -> Result<u64, BenchError>
    ensures whole { IfOk result (λ n. n ≡ length (old_bytes storage.old.files (codes "/a"))) }
    ensures kept { storage.new.files ≡ storage.old.files }
{
    let path = Bytes::from_slice(alloc, b"/a")?;
    let job = job(alloc, DataChanCmd::Retr { path })?;
    let mut link = MemoryLink::new(alloc, Vec::new(alloc), CHUNK, Vec::new(alloc));
    moved(execute(alloc, job, storage, &mut link))
}

/// Stores the bytes.
fn store<S: Storage>(alloc: Global, storage: &mut S, bytes: &[u8]) -> Result<u64, BenchError>
    ensures whole { IfOk result (λ n. n ≡ length bytes.now) }
{
    let path = Bytes::from_slice(alloc, b"/a")?;
    let job = job(alloc, DataChanCmd::Stor { path })?;
    let bytes = Vec::from_slice(alloc, bytes)?;
    let mut link = MemoryLink::new(alloc, bytes, CHUNK, Vec::new(alloc));
    moved(execute(alloc, job, storage, &mut link))
}

/// A job on the file, from its front.
fn job(alloc: Global, command: DataChanCmd) -> Result<Job, AllocError>
    ensures command { IfOk result (λ job. job.command ≡ command) }
    ensures path { IfOk result (λ job. job.path ≡ codes "/a") }
    ensures front { IfOk result (λ job. job.offset ≡ 0) }
    ensures begun { IfOk result (λ job. job.done ≡ 0) }
{
    Ok(Job {
        ticket: Ticket { session: 1, nr: 1 },
        user: Bytes::from_slice(alloc, b"ann")?,
        command,
        path: Bytes::from_slice(alloc, b"/a")?,
        offset: 0,
        number: 1,
        done: 0,
    })
}

/// How many bytes a transfer moved, where it went well.
///
/// # Proved
///
/// - A transfer that stopped is an error, and one that is done is none (`moved`, `stopped`, `not_done`).
fn moved(outcome: Outcome) -> Result<u64, BenchError>
    ensures moved { IfOk result (λ n. (n ≡ outcome.bytes) × IsDone outcome.result) }
    ensures stopped { IfErr result (λ e. e ≡ BenchError.Transfer outcome.result) }
    ensures not_done { OnErr result (IsDone outcome.result → ⊥) }
{
    match outcome.result {
        Completion::Sent | Completion::Written | Completion::Listed => Ok(outcome.bytes),
        stopped => Err(BenchError::Transfer(stopped)),
    }
}

/// Copies bytes chunk by chunk behind one another.
fn copy(alloc: Global, bytes: &[u8]) -> Result<u64, AllocError>
    ensures whole { IfOk result (λ n. n ≡ length bytes.now) }
{
    let mut copied = Vec::new(alloc);
    for chunk in bytes.chunks(CHUNK as usize) {
        copied.extend_from_slice(chunk)?;
    }
    Ok(copied.len() as u64)
}
