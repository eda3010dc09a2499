//! A transfer over memory, with what stands before it and what it leaves.

use ftp_base::{
    Bytes, DataChanCmd, Link, LinkFault, MemoryLink, MemoryStorage, Meta, Storage, StoreError,
};
use ftp_transfer::{Job, Outcome, PieceResult, Ticket, execute, execute_piece};
use std::alloc::{AllocError, Global};

/// The words of the commands.
#[derive(Clone, Copy)]
pub enum Word {
    Retr,
    Stor,
    Appe,
    List,
    Nlst,
    Mlsd,
}

impl Word {
    fn command(self, path: Bytes) -> DataChanCmd {
        match self {
            Word::Retr => DataChanCmd::Retr { path },
            Word::Stor => DataChanCmd::Stor { path },
            Word::Appe => DataChanCmd::Appe { path },
            Word::List => DataChanCmd::List {
                options: None,
                path: Some(path),
            },
            Word::Nlst => DataChanCmd::Nlst { path: Some(path) },
            Word::Mlsd => DataChanCmd::Mlsd { path: Some(path) },
        }
    }
}

/// A transfer over a link that gives bytes.
#[derive(Clone, Copy)]
pub struct Trial<'a> {
    pub word: Word,
    pub path: &'a [u8],
    pub offset: u64,
    /// What the link gives.
    pub input: &'a [u8],
    pub fails: Option<Fails>,
}

/// How many bytes a link moves in a call, which call fails, and how.
pub type Fails = (u32, u64, LinkFault);

/// Sends `/a` from the front. No call fails.
pub const RETR: Trial<'static> = Trial {
    word: Word::Retr,
    path: b"/a",
    offset: 0,
    input: b"",
    fails: None,
};

/// How a transfer ended, what its link was sent, and what file then stands at its path.
#[derive(Drop)]
pub struct Left {
    pub outcome: Option<Outcome>,
    pub sent: Vec<u8>,
    pub file: Option<Vec<u8>>,
}

impl<'a> Trial<'a> {
    fn job(&self, alloc: Global) -> Result<Job, AllocError> {
        Ok(Job {
            ticket: Ticket { session: 1, nr: 1 },
            user: Bytes::from_slice(alloc, b"ann")?,
            command: self.word.command(Bytes::from_slice(alloc, self.path)?),
            path: Bytes::from_slice(alloc, self.path)?,
            offset: self.offset,
            number: 11,
            done: 0,
        })
    }

    fn link(&self, alloc: Global) -> Result<MemoryLink, AllocError> {
        let input = self.input.to_vec(alloc)?;
        match self.fails {
            None => Ok(MemoryLink::new(alloc, input, 65536, Vec::new(alloc))),
            Some((chunk, call, fault)) => {
                let fails = [(call, fault)].to_vec(alloc)?;
                Ok(MemoryLink::new(alloc, input, chunk.max(1), fails))
            }
        }
    }

    /// Runs the transfer over a link, and says how it ended.
    pub fn outcome<L: Link>(
        &self,
        alloc: Global,
        storage: &mut MemoryStorage,
        link: &mut L,
    ) -> Result<Outcome, AllocError> {
        let job = self.job(alloc)?;
        Ok(execute(alloc, job, storage, link))
    }

    /// Runs the transfer a piece after another, says how it ended, and how many bytes each piece moved that was not the last.
    fn pieces(
        &self,
        alloc: Global,
        storage: &mut MemoryStorage,
        link: &mut MemoryLink,
    ) -> Result<(Option<Outcome>, Vec<u64>), AllocError> {
        let mut job = self.job(alloc)?;
        let mut pieces = Vec::new(alloc);
        for _ in 0..u64::MAX {
            match execute_piece(alloc, &mut job, storage, link) {
                PieceResult::More { bytes } => pieces.push(bytes)?,
                PieceResult::Ended(outcome) => return Ok((Some(outcome), pieces)),
            }
        }
        Ok((None, pieces))
    }

    /// What a transfer that ended so left.
    fn left(
        &self,
        alloc: Global,
        storage: &mut MemoryStorage,
        link: &MemoryLink,
        outcome: Option<Outcome>,
    ) -> Result<Left, StoreError> {
        let sent = link.sent().to_vec(alloc)?;
        let file = file_in(storage, self.path, alloc)?;
        Ok(Left {
            outcome,
            sent,
            file,
        })
    }

    /// Runs the transfer a piece after another, and says how many bytes each piece moved that was not the last.
    pub fn run_in_pieces(
        &self,
        storage: &mut MemoryStorage,
        alloc: Global,
    ) -> Result<(Left, Vec<u64>), StoreError> {
        let mut link = self.link(alloc)?;
        let (outcome, pieces) = self.pieces(alloc, storage, &mut link)?;
        let left = self.left(alloc, storage, &link, outcome)?;
        Ok((left, pieces))
    }

    /// Runs the transfer.
    pub fn run(&self, storage: &mut MemoryStorage, alloc: Global) -> Result<Left, StoreError> {
        let mut link = self.link(alloc)?;
        let outcome = self.outcome(alloc, storage, &mut link)?;
        self.left(alloc, storage, &link, Some(outcome))
    }
}

/// The bytes of the file at a path, where there is one.
fn file_in(
    storage: &mut MemoryStorage,
    path: &[u8],
    alloc: Global,
) -> Result<Option<Vec<u8>>, StoreError> {
    let ann = Bytes::from_slice(alloc, b"ann")?;
    let path = Bytes::from_slice(alloc, path)?;
    match storage.metadata(&ann, &path) {
        Ok(Meta { is_dir: false, len }) => {
            let mut bytes = vec![in alloc; 0; len as usize]?;
            storage.read_at(&ann, &path, 0, bytes.as_mut_slice())?;
            Ok(Some(bytes))
        }
        _ => Ok(None),
    }
}
