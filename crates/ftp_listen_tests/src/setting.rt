//! What several tests serve, and how a client and its server meet.

use crate::client::Met;
use crate::doubles::{Asks, CountedDepot, Counting, OnlyAnn, SharedBoard, Watched, new_board};
use crate::files::AnnsFiles;
use crate::place::{PASSIVE, Place};
use crate::steps::{Phase, pay};
use ftp_base::{Bytes, Gate, MemoryStorage};
use ftp_listen::{Parts, PreboundListener, Server};
use ftp_options::{
    FailedLoginsBlock, FailedLoginsPolicy, Indicator, ListenerMode, Options, ServerBuilder,
    ServerError, Shutdown,
};
use ftp_system::{OpenGate, ServerRuntime, SharedDepot, SystemFront, SystemThreads};
use std::alloc::{AllocError, Global};
use std::net::TcpStream;
use std::sync::Arc;
use std::thread;

/// What the files hold: `/a.txt` and `/b.txt`; `/big` has so many bytes.
pub const FILE: &[u8] = b"hello";

pub const OTHER: &[u8] = b"goodbye";

const BIG: usize = 1 << 20;

/// Why a test did not come to its end.
#[derive(Debug, Drop)]
pub enum Stopped {
    Client(Met),
    Server(ServerError),
    OutOfMemory,
    /// No address could be drawn.
    NoPlace,
    /// What was built has another mode, or the file could not be stored.
    NotSet,
}

impl From<AllocError> for Stopped {
    fn from(_error: AllocError) -> Stopped {
        Stopped::OutOfMemory
    }
}

/// Options of this mode, with one passive port.
fn options(alloc: Global, mode: ListenerMode) -> Result<Options, Stopped> {
    let mut builder = ServerBuilder::new(alloc);
    match mode {
        ListenerMode::Legacy => {}
        ListenerMode::Pooled => builder.pooled_listener_mode(),
        ListenerMode::Proxy { control_port } => builder.proxy_protocol_mode(control_port),
    }
    builder.passive_ports(PASSIVE, PASSIVE);
    let block = FailedLoginsBlock::UserAndIP;
    builder.failed_logins_policy(FailedLoginsPolicy::new(3, 3_600_000, block));
    match builder.build() {
        Ok(built) => Ok(built.options),
        Err(error) => Err(Stopped::Server(error)),
    }
}

/// A storage with three files.
fn storage(alloc: Global) -> Result<AnnsFiles, Stopped> {
    let mut files = MemoryStorage::new(alloc, 1 << 20, Vec::new(alloc));
    let big = Vec::from_elem(alloc, b'x', BIG)?;
    for (path, bytes) in [
        (b"/a.txt".as_slice(), FILE.to_vec(alloc)?),
        (b"/b.txt".as_slice(), OTHER.to_vec(alloc)?),
        (b"/big".as_slice(), big),
    ] {
        let path = Bytes::from_slice(alloc, path)?;
        if files.put_file(path, bytes).is_err() {
            return Err(Stopped::NotSet);
        }
    }
    Ok(AnnsFiles::new(files))
}

/// Ann may log in, the board counts what is told and says when to shut down, and there are three files of hers.
macro_rules! parts {
    ($alloc:expr, $board:expr) => {
        parts!($alloc, $board, storage($alloc)?)
    };
    ($alloc:expr, $board:expr, $storage:expr) => {{
        let alloc = $alloc;
        let asks = Asks {
            board: Arc::try_clone($board)?,
            shutdown: Shutdown::new(),
            asked: None,
        };
        let (Ok(authenticator), Ok(data_listener), Ok(presence_listener), Ok(indicator)) = (
            Box::new(alloc, OnlyAnn),
            Box::new(alloc, Counting {
                board: Arc::try_clone($board)?,
            }),
            Box::new(alloc, Counting {
                board: Arc::try_clone($board)?,
            }),
            Box::new(alloc, asks),
        ) else {
            return Err(Stopped::OutOfMemory);
        };
        Parts {
            authenticator,
            data_listener,
            presence_listener,
            indicator,
            storage: $storage,
        }
    }};
}

/// How a server ended, where it was set up.
pub type Ended = Result<Result<(), ServerError>, Stopped>;

/// Where a server meets its clients.
#[derive(Drop)]
pub enum Door<'a> {
    /// It listens at a text.
    At(&'a str),
    /// A connection that was taken in.
    Within(TcpStream),
}

/// What is served: a mode, and a board that is watched.
#[derive(Clone, Copy)]
pub struct Setting<'a> {
    pub alloc: Global,
    pub board: &'a SharedBoard,
    pub mode: ListenerMode,
    /// At most so many sessions of one client, and then with a checkpoint after each third entry.
    pub most: Option<u64>,
}

impl<'a> Setting<'a> {
    pub fn new(alloc: Global, board: &'a SharedBoard, mode: ListenerMode) -> Setting<'a> {
        Setting {
            alloc,
            board,
            mode,
            most: None,
        }
    }

    pub fn serve<R: ServerRuntime>(&self, rt: &R, door: Door<'_>) -> Ended {
        let alloc = self.alloc;
        let options = options(alloc, self.mode)?;
        let mut server = Server::with_options(alloc, options, parts!(alloc, self.board));
        if let Some(most) = self.most {
            server.most_sessions_of_one(most);
            server.checkpoint_every(3);
        }
        match door {
            Door::At(text) => Ok(server.listen(rt, text.as_bytes())),
            Door::Within(stream) => Ok(server.service(rt, stream)),
        }
    }

    /// Serves as a server whose sessions share the ports.
    pub fn serve_prebound<R: ServerRuntime>(&self, rt: &R, text: &str) -> Ended {
        let alloc = self.alloc;
        let options = options(alloc, self.mode)?;
        let (is_pooled, is_proxy) = (options.mode.is_pooled(), options.mode.is_proxy());
        let server = PreboundListener::with_options(alloc, options, parts!(alloc, self.board));
        if is_pooled {
            Ok(server.listen_pooled(rt, text.as_bytes()))
        } else if is_proxy {
            Ok(server.listen_proxy_protocol(rt, text.as_bytes()))
        } else {
            Err(Stopped::NotSet)
        }
    }

    /// Serves over a depot that counts the storages that it gives, with a checkpoint after each entry.
    fn serve_over<R: ServerRuntime>(&self, rt: &R, text: &str) -> Ended {
        let alloc = self.alloc;
        let depot = CountedDepot {
            files: SharedDepot::new(*rt, alloc, storage(alloc)?)?,
            board: Arc::try_clone(self.board)?,
        };
        let options = options(alloc, self.mode)?;
        let mut server = Server::over(alloc, options, parts!(alloc, self.board, depot));
        server.checkpoint_every(1);
        Ok(server.listen_over(rt, text.as_bytes()))
    }

    /// Serves with this gate, and with an indicator that looks at the moments that it is given.
    fn serve_watched<R: ServerRuntime, G: Gate + Send + Sync + Drop + 'static>(
        &self,
        rt: &R,
        text: &str,
        gate: G,
        shutdown: Shutdown,
    ) -> Ended {
        let alloc = self.alloc;
        let options = options(alloc, self.mode)?;
        let server = Server::with_options(alloc, options, parts!(alloc, self.board));
        let mut front = Watched {
            front: SystemFront::new(*rt, alloc),
            board: Arc::try_clone(self.board)?,
            latest: 0,
        };
        let asks = Asks {
            board: Arc::try_clone(self.board)?,
            shutdown,
            asked: None,
        };
        let (Ok(gate), Ok(asks)) = (Arc::new(alloc, gate), Box::new(alloc, asks)) else {
            return Err(Stopped::OutOfMemory);
        };
        let mut indicator: Box<dyn Indicator + Drop> = asks;
        let mut threads = SystemThreads::new();
        Ok(server.listen_with(
            rt,
            text.as_bytes(),
            gate,
            &mut threads,
            &mut front,
            &mut indicator,
        ))
    }
}

/// What both said where both came to their ends.
fn agreed(met: Result<(), Met>, ended: Result<(), ServerError>) -> Result<(), Stopped> {
    if let Err(met) = met {
        return Err(Stopped::Client(met));
    }
    match ended {
        Ok(()) => Ok(()),
        Err(error) => Err(Stopped::Server(error)),
    }
}

/// Which server is visited.
#[derive(Drop)]
pub enum Host<G: Gate + Drop> {
    Plain,
    Prebound,
    OverDepot,
    /// It is watched, and has this gate and this shutdown.
    Watched(G, Shutdown),
}

/// Listens as this server.
fn serve_as<R: ServerRuntime, G: Gate + Send + Sync + Drop + 'static>(
    rt: &R,
    setting: &Setting<'_>,
    host: Host<G>,
    text: &str,
) -> Ended {
    match host {
        Host::Plain => setting.serve(rt, Door::At(text)),
        Host::Prebound => setting.serve_prebound(rt, text),
        Host::OverDepot => setting.serve_over(rt, text),
        Host::Watched(gate, shutdown) => setting.serve_watched(rt, text, gate, shutdown),
    }
}

/// Pays a visit to this server.
pub fn visited<R: ServerRuntime, G: Gate + Send + Sync + Drop + 'static>(
    rt: &R,
    setting: &Setting<'_>,
    host: Host<G>,
    visit: &[Phase<'_>],
) -> Result<(), Stopped> {
    let Setting {
        alloc,
        board,
        mode,
        most: _,
    } = *setting;
    let place = Place::drawn(rt, mode).ok().ok_or(Stopped::NoPlace)?;
    let text = place.text(alloc)?;
    let text = text.as_str();
    let (met, ended) = thread::join(
        rt,
        || pay(rt, alloc, place, board, visit),
        move || serve_as(rt, setting, host, text),
    );
    agreed(met, ended?)
}

/// Pays a visit to a server of this mode, on a board of its own.
pub fn served<R: ServerRuntime>(
    rt: &R,
    alloc: Global,
    mode: ListenerMode,
    most: Option<u64>,
    host: Host<OpenGate>,
    visit: &[Phase<'_>],
) -> Result<(), Stopped> {
    let board = new_board(alloc)?;
    let mut setting = Setting::new(alloc, &board, mode);
    setting.most = most;
    visited(rt, &setting, host, visit)
}
