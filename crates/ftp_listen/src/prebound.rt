//! A server whose sessions share the ports.

ghost use Rattle.std.specs.Prelude.{◌≡◌, ◌≤◌, ◌↔◌, true, Some, IfErr, IsErrOf};
ghost use Rattle.ftp_options.specs.Modes.{is_pooled, is_proxy};
ghost use Rattle.ftp_listen.specs.Causes.{WritesNone, WritesV6, is_of_listening};

use crate::parts::Parts;
use crate::server::Server;
use ftp_base::Storage;
use ftp_options::{Built, Options, ServerError};
use ftp_shared::JournalFeed;
use ftp_system::ServerRuntime;
use std::alloc::Global;
use std::sync::Arc;

/// A server that does not listen yet, and whose sessions share the ports.
#[derive(Drop)]
pub struct PreboundListener<S: Storage + Drop> {
    server: Server<S>,
}

impl<S: Storage + Send + Drop + 'static> PreboundListener<S> {
    pub fn new(alloc: Global, built: Built, parts: Parts<S>) -> PreboundListener<S>
        ensures { result.server.options ≡ built.options }
    {
        PreboundListener {
            server: Server::new(alloc, built, parts),
        }
    }

    /// A server without handlers of SITE commands.
    pub fn with_options(alloc: Global, options: Options, parts: Parts<S>) -> PreboundListener<S>
        ensures { result.server.options ≡ options }
    {
        PreboundListener {
            server: Server::with_options(alloc, options, parts),
        }
    }

    /// There are at most so many sessions at a time, as `Server::most_sessions` says it.
    pub fn most_sessions(&mut self, all: u64)
        ensures options { self.new.server.options ≡ self.old.server.options }
    {
        self.server.most_sessions(all);
    }

    /// There are at most so many sessions of one client address, as `Server::most_sessions_of_one` says it.
    pub fn most_sessions_of_one(&mut self, of_one: u64)
        ensures options { self.new.server.options ≡ self.old.server.options }
    {
        self.server.most_sessions_of_one(of_one);
    }

    /// Keeps of the journal a checkpoint and so many entries at most, as `Server::checkpoint_every` says it.
    pub fn checkpoint_every(&mut self, every: u64)
        requires some { 1 ≤ every }
        ensures every { self.new.server.every ≡ Some every }
        ensures options { self.new.server.options ≡ self.old.server.options }
    {
        self.server.checkpoint_every(every);
    }

    /// Hands each entry of the journal to a feed, as `Server::feed_journal` says it.
    pub fn feed_journal(&mut self, feed: Arc<JournalFeed, Global>)
        ensures options { self.new.server.options ≡ self.old.server.options }
    {
        self.server.feed_journal(feed);
    }

    /// Listens at an address and at each passive port there, as `Server::listen` does.
    pub fn listen_pooled<R: ServerRuntime>(
        self,
        rt: &R,
        bind_address: &[u8],
    ) -> Result<(), ServerError>
        requires pooled { is_pooled self.server.options.mode ≡ true }
        ensures address { IsErrOf result ServerError.Address ↔ WritesNone bind_address.now }
        ensures ipv6 { IsErrOf result ServerError.Ipv6OutsideLegacy ↔ WritesV6 bind_address.now }
        ensures only { IfErr result (λ e. is_of_listening e ≡ true) }
    {
        let PreboundListener { server } = self;
        server.listen(rt, bind_address)
    }

    /// Listens at an address for connections that a proxy passes on, as `Server::listen` does.
    pub fn listen_proxy_protocol<R: ServerRuntime>(
        self,
        rt: &R,
        bind_address: &[u8],
    ) -> Result<(), ServerError>
        requires proxy { is_proxy self.server.options.mode ≡ true }
        ensures address { IsErrOf result ServerError.Address ↔ WritesNone bind_address.now }
        ensures ipv6 { IsErrOf result ServerError.Ipv6OutsideLegacy ↔ WritesV6 bind_address.now }
        ensures only { IfErr result (λ e. is_of_listening e ≡ true) }
    {
        let PreboundListener { server } = self;
        server.listen(rt, bind_address)
    }
}
