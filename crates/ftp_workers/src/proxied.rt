//! A connection that a proxy passed on.

ghost use Rattle.std.specs.Prelude.{◌≡◌, IfSome, true, false};
ghost use Rattle.ftp_shared.specs.Outbox.{has_ticket};
ghost use Rattle.ftp_workers.specs.Proxied.{leads_to_control};
ghost use Rattle.ftp_talk.specs.Control.{is_opening};

use crate::handoff::PendingConnection;
use crate::proxy_header::answer_proxied;
use crate::runtime::WorkerRuntime;
use crate::services::Services;
use crate::worker::Worker;
use ftp_base::Edge;
use ftp_events::{Answer, HubEvent};
use ftp_options::ListenerMode;
use ftp_shared::JournalHub;
use ftp_system::{
    Ahead, ControlHandle, Gathered, LIMIT, SocketControl, SocketLink, std_address, told_address,
};
use mio::net::TcpStream;
use std::net;
use std::net::{IpAddr, SocketAddr};

/// How many bytes are read at once where a header stands in front.
const HEADER_BUFFER: usize = 512;

// Says whether the header leads to the control port.
fn leads_to_control(mode: ListenerMode, answer: &Answer) -> bool
    ensures { result ≡ leads_to_control mode answer.now }
{
    match answer {
        Answer::Header(Ok(line)) => mode.is_control_port(line.destination.port),
        _ => false,
    }
}

// The client that the header names.
fn source_of(answer: &Answer) -> Option<IpAddr> {
    match answer {
        Answer::Header(Ok(line)) => Some(std_address(line.source).ip()),
        _ => None,
    }
}

impl<R: WorkerRuntime, H: JournalHub + Drop, S: Services> Worker<R, H, S> {
    // Reads the header of a connection. None where it is closed at once.
    fn read_header(
        &mut self,
        stream: net::TcpStream,
        raw: SocketAddr,
        number: u64,
    ) -> Option<(HubEvent, Answer, PendingConnection)>
        ensures opening { IfSome result (λ made. is_opening made.0.kind ≡ true) }
        ensures unticketed { IfSome result (λ made. has_ticket made.0.kind ≡ false) }
    {
        stream.set_nonblocking(true).ok()?;
        let trace = self.trace();
        let buffer = Vec::from_elem(self.alloc, 0u8, HEADER_BUFFER).ok()?;
        let link = SocketLink::new(self.rt, self.alloc, TcpStream::from_std(stream), LIMIT);
        let mut link = Gathered::new(link, buffer);
        let (event, answer) = answer_proxied(
            self.alloc,
            number,
            told_address(raw),
            trace,
            &mut link,
            &mut self.edge,
        )?;
        match self.behind_header(link) {
            Some(link) => Some((event, answer, link)),
            None => {
                drop(event);
                drop(answer);
                None
            }
        }
    }

    // A connection whose header was read, with what came behind that. None where memory ran out.
    fn behind_header(&self, link: Gathered<SocketLink<R>>) -> Option<PendingConnection> {
        let (link, _, ahead) = link.into_rest(self.alloc).ok()?;
        let stream = link.into_stream();
        Some(PendingConnection { stream, ahead })
    }

    // Reads the header of a connection, and serves its session or keeps it for a job.
    #[inline(never)]
    pub(crate) fn pass_on(&mut self, stream: net::TcpStream, raw: SocketAddr) {
        let number = self.state.hub.draw();
        let Some((event, answer, link)) = self.read_header(stream, raw, number) else {
            return;
        };
        if leads_to_control(self.state.options.mode, &answer) {
            self.enter_proxied(number, link, event, answer);
        } else {
            self.submit_connection(number, link, event, answer);
        }
    }

    // The client that the header names, unless its session is one too many, which is told so.
    fn admitted(&self, answer: &Answer, link: &mut PendingConnection) -> Option<IpAddr> {
        let client = source_of(answer)?;
        if self.state.enter(&self.rt, client, &mut link.stream) {
            Some(client)
        } else {
            None
        }
    }

    // Serves the session of a connection whose header was read, unless it is one too many.
    fn enter_proxied(
        &mut self,
        number: u64,
        link: PendingConnection,
        event: HubEvent,
        answer: Answer,
    )
        requires opening { is_opening event.kind ≡ true }
    {
        let mut link = link;
        if let Some(client) = self.admitted(&answer, &mut link) {
            self.serve_proxied(number, link, event, answer);
            self.state.exit(&self.rt, client);
        } else {
            drop(link);
            drop(event);
            drop(answer);
        }
    }

    // Serves the session of a connection whose header was read.
    #[inline(never)]
    fn serve_proxied(
        &mut self,
        number: u64,
        link: PendingConnection,
        event: HubEvent,
        answer: Answer,
    )
        requires opening { is_opening event.kind ≡ true }
    {
        if let Some((control, handle, at)) = self.proxied_control(link) {
            let _ = self.talk(control, handle, number, at, event, answer);
        } else {
            drop(event);
            drop(answer);
        }
    }

    // The control connection over one whose header was read, what wakes its loop, and its address here.
    fn proxied_control(
        &self,
        link: PendingConnection,
    ) -> Option<(Ahead<SocketControl>, ControlHandle, IpAddr)> {
        let PendingConnection { stream, ahead } = link;
        let local = stream.local_addr().ok()?;
        let control = self.control(net::TcpStream::from(stream))?;
        let Ok(handle) = control.handle() else {
            drop(control);
            return None;
        };
        let (mut control, mut ahead) = (control, ahead);
        control.keep_text(&mut ahead);
        Some((Ahead::new(control, ahead), handle, local.ip()))
    }

    // Keeps a data connection for its job, and has its event decided; it is closed where no session takes it.
    pub(crate) fn submit_connection(
        &mut self,
        number: u64,
        link: PendingConnection,
        event: HubEvent,
        answer: Answer,
    )
        requires unticketed { has_ticket event.kind ≡ false }
    {
        self.desk.submit_connection(number, link, event, answer);
    }
}
