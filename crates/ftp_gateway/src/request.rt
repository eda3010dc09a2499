//! What a running gateway is asked for.

ghost use Rattle.std.specs.Prelude.{◌≡◌};
ghost use Rattle.ftp_gateway.specs.Requests.{request_text, line_request};

/// What a running gateway is asked for at its control socket.
#[derive(Clone, Copy, Debug, PartialEq, Eq)]
pub enum Request {
    Stop,
    /// Reads the file of users anew.
    Reload,
    /// Tells what it does.
    Status,
}

const REQUESTS: [Request; 3] = [Request::Stop, Request::Reload, Request::Status];

impl Request {
    /// The line that asks for it.
    pub fn text(self) -> &'static [u8]
        ensures { result.now ≡ request_text self }
    {
        match self {
            Request::Stop => b"stop\n",
            Request::Reload => b"reload\n",
            Request::Status => b"status\n",
        }
    }

    /// What a line asks for.
    ///
    /// # Proved
    ///
    /// - A line asks for what it is the text of, and for nothing else (`request_text`, `line_request` in
    ///   `ftp_gateway/specs/Requests.antt`).
    pub fn of(line: &[u8]) -> Option<Request>
        ensures { result ≡ line_request line.now }
    {
        REQUESTS
            .iter()
            .copied()
            .find(|request| request.text() == line)
    }
}
