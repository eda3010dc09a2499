//! Replies on the control connection (RFC 959, section 4.2).

ghost use Rattle.std.specs.Prelude.{◌≡◌, IfOk};
ghost use Rattle.ftp_base.specs.Reply.{code_text, encoding};

use crate::bytes::Bytes;
use crate::reply_text::ReplyText;
use std::alloc::{AllocError, Global};

/// The three digits of a reply, by their meaning.
#[derive(Clone, Copy, Debug, PartialEq, Eq)]
pub enum ReplyCode {
    /// 150
    FileStatusOkay,
    /// 200
    CommandOkay,
    /// 220
    ServiceReady,
    /// 221
    ClosingControlConnection,
    /// 226
    ClosingDataConnection,
    /// 227
    EnteringPassiveMode,
    /// 230
    UserLoggedIn,
    /// 250
    FileActionOkay,
    /// 257
    DirCreated,
    /// 331
    NeedPassword,
    /// 350
    FileActionPending,
    /// 425
    CantOpenDataConnection,
    /// 426
    ConnectionClosed,
    /// 450
    TransientFileError,
    /// 451
    LocalError,
    /// 452
    OutOfSpace,
    /// 500
    CommandSyntaxError,
    /// 501
    ParameterSyntaxError,
    /// 502
    CommandNotImplemented,
    /// 503
    BadCommandSequence,
    /// 530
    NotLoggedIn,
    /// 550
    FileError,
    /// 551
    PageTypeUnknown,
    /// 552
    ExceededStorageAllocation,
    /// 553
    BadFileName,
}

impl ReplyCode {
    /// The three digits.
    pub fn digits(self) -> &'static [u8]
        ensures { result.now ≡ code_text self }
    {
        match self {
            ReplyCode::FileStatusOkay => b"150",
            ReplyCode::CommandOkay => b"200",
            ReplyCode::ServiceReady => b"220",
            ReplyCode::ClosingControlConnection => b"221",
            ReplyCode::ClosingDataConnection => b"226",
            ReplyCode::EnteringPassiveMode => b"227",
            ReplyCode::UserLoggedIn => b"230",
            ReplyCode::FileActionOkay => b"250",
            ReplyCode::DirCreated => b"257",
            ReplyCode::NeedPassword => b"331",
            ReplyCode::FileActionPending => b"350",
            ReplyCode::CantOpenDataConnection => b"425",
            ReplyCode::ConnectionClosed => b"426",
            ReplyCode::TransientFileError => b"450",
            ReplyCode::LocalError => b"451",
            ReplyCode::OutOfSpace => b"452",
            ReplyCode::CommandSyntaxError => b"500",
            ReplyCode::ParameterSyntaxError => b"501",
            ReplyCode::CommandNotImplemented => b"502",
            ReplyCode::BadCommandSequence => b"503",
            ReplyCode::NotLoggedIn => b"530",
            ReplyCode::FileError => b"550",
            ReplyCode::PageTypeUnknown => b"551",
            ReplyCode::ExceededStorageAllocation => b"552",
            ReplyCode::BadFileName => b"553",
        }
    }
}

#[derive(Clone, Debug, PartialEq, Eq, Drop)]
pub enum Reply {
    /// Nothing is said.
    None,
    CodeAndMsg { code: ReplyCode, msg: ReplyText },
}

impl Reply {
    /// The reply's line as it is sent: the digits, a space, the text, CR and LF.
    ///
    /// # Proved
    ///
    /// - The line of a reply, the text of a trace, and the name of a message (also `TraceId::text`;
    ///   `ControlChanMsg::label`).
    pub fn encode(&self, alloc: Global) -> Result<Bytes, AllocError>
        ensures { IfOk result (λ line. line ≡ encoding self.now) }
    {
        match self {
            Reply::None => Ok(Bytes::from_vec(Vec::new(alloc))),
            Reply::CodeAndMsg { code, msg } => {
                let mut line = Vec::from_slice(alloc, code.digits())?;
                line.extend_from_slice(b" ")?;
                line.extend_from_slice(msg.as_slice())?;
                line.extend_from_slice(b"\r\n")?;
                Ok(Bytes::from_vec(line))
            }
        }
    }

    /// Gives an equal reply.
    pub fn copy(&self, _alloc: Global) -> Result<Reply, AllocError>
        ensures { IfOk result (λ copy. copy ≡ self.now) }
    {
        self.clone()
    }
}
