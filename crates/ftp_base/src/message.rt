//! Messages to the control layer.

ghost use Rattle.std.specs.Prelude.{◌≡◌, IfOk};
ghost use Rattle.ftp_base.specs.Message.{label};

use crate::bytes::Bytes;
use crate::error_kind::ErrorKind;
use crate::reply::Reply;
use crate::trace::TraceId;
use std::alloc::{AllocError, Global};

#[derive(Clone, Debug, PartialEq, Eq, Drop)]
pub enum ControlChanMsg {
    PermissionDenied,
    NotFound,
    /// A file was sent.
    SentData { path: Bytes, bytes: u64 },
    /// A file was written.
    WrittenData { path: Bytes, bytes: u64 },
    /// The data connection broke off.
    ConnectionReset,
    /// The data connection was closed behind an upload.
    DataConnectionClosedAfterStor,
    /// A listing could not be sent.
    WriteFailed,
    /// A listing was sent.
    DirectorySuccessfullyListed,
    DirectoryListFailure,
    /// The working directory has changed.
    CwdSuccess,
    DelFileSuccess { path: Bytes },
    RmDirSuccess { path: Bytes },
    RenameSuccess { old_path: Bytes, new_path: Bytes },
    DelFail,
    MkDirSuccess { path: Bytes },
    MkdirFail,
    AuthSuccess { username: Bytes, trace_id: TraceId },
    AuthFailed,
    /// The control connection is to end.
    ExitControlLoop,
    /// The control connection is to be encrypted from now on.
    SecureControlChannel,
    /// The control connection is to be plain from now on.
    PlaintextControlChannel,
    /// A reply as it is.
    CommandChannelReply(Reply),
    /// The storage refuses.
    StorageError(ErrorKind),
}

impl ControlChanMsg {
    /// The message's name in lower case.
    pub fn label(&self) -> &'static str
        ensures { result.now ≡ label self.now }
    {
        match self {
            ControlChanMsg::PermissionDenied => "permissiondenied",
            ControlChanMsg::NotFound => "notfound",
            ControlChanMsg::SentData { .. } => "sentdata",
            ControlChanMsg::WrittenData { .. } => "writtendata",
            ControlChanMsg::ConnectionReset => "connectionreset",
            ControlChanMsg::DataConnectionClosedAfterStor => "dataconnectionclosedafterstor",
            ControlChanMsg::WriteFailed => "writefailed",
            ControlChanMsg::DirectorySuccessfullyListed => "directorysuccessfullylisted",
            ControlChanMsg::DirectoryListFailure => "directorylistfailure",
            ControlChanMsg::CwdSuccess => "cwdsuccess",
            ControlChanMsg::DelFileSuccess { .. } => "delfilesuccess",
            ControlChanMsg::RmDirSuccess { .. } => "rmdirsuccess",
            ControlChanMsg::RenameSuccess { .. } => "renamesuccess",
            ControlChanMsg::DelFail => "delfail",
            ControlChanMsg::MkDirSuccess { .. } => "mkdirsuccess",
            ControlChanMsg::MkdirFail => "mkdirfail",
            ControlChanMsg::AuthSuccess { .. } => "authsuccess",
            ControlChanMsg::AuthFailed => "authfailed",
            ControlChanMsg::ExitControlLoop => "exitcontrolloop",
            ControlChanMsg::SecureControlChannel => "securecontrolchannel",
            ControlChanMsg::PlaintextControlChannel => "plaintextcontrolchannel",
            ControlChanMsg::CommandChannelReply(_) => "commandchannelreply",
            ControlChanMsg::StorageError(_) => "storageerror",
        }
    }

    /// Gives an equal message.
    pub fn copy(&self, _alloc: Global) -> Result<ControlChanMsg, AllocError>
        ensures { IfOk result (λ copy. copy ≡ self.now) }
    {
        self.clone()
    }
}
