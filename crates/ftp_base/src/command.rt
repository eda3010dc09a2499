//! Commands that move bytes over a data connection (RFC 959, section 4.1.3; RFC 3659, section 7).

ghost use Rattle.std.specs.Prelude.{◌≡◌, IfOk};
ghost use Rattle.std.specs.Option.{option_copied};
ghost use Rattle.ftp_base.specs.Command.{path_of};

use crate::bytes::Bytes;
use std::alloc::{AllocError, Global};

#[derive(Clone, Debug, PartialEq, Eq, Drop)]
pub enum DataChanCmd {
    Retr {
        path: Bytes,
    },
    Stor {
        path: Bytes,
    },
    Appe {
        path: Bytes,
    },
    List {
        options: Option<Bytes>,
        path: Option<Bytes>,
    },
    Nlst {
        path: Option<Bytes>,
    },
    Mlsd {
        path: Option<Bytes>,
    },
}

impl DataChanCmd {
    /// The path that the command names.
    pub fn path(&self) -> Option<&Bytes>
        ensures { option_copied result ≡ path_of self.now }
    {
        match self {
            DataChanCmd::Retr { path } | DataChanCmd::Stor { path } | DataChanCmd::Appe { path } =>
                { Some(path) }
            DataChanCmd::List { path, .. }
            | DataChanCmd::Nlst { path }
            | DataChanCmd::Mlsd { path } => path.as_ref(),
        }
    }

    /// Gives an equal command.
    pub fn copy(&self, _alloc: Global) -> Result<DataChanCmd, AllocError>
        ensures { IfOk result (λ copy. copy ≡ self.now) }
    {
        self.clone()
    }
}
