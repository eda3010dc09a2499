//! A server over a depot.

use crate::doubles::new_board;
use crate::setting::{Host, Setting, Stopped, visited};
use crate::visits::ANN_ALONE;
use ftp_options::ListenerMode;
use ftp_system::{OpenGate, ServerRuntime};
use std::alloc::Global;
use std::net::{TcpListener, TcpStream};
use std::sync::atomic::Ordering;
use std::test::Fail;

/// Serves ann over a depot, and says how many storages that gave.
fn storages_given<R: ServerRuntime>(rt: &R, alloc: Global) -> Result<u64, Stopped> {
    let board = new_board(alloc)?;
    let setting = Setting::new(alloc, &board, ListenerMode::Pooled);
    let host: Host<OpenGate> = Host::OverDepot;
    visited(rt, &setting, host, &[(1, ANN_ALONE)])?;
    Ok(board.stores.load(Ordering::SeqCst))
}

#[test]
fn each_transfer_and_each_look_has_a_storage_of_its_own(rt: HostRuntime) -> Result<(), Fail> {
    let types: Option<(TcpListener, TcpStream)> = None;
    drop(types);
    // She changes her directory, stores, lists, and fetches twice.
    assert_eq!(rt; storages_given(&rt, rt.alloc())?, 5);
    Ok(())
}
