//! The counts of a server in the text format of Prometheus.

ghost use Rattle.std.specs.Prelude.{◌≡◌, ◌++◌, List, OnOk};
ghost use Rattle.ftp_options.specs.declared.options.Options.{Options};
ghost use Rattle.ftp_events.specs.declared.counters.Counters.{Counters};
ghost use Rattle.ftp_events.specs.declared.entry.Entry.{Entry};
ghost use Rattle.ftp_events.specs.Counts.{CountsOf};
ghost use Rattle.ftp_events.specs.Statuses.{word_of};
ghost use Rattle.ftp_audit.specs.Metrics.{bytes_text, label_text, label_value, logins_text, metric_head, metric_label, metric_name, metrics_of, metrics_text, number_in, plain_metric, sample_text, samples_of, samples_text, transfers_text};

use crate::form::word_text;
use crate::line::LineWord;
use ftp_base::{Bytes, DataChanCmd};
use ftp_events::{CommandWord, Counters, Status7};
use ftp_text::writing::{put, put_byte, put_number};
use std::alloc::{AllocError, Global};

// What is counted of the transfers by a command.
#[derive(Clone, Copy)]
enum Count {
    Sent,
    Received,
    Ended(Status7),
}

const SENDERS: [CommandWord; 4] = [
    CommandWord::Retr,
    CommandWord::List,
    CommandWord::Nlst,
    CommandWord::Mlsd,
];

const RECEIVERS: [CommandWord; 2] = [CommandWord::Stor, CommandWord::Appe];

const MOVERS: [CommandWord; 6] = [
    CommandWord::Retr,
    CommandWord::Stor,
    CommandWord::Appe,
    CommandWord::List,
    CommandWord::Nlst,
    CommandWord::Mlsd,
];

const ENDED: [Count; 7] = [
    Count::Ended(Status7::Success),
    Count::Ended(Status7::ClientError),
    Count::Ended(Status7::ServerError),
    Count::Ended(Status7::PermissionError),
    Count::Ended(Status7::ClientInterrupted),
    Count::Ended(Status7::NetworkError),
    Count::Ended(Status7::UnknownError),
];

/// Writes the counters, and how many logins were locked out, in the text format of Prometheus.
///
/// # Proved
///
/// - The numbers are those of the counters, and so those that the entries of a log tell, if the counters are its counts
///   (`CountsOf` in `ftp_events/specs/Counts.antt`) (`written`, `counted`).
pub fn put_metrics(
    out: &mut Vec<u8>,
    alloc: Global,
    counters: &Counters,
    locked: u64,
) -> Result<(), AllocError>
    ensures written { OnOk result (out.new.items ≡ out.old.items ++ metrics_text counters.now locked) }
    ensures counted { OnOk result ((o : Options) (past : List Entry) → CountsOf o past counters.now → out.new.items ≡ out.old.items ++ metrics_of o past locked) }
{
    put_metrics_of(out, alloc, counters, locked)
}

// The text of the counters.
fn put_metrics_of(
    out: &mut Vec<u8>,
    alloc: Global,
    counters: &Counters,
    locked: u64,
) -> Result<(), AllocError>
    ensures { OnOk result (out.new.items ≡ out.old.items ++ metrics_text counters.now locked) }
{
    let help = b"Sessions that are live.";
    put_plain(out, b"ftp_sessions", b"gauge", help, counters.session())?;
    let help = b"Sessions that were opened.";
    put_plain(
        out,
        b"ftp_sessions_total",
        b"counter",
        help,
        counters.sessions_count(),
    )?;
    put_bytes(out, alloc, counters)?;
    put_transfers(out, alloc, counters)?;
    put_logins(out, counters.auth_failures(), locked)
}

// The bytes that transfers have moved.
#[tactic(auto, unfolding(crate::specs::Metrics::bytes_text))]
fn put_bytes(out: &mut Vec<u8>, alloc: Global, counters: &Counters) -> Result<(), AllocError>
    ensures { OnOk result (out.new.items ≡ out.old.items ++ bytes_text (number_in counters.now)) }
{
    let help = b"Bytes that transfers have moved.";
    put_head(out, b"ftp_bytes_total", b"counter", help)?;
    put_samples(out, alloc, counters, &SENDERS, &[Count::Sent])?;
    put_samples(out, alloc, counters, &RECEIVERS, &[Count::Received])
}

// The transfers that have ended.
fn put_transfers(out: &mut Vec<u8>, alloc: Global, counters: &Counters) -> Result<(), AllocError>
    ensures { OnOk result (out.new.items ≡ out.old.items ++ transfers_text (number_in counters.now)) }
{
    let help = b"Transfers that have ended.";
    put_head(out, b"ftp_transfers_total", b"counter", help)?;
    put_samples(out, alloc, counters, &MOVERS, &ENDED)
}

// The logins that failed, and those that were locked out.
#[tactic(auto, unfolding(crate::specs::Metrics::logins_text))]
fn put_logins(out: &mut Vec<u8>, failures: u64, locked: u64) -> Result<(), AllocError>
    ensures { OnOk result (out.new.items ≡ out.old.items ++ logins_text failures locked) }
{
    let help = b"Logins that failed.";
    put_plain(out, b"ftp_auth_failures_total", b"counter", help, failures)?;
    let help = b"Logins that were locked out.";
    put_plain(out, b"ftp_locked_logins_total", b"counter", help, locked)
}

// The lines that say what a metric is.
#[tactic(auto, unfolding(crate::specs::Metrics::metric_head))]
fn put_head(out: &mut Vec<u8>, name: &[u8], kind: &[u8], help: &[u8]) -> Result<(), AllocError>
    ensures { OnOk result (out.new.items ≡ out.old.items ++ metric_head name.now kind.now help.now) }
{
    put(out, b"# HELP ")?;
    put(out, name)?;
    put_byte(out, b' ')?;
    put(out, help)?;
    put(out, b"\n# TYPE ")?;
    put(out, name)?;
    put_byte(out, b' ')?;
    put(out, kind)?;
    put_byte(out, b'\n')
}

// A metric without labels.
#[tactic(auto, unfolding(crate::specs::Metrics::plain_metric))]
fn put_plain(
    out: &mut Vec<u8>,
    name: &[u8],
    kind: &[u8],
    help: &[u8],
    n: u64,
) -> Result<(), AllocError>
    ensures { OnOk result (out.new.items ≡ out.old.items ++ plain_metric name.now kind.now help.now n) }
{
    put_head(out, name, kind, help)?;
    put(out, name)?;
    put_number(out, n)?;
    put_byte(out, b'\n')
}

// A command with this word.
fn command_of(alloc: Global, word: CommandWord) -> DataChanCmd
    ensures { word_of result ≡ word }
{
    match word {
        CommandWord::Retr => DataChanCmd::Retr {
            path: Bytes::from_vec(Vec::new(alloc)),
        },
        CommandWord::Stor => DataChanCmd::Stor {
            path: Bytes::from_vec(Vec::new(alloc)),
        },
        CommandWord::Appe => DataChanCmd::Appe {
            path: Bytes::from_vec(Vec::new(alloc)),
        },
        CommandWord::List => DataChanCmd::List {
            options: None,
            path: None,
        },
        CommandWord::Nlst => DataChanCmd::Nlst { path: None },
        CommandWord::Mlsd => DataChanCmd::Mlsd { path: None },
    }
}

// A label with its value.
#[tactic(auto, unfolding(crate::specs::Metrics::label_text))]
fn put_label(out: &mut Vec<u8>, name: &[u8], value: &[u8]) -> Result<(), AllocError>
    ensures { OnOk result (out.new.items ≡ out.old.items ++ label_text name.now value.now) }
{
    put(out, name)?;
    put(out, b"=\"")?;
    put(out, value)?;
    put_byte(out, b'"')
}

fn metric_name(count: Count) -> &'static [u8]
    ensures { result.now ≡ metric_name count }
{
    match count {
        Count::Ended(_) => b"ftp_transfers_total",
        _ => b"ftp_bytes_total",
    }
}

fn metric_label(count: Count) -> &'static [u8]
    ensures { result.now ≡ metric_label count }
{
    match count {
        Count::Ended(_) => b"result",
        _ => b"direction",
    }
}

fn label_value(count: Count) -> &'static [u8]
    ensures { result.now ≡ label_value count }
{
    match count {
        Count::Sent => b"sent",
        Count::Received => b"received",
        Count::Ended(Status7::Success) => b"success",
        Count::Ended(Status7::ClientError) => b"client_error",
        Count::Ended(Status7::ServerError) => b"server_error",
        Count::Ended(Status7::PermissionError) => b"permission_error",
        Count::Ended(Status7::ClientInterrupted) => b"client_interrupted",
        Count::Ended(Status7::NetworkError) => b"network_error",
        Count::Ended(Status7::UnknownError) => b"unknown_error",
    }
}

// The number that the counters have for a command.
fn number_in(alloc: Global, counters: &Counters, word: CommandWord, count: Count) -> u64
    ensures { result ≡ number_in counters.now word count }
{
    let command = command_of(alloc, word);
    match count {
        Count::Sent => counters.sent_bytes(&command),
        Count::Received => counters.received_bytes(&command),
        Count::Ended(status) => counters.transferred(&command, status),
    }
}

// The line of a command for a count.
#[tactic(auto, unfolding(crate::specs::Metrics::sample_text))]
fn put_sample(
    out: &mut Vec<u8>,
    alloc: Global,
    counters: &Counters,
    word: CommandWord,
    count: Count,
) -> Result<(), AllocError>
    ensures { OnOk result (out.new.items ≡ out.old.items ++ sample_text (number_in counters.now) word count) }
{
    put(out, metric_name(count))?;
    put_byte(out, b'{')?;
    put_label(out, b"command", word_text(LineWord::Transfer(Some(word))))?;
    put_byte(out, b',')?;
    put_label(out, metric_label(count), label_value(count))?;
    put_byte(out, b'}')?;
    put_number(out, number_in(alloc, counters, word, count))?;
    put_byte(out, b'\n')
}

// The lines of a command for each of these counts.
#[tactic(auto, unfolding(crate::specs::Metrics::samples_of))]
fn put_samples_of(
    out: &mut Vec<u8>,
    alloc: Global,
    counters: &Counters,
    word: CommandWord,
    counts: &[Count],
) -> Result<(), AllocError>
    ensures { OnOk result (out.new.items ≡ out.old.items ++ samples_of (number_in counters.now) counts.now word) }
{
    for count in counts {
        put_sample(out, alloc, counters, word, *count)?;
    }
    Ok(())
}

// The lines of each of these commands for each of these counts.
#[tactic(auto, unfolding(crate::specs::Metrics::samples_text))]
fn put_samples(
    out: &mut Vec<u8>,
    alloc: Global,
    counters: &Counters,
    words: &[CommandWord],
    counts: &[Count],
) -> Result<(), AllocError>
    ensures { OnOk result (out.new.items ≡ out.old.items ++ samples_text (number_in counters.now) words.now counts.now) }
{
    for word in words {
        put_samples_of(out, alloc, counters, *word, counts)?;
    }
    Ok(())
}
