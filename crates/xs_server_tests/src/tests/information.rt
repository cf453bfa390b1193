//! What INFO reports.
use super::*;
use std::alloc::{AllocError, Global};
use std::sync::Arc;
use std::time::{Clock, Duration};
use xs_bytes::Bytes;
use xs_command::Words;
use xs_files::{CompactPolicy, CompactionState, SyncPolicy};
use xs_session::Tally;
use xs_tcp::figures::{Figures, KeeperState, SharedFigures, WorkerFigures};
use xs_tcp::information::{Information, LogSettings, Settings};
use xs_tcp::limits::resident_in;

/// The figures of a worker that serves a connection, and has served `gone` before; one of its replies was an error.
fn worker(alloc: Global, replies: u64, gone: u64) -> Result<SharedFigures, AllocError> {
    let figures = WorkerFigures::new(alloc)?;
    for _ in 0..gone {
        figures.open();
        figures.close();
    }
    figures.open();
    figures.note(Tally { replies, errors: 1 });
    Ok(figures)
}

/// A log whose snapshot 7 was read at the start.
fn log(alloc: Global) -> Result<LogSettings, AllocError> {
    let compactions = CompactionState::new();
    compactions.reads(7);
    Ok(LogSettings {
        sync: SyncPolicy::Always,
        compact: CompactPolicy::Start,
        compactions: Arc::new(alloc, compactions)?,
    })
}

/// A server whose two workers have served three connections, one of which has ended.
fn server(rt: &HostRuntime) -> Result<Information, Fail> {
    let alloc = rt.alloc();
    let mut workers = Vec::new(alloc);
    workers.push(worker(alloc, 5, 1)?)?;
    workers.push(worker(alloc, 6, 0)?)?;
    let figures = Figures::new(workers);
    figures.tell(KeeperState {
        bytes_held: 7000,
        blocked: 1,
    });
    let settings = Settings {
        version: "0.1.0",
        port: 6380,
        workers: 2,
        max_memory: 1_048_576,
        log: Some(log(alloc)?),
        started: rt.monotonic().unwrap_or(Duration::ZERO),
    };
    Ok(Information { settings, figures })
}

/// What it reports for sections with these names.
fn told(rt: &HostRuntime, names: &[&str]) -> Result<Bytes, Fail> {
    let alloc = rt.alloc();
    let mut words = Vec::new(alloc);
    for name in names {
        words.push(Bytes::from_slice(alloc, name.as_bytes())?)?;
    }
    Ok(server(rt)?.text(rt, alloc, &Words::of_list(words.as_slice()))?)
}

const CLIENTS: &str = "# Clients\r\nconnected_clients:2\r\nmaxclients:2\r\nblocked_clients:1\r\n";

const STATS: &str =
    "# Stats\r\ntotal_connections_received:3\r\ntotal_commands_processed:11\r\ntotal_error_replies:2\r\n";

const PERSISTENCE: &str =
    "# Persistence\r\nloading:0\r\naof_enabled:1\r\nlog_sync:always\r\naof_rewrite_in_progress:0\r\n\
    aof_last_bgrewrite_status:ok\r\nlog_compact:start\r\nlog_snapshot:7\r\n";

// The names of sections and fields, and the empty line between two, as Redis 7.0 has them.
#[test]
fn tells_of_sections(rt: HostRuntime) -> Result<(), Fail> {
    assert_eq!(rt; told(&rt, &["clients"])?.as_slice(), CLIENTS.as_bytes());
    assert_eq!(rt; told(&rt, &["STATS"])?.as_slice(), STATS.as_bytes());
    let both = told(&rt, &["stats", "clients"])?;
    assert_eq!(rt; both.len(), CLIENTS.len() + 2 + STATS.len());
    assert!(rt; both.as_slice().starts_with(CLIENTS.as_bytes()));
    assert!(rt; both.as_slice().ends_with(STATS.as_bytes()));
    assert_eq!(rt;
        told(&rt, &["stats", "cluster"])?.as_slice(),
        STATS.as_bytes()
    );
    assert_eq!(rt; told(&rt, &["cluster"])?.len(), 0);
    assert_eq!(rt;
        told(&rt, &["persistence"])?.as_slice(),
        PERSISTENCE.as_bytes()
    );
    assert_eq!(rt;
        told(&rt, &["keyspace"])?.as_slice(),
        "# Keyspace\r\n".as_bytes()
    );
    Ok(())
}

#[test]
fn tells_of_all_sections(rt: HostRuntime) -> Result<(), Fail> {
    let all = told(&rt, &[])?;
    let start = b"# Server\r\nredis_version:7.0.15\r\n";
    assert!(rt; all.as_slice().starts_with(start));
    assert!(rt; all.as_slice().ends_with(b"\r\n\r\n# Keyspace\r\n"));
    assert!(rt; told(&rt, &["all"])?.as_slice().starts_with(start));
    assert!(rt;
        told(&rt, &["memory"])?
            .as_slice()
            .starts_with(b"# Memory\r\nused_memory:7000\r\n")
    );
    assert!(rt;
        told(&rt, &["server"])?
            .as_slice()
            .ends_with(b"\r\nuptime_in_days:0\r\n")
    );
    Ok(())
}

// The text as Linux gives it: pages in total, resident, shared and so on.
#[test]
fn reads_resident_memory(rt: HostRuntime) {
    assert_eq!(rt; resident_in("1393 250 228 8 0 113 0\n"), Some(1_024_000));
    assert_eq!(rt; resident_in("1393"), None);
    assert_eq!(rt; resident_in(""), None);
}
