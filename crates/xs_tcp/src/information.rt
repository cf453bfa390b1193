//! The text of INFO. (Redis, INFO.)
use crate::figures::{Figures, Sums};
use crate::limits::resident_bytes;
use std::alloc::{Alloc, AllocError, Global};
use std::fs::Files;
use std::sync::Arc;
use std::time::{Clock, Duration};
use xs_bytes::Bytes;
use xs_command::{Word, Words};
use xs_files::{CompactPolicy, CompactionState, SyncPolicy};
use xs_session::names_keyspace;

/// A section of INFO.
#[derive(Clone, Copy, Debug, PartialEq, Eq)]
pub enum Section {
    Server,
    Clients,
    Memory,
    Persistence,
    Stats,
    Replication,
    Keyspace,
}

/// All sections, in their order.
const SECTIONS: [Section; 7] = [
    Section::Server,
    Section::Clients,
    Section::Memory,
    Section::Persistence,
    Section::Stats,
    Section::Replication,
    Section::Keyspace,
];

/// The most names of sections that are looked at.
const MOST_NAMES: usize = 16;

/// The settings of a log.
#[derive(Drop)]
pub struct LogSettings {
    /// When it is synced.
    pub sync: SyncPolicy,
    /// When the server compacts its folder.
    pub compact: CompactPolicy,
    /// The state of the compactions.
    pub compactions: Arc<CompactionState>,
}

/// The settings of a server.
#[derive(Drop)]
pub struct Settings {
    /// The version of the program.
    pub version: &'static str,
    pub port: u16,
    pub workers: u64,
    /// The most bytes that the queues may have; 0 if there is no bound.
    pub max_memory: u64,
    /// The log, if there is one.
    pub log: Option<LogSettings>,
    /// The moment at which it began, by the monotonic clock.
    pub started: Duration,
}

/// What INFO reports about a server.
#[derive(Drop)]
pub struct Information {
    pub settings: Settings,
    pub figures: Figures,
}

/// Whether a word names a section, or all of them.
fn names(word: &Word<'_>, section: Section) -> bool {
    let name: &[u8] = match section {
        Section::Server => b"server",
        Section::Clients => b"clients",
        Section::Memory => b"memory",
        Section::Persistence => b"persistence",
        Section::Stats => b"stats",
        Section::Replication => b"replication",
        Section::Keyspace => b"keyspace",
    };
    word.is(name) || word.is(b"default") || word.is(b"all") || word.is(b"everything")
}

/// Whether a section is asked for: all are if none is named.
fn is_asked(section: Section, named: &Words<'_>) -> bool {
    if section == Section::Keyspace {
        return names_keyspace(named);
    }
    let mut words = named.again();
    for count in 0..MOST_NAMES {
        let Ok((word, behind)) = words.word() else {
            return count == 0;
        };
        if names(&word, section) {
            return true;
        }
        words = behind;
    }
    false
}

/// The name of a policy of syncs.
fn sync_name(policy: SyncPolicy) -> &'static str {
    match policy {
        SyncPolicy::Always => "always",
        SyncPolicy::EachSecond => "second",
        SyncPolicy::Never => "no",
    }
}

/// The name of a policy of compactions.
fn compact_name(policy: CompactPolicy) -> &'static str {
    match policy {
        CompactPolicy::Serving => "serving",
        CompactPolicy::Start => "start",
        CompactPolicy::Never => "never",
    }
}

impl LogSettings {
    /// The section about the log.
    fn persistence(&self, alloc: Global) -> Result<String, AllocError> {
        let sync = sync_name(self.sync);
        let is_running = u8::from(self.compactions.is_running());
        let status = if self.compactions.has_failed() {
            "err"
        } else {
            "ok"
        };
        let compact = compact_name(self.compact);
        let snapshot = self.compactions.snapshot();
        format!(in alloc;
            "# Persistence\r\nloading:0\r\naof_enabled:1\r\nlog_sync:{sync}\r\n\
            aof_rewrite_in_progress:{is_running}\r\naof_last_bgrewrite_status:{status}\r\n\
            log_compact:{compact}\r\nlog_snapshot:{snapshot}\r\n"
        )
    }
}

impl Information {
    /// The section about the program.
    fn server<S: Clock>(&self, system: &S, alloc: Global) -> Result<String, AllocError> {
        let version = self.settings.version;
        let port = self.settings.port;
        let now = system.monotonic().unwrap_or(self.settings.started);
        let seconds = now.saturating_sub(self.settings.started).as_secs();
        let days = seconds / 86_400;
        format!(in alloc;
            "# Server\r\nredis_version:7.0.15\r\nredis_mode:standalone\r\nxs_server_version:{version}\r\n\
            tcp_port:{port}\r\nuptime_in_seconds:{seconds}\r\nuptime_in_days:{days}\r\n"
        )
    }

    /// The section about connections.
    fn clients(&self, alloc: Global, sums: Sums) -> Result<String, AllocError> {
        let connected = sums.connected();
        let blocked = self.figures.blocked();
        let workers = self.settings.workers;
        format!(in alloc;
            "# Clients\r\nconnected_clients:{connected}\r\nmaxclients:{workers}\r\nblocked_clients:{blocked}\r\n"
        )
    }

    /// The section about memory.
    fn memory<S: Files + Alloc<A = Global>>(
        &self,
        system: &S,
        alloc: Global,
    ) -> Result<String, AllocError> {
        let held = self.figures.bytes_held();
        let resident = resident_bytes(system).unwrap_or(0);
        let bound = self.settings.max_memory;
        format!(in alloc;
            "# Memory\r\nused_memory:{held}\r\nused_memory_rss:{resident}\r\nmaxmemory:{bound}\r\n\
            maxmemory_policy:noeviction\r\n"
        )
    }

    /// The section about the log, if there is one.
    fn persistence(&self, alloc: Global) -> Result<String, AllocError> {
        match &self.settings.log {
            Some(log) => log.persistence(alloc),
            None => format!(in alloc;
                "# Persistence\r\nloading:0\r\naof_enabled:0\r\nlog_sync:none\r\n\
                aof_rewrite_in_progress:0\r\naof_last_bgrewrite_status:ok\r\n\
                log_compact:none\r\nlog_snapshot:0\r\n"
            ),
        }
    }

    /// The section about what was served.
    fn stats(&self, alloc: Global, sums: Sums) -> Result<String, AllocError> {
        let opened = sums.opened;
        let replies = sums.replies;
        let errors = sums.errors;
        format!(in alloc;
            "# Stats\r\ntotal_connections_received:{opened}\r\ntotal_commands_processed:{replies}\r\n\
            total_error_replies:{errors}\r\n"
        )
    }

    /// The text of a section.
    fn section<S: Clock + Files + Alloc<A = Global>>(
        &self,
        system: &S,
        alloc: Global,
        section: Section,
    ) -> Result<String, AllocError> {
        match section {
            Section::Server => self.server(system, alloc),
            Section::Clients => self.clients(alloc, self.figures.sums()),
            Section::Memory => self.memory(system, alloc),
            Section::Persistence => self.persistence(alloc),
            Section::Stats => self.stats(alloc, self.figures.sums()),
            Section::Replication => {
                format!(in alloc; "# Replication\r\nrole:master\r\nconnected_slaves:0\r\n")
            }
            Section::Keyspace => format!(in alloc; "# Keyspace\r\n"),
        }
    }

    /// The sections that these words name, all if there are none, with an empty line between two. The last one is that
    /// of the keyspace, whose line is added later.
    pub fn text<S: Clock + Files + Alloc<A = Global>>(
        &self,
        system: &S,
        alloc: Global,
        named: &Words<'_>,
    ) -> Result<Bytes, AllocError> {
        let mut text = Vec::new(alloc);
        for section in SECTIONS {
            if !is_asked(section, named) {
                continue;
            }
            if !text.is_empty() {
                text.extend_from_slice(b"\r\n")?;
            }
            text.extend_from_slice(self.section(system, alloc, section)?.as_bytes())?;
        }
        Ok(Bytes::new(text))
    }
}
