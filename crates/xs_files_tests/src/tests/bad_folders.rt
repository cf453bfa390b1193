//! Folders that can't be opened. Nothing in them is changed.
use crate::tests::noting::{empty_folder, fault_of, note, remove_folder};
use std::fs;
use std::process::Abort;
use std::rt::Files;
use std::test::Fail;
use xs_files::FolderFault;
use xs_log::{LogFault, LogsFault};

/// The fault of a log.
fn log_fault(number: u64, fault: LogFault) -> Option<FolderFault> {
    Some(FolderFault::Log(LogsFault { number, fault }))
}

#[test]
fn a_path_is_no_folder(rt: HostRuntime) -> Result<(), Fail> {
    empty_folder(&rt, "paths")?;
    fs::write(&rt, "paths/file", b"text")?;
    rt.symlink("nothing", "paths/link")?;
    assert_eq!(rt; fault_of(&rt, "paths/file"), Some(FolderFault::NoFolder));
    assert_eq!(rt;
        fault_of(&rt, "paths/file/logs"),
        Some(FolderFault::NoParent)
    );
    assert_eq!(rt;
        fault_of(&rt, "paths/link"),
        Some(FolderFault::LinkToNothing)
    );
    assert_eq!(rt;
        fault_of(&rt, "paths/above/logs"),
        Some(FolderFault::NoParent)
    );
    remove_folder(&rt, "paths");
    Ok(())
}

#[test]
fn a_log_is_missing_or_no_file(rt: HostRuntime) -> Result<(), Fail> {
    empty_folder(&rt, "gaps")?;
    note(&rt, "gaps", "XADD s * f v")?;
    fs::rename(&rt, "gaps/log-1", "gaps/log-2")?;
    assert_eq!(rt; fault_of(&rt, "gaps"), Some(FolderFault::Missing(1)));
    fs::create_dir(&rt, "gaps/log-1")?;
    assert_eq!(rt; fault_of(&rt, "gaps"), Some(FolderFault::NoFile(1)));
    fs::remove_dir(&rt, "gaps/log-1")?;
    fs::rename(&rt, "gaps/log-2", "gaps/log-1")?;
    assert_eq!(rt; note(&rt, "gaps", "XADD s * f w")?, (1, 0));
    remove_folder(&rt, "gaps");
    Ok(())
}

/// A log with these bytes is refused, and they stay.
fn is_refused<R: Abort>(
    host: &HostRuntime,
    rt: &R,
    bytes: &[u8],
    fault: LogFault,
) -> Result<(), Fail> {
    empty_folder(host, "others")?;
    fs::write(host, "others/log-1", bytes)?;
    assert_eq!(rt; fault_of(host, "others"), log_fault(1, fault));
    let left = fs::read(host, "others/log-1")?;
    assert!(rt; left.as_slice() == bytes);
    Ok(())
}

#[test]
fn a_log_is_of_another_program(rt: HostRuntime) -> Result<(), Fail> {
    is_refused(&rt, &rt, b"x", LogFault::Damaged(0))?;
    is_refused(&rt, &rt, b"\0ELF\x01\x02", LogFault::Foreign)?;
    is_refused(&rt, &rt, b"some text\r\n", LogFault::Damaged(0))?;
    is_refused(&rt, &rt, b"*1\r\n$4\r\nPING\r\n", LogFault::Foreign)?;
    remove_folder(&rt, "others");
    Ok(())
}

#[test]
fn a_log_is_of_another_format(rt: HostRuntime) -> Result<(), Fail> {
    let first = b"*5\r\n$6\r\nxs-log\r\n$10\r\n1665449851\r\n$1\r\n1\r\n$1\r\n1\r\n$1\r\n1\r\n";
    is_refused(&rt, &rt, first, LogFault::OtherFormat)?;
    is_refused(&rt, &rt, b"*5\r\n$6\r\nxs-log\r\n", LogFault::Foreign)?;
    remove_folder(&rt, "others");
    Ok(())
}

/// The length of the last word is greater than the word, so the record looks unfinished.
#[test]
fn a_length_that_has_changed_is_damage(rt: HostRuntime) -> Result<(), Fail> {
    empty_folder(&rt, "lengths")?;
    note(&rt, "lengths", "XADD s * f v")?;
    let whole = fs::read(&rt, "lengths/log-1")?.len() as u64;
    note(&rt, "lengths", "DEL k")?;
    let mut bytes = fs::read(&rt, "lengths/log-1")?;
    let cut = bytes.len().saturating_sub(6);
    bytes.truncate(cut);
    bytes.extend_from_slice(b"9\r\nk\r\n")?;
    fs::write(&rt, "lengths/log-1", bytes.as_slice())?;
    assert_eq!(rt;
        fault_of(&rt, "lengths"),
        log_fault(1, LogFault::Damaged(whole))
    );
    let left = fs::read(&rt, "lengths/log-1")?;
    assert!(rt; left.as_slice() == bytes.as_slice());
    remove_folder(&rt, "lengths");
    Ok(())
}

#[test]
fn a_closed_log_has_no_zeros(rt: HostRuntime) -> Result<(), Fail> {
    empty_folder(&rt, "zeros")?;
    note(&rt, "zeros", "XADD s * f v")?;
    let mut bytes = fs::read(&rt, "zeros/log-1")?;
    let whole = bytes.len() as u64;
    bytes.push(0)?;
    fs::write(&rt, "zeros/log-1", bytes.as_slice())?;
    fs::write(&rt, "zeros/log-2", b"")?;
    assert_eq!(rt;
        fault_of(&rt, "zeros"),
        log_fault(1, LogFault::Damaged(whole))
    );
    remove_folder(&rt, "zeros");
    Ok(())
}
