//! A folder of logs that is opened again.
use crate::tests::noting::{empty_folder, fault_of, lock_and_open, note, remove_folder};
use std::fs;
use std::test::Fail;
use xs_files::{FolderFault, SyncPolicy};

#[test]
fn what_was_noted_is_found(rt: HostRuntime) -> Result<(), Fail> {
    empty_folder(&rt, "restarts")?;
    assert_eq!(rt; note(&rt, "restarts/logs", "XADD s * f v")?, (0, 0));
    assert_eq!(rt; note(&rt, "restarts/logs", "XADD s * f w")?, (1, 0));
    assert_eq!(rt; note(&rt, "restarts/logs", "XADD s * f x")?, (2, 0));
    remove_folder(&rt, "restarts");
    Ok(())
}

#[test]
fn a_torn_end_is_cut(rt: HostRuntime) -> Result<(), Fail> {
    empty_folder(&rt, "torn")?;
    note(&rt, "torn", "XADD s * f v")?;
    let mut bytes = fs::read(&rt, "torn/log-1")?;
    bytes.extend_from_slice(b"*5\r\n$4\r\n10\0\0\0")?;
    fs::write(&rt, "torn/log-1", bytes.as_slice())?;
    assert_eq!(rt; note(&rt, "torn", "XADD s * f w")?, (1, 10));
    assert_eq!(rt; note(&rt, "torn", "XADD s * f x")?, (2, 0));
    remove_folder(&rt, "torn");
    Ok(())
}

#[test]
fn a_header_that_a_crash_tore_is_written_again(rt: HostRuntime) -> Result<(), Fail> {
    empty_folder(&rt, "torn_header")?;
    fs::write(&rt, "torn_header/log-1", b"*6\r\n$2\r\n50\0\0\0\0")?;
    assert_eq!(rt; note(&rt, "torn_header", "XADD s * f v")?, (0, 10));
    assert_eq!(rt; note(&rt, "torn_header", "XADD s * f w")?, (1, 0));
    remove_folder(&rt, "torn_header");
    Ok(())
}

/// A value that a thread may take.
fn is_sent<T: Send>(_value: &T) {}

#[test]
fn a_folder_is_opened_once(rt: HostRuntime) -> Result<(), Fail> {
    empty_folder(&rt, "once")?;
    let Ok(opened) = lock_and_open(&rt, "once", SyncPolicy::Always) else {
        return Err("not opened".into());
    };
    is_sent(&opened.log);
    assert_eq!(rt; fault_of(&rt, "once"), Some(FolderFault::InUse));
    drop(opened);
    assert_eq!(rt; fault_of(&rt, "once"), None);
    remove_folder(&rt, "once");
    Ok(())
}

#[test]
fn a_syncer_is_for_each_second_alone(rt: HostRuntime) -> Result<(), Fail> {
    empty_folder(&rt, "syncer")?;
    for policy in [
        SyncPolicy::Always,
        SyncPolicy::EachSecond,
        SyncPolicy::Never,
    ] {
        let Ok(opened) = lock_and_open(&rt, "syncer", policy) else {
            return Err("not opened".into());
        };
        let syncer = opened.log.tape().syncer()?;
        assert_eq!(rt; syncer.is_some(), policy == SyncPolicy::EachSecond);
        if let Some(mut syncer) = syncer {
            syncer.sync(&rt);
        }
    }
    remove_folder(&rt, "syncer");
    Ok(())
}
