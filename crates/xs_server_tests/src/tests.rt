//! Scripts whose devices give and take one byte at a time and fail at a chosen call.
use crate::tests::fakes::{Pieces, Sips};
use std::alloc::{AllocError, Global};
use std::test::Fail;
use xs_io::{FromRead, ToWrite};
use xs_script::{ScriptFault, run_script};

/// A reader that gives one byte at a time.
fn dribble(bytes: &[u8]) -> FromRead<Pieces<'_>> {
    FromRead::new(Pieces::new(bytes, 1))
}

/// A writer that takes one byte at a time and fails at one of its calls, counted from 1.
fn failing(alloc: Global, fails_at: u64) -> Result<ToWrite<Sips>, AllocError> {
    let mut sips = Sips::new(alloc, 1)?;
    sips.fails_at = fails_at;
    Ok(ToWrite::new(sips))
}

/// A writer that takes one byte at a time.
fn sips(alloc: Global) -> Result<ToWrite<Sips>, AllocError> {
    failing(alloc, 0)
}

const TWO_ADDITIONS: &[u8] = b"1000 a XADD s * f v\n1000 a XADD s * f v\n";

const TWO_IDS: &[u8] = b"$6\r\n1000-0\r\n$6\r\n1000-1\r\n";

#[test]
fn runs_a_byte_at_a_time(rt: HostRuntime) -> Result<(), Fail> {
    let alloc = rt.alloc();
    let mut writer = sips(alloc)?;
    let ran = run_script(alloc, &mut dribble(TWO_ADDITIONS), &mut writer);
    assert_eq!(rt; ran, Ok(24));
    assert_eq!(rt; writer.into_inner().bytes.as_slice(), TWO_IDS);
    Ok(())
}

// Each line has 20 bytes and each reply 12.
#[test]
fn tells_of_each_failed_read(rt: HostRuntime) -> Result<(), Fail> {
    let alloc = rt.alloc();
    for at in 1..42 {
        let mut writer = sips(alloc)?;
        let mut reader = FromRead::new(Pieces::failing(TWO_ADDITIONS, 1, at));
        let ran = run_script(alloc, &mut reader, &mut writer);
        let written = 12 * ((at - 1) / 20);
        assert_eq!(rt; ran, Err(ScriptFault::Read { written }), "read {at}");
        assert_eq!(rt;
            writer.into_inner().bytes.len() as u64,
            written,
            "read {at}"
        );
    }
    Ok(())
}

#[test]
fn tells_of_each_failed_write(rt: HostRuntime) -> Result<(), Fail> {
    let alloc = rt.alloc();
    for at in 1..25 {
        let mut writer = failing(alloc, at)?;
        let ran = run_script(alloc, &mut dribble(TWO_ADDITIONS), &mut writer);
        let written = at - 1;
        assert_eq!(rt; ran, Err(ScriptFault::Write { written }), "write {at}");
        assert_eq!(rt;
            writer.into_inner().bytes.len() as u64,
            written,
            "write {at}"
        );
    }
    Ok(())
}

/// A writer with room for two replies, made a second time if memory was refused.
fn roomy(alloc: Global) -> Result<ToWrite<Sips>, AllocError> {
    let mut sips = match Sips::new(alloc, 1) {
        Ok(sips) => sips,
        Err(AllocError) => Sips::new(alloc, 1)?,
    };
    if sips.bytes.reserve(64).is_err() {
        sips.bytes.reserve(64)?;
    }
    Ok(ToWrite::new(sips))
}

/// The output of two additions if memory is refused to the first or to the second of them.
const FIRST_REFUSED: &[u8] = b"-OOM out of memory\r\n$6\r\n1000-0\r\n";

const SECOND_REFUSED: &[u8] = b"$6\r\n1000-0\r\n-OOM out of memory\r\n";

/// Whether these are the bytes that a script of two additions writes if one allocation was refused.
fn is_told(ran: Result<u64, ScriptFault>, bytes: &[u8]) -> bool {
    match ran {
        Ok(_) => bytes == TWO_IDS || bytes == FIRST_REFUSED || bytes == SECOND_REFUSED,
        Err(ScriptFault::Memory { .. }) => bytes.is_empty() || bytes == &TWO_IDS[..12],
        Err(_) => false,
    }
}

// With any one allocation refused, a line is answered OOM or the script ends after the replies to the lines before, and
// the same script run again is answered.
#[test]
fn a_refused_script_is_run_again(rt: HostRuntime) -> Result<(), Fail> {
    let alloc = rt.alloc();
    let mut answered = false;
    for _ in 0..2 {
        let mut writer = roomy(alloc)?;
        let ran = run_script(alloc, &mut dribble(TWO_ADDITIONS), &mut writer);
        let written = writer.into_inner();
        let bytes = written.bytes.as_slice();
        let count = bytes.len() as u64;
        assert!(rt; is_told(ran, bytes));
        assert!(rt; ran == Ok(count) || ran == Err(ScriptFault::Memory { written: count }));
        answered = answered || bytes == TWO_IDS;
    }
    assert!(rt; answered);
    Ok(())
}

mod fakes;
mod gates;
mod information;
mod of_bytes;
mod sessions;
mod tcp;
mod wrapped;
