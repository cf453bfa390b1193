//! Readers and writers of std that give and take a few bytes at a time: the wrappers add no fault.
use super::of_bytes::run_bytes;
use super::*;

#[test]
fn runs_in_pieces_of_a_few_bytes(rt: HostRuntime) -> Result<(), Fail> {
    let alloc = rt.alloc();
    for size in 2..6 {
        let mut reader = FromRead::new(Pieces::new(TWO_ADDITIONS, size));
        let mut writer = ToWrite::new(Sips::new(alloc, 7 - size)?);
        let ran = run_script(alloc, &mut reader, &mut writer);
        assert_eq!(rt; ran, Ok(TWO_IDS.len() as u64));
        assert_eq!(rt; writer.into_inner().bytes.as_slice(), TWO_IDS);
    }
    Ok(())
}

#[test]
fn runs_bytes_in_hand(rt: HostRuntime) -> Result<(), Fail> {
    match run_bytes(rt.alloc(), TWO_ADDITIONS) {
        Ok(replies) => assert_eq!(rt; replies.as_slice(), TWO_IDS),
        Err(_) => return Err(Fail::from("a fault")),
    }
    Ok(())
}
