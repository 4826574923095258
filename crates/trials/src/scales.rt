// Margins at both ends, and codes.
use scale::fault::CodeFault;
use scale::margin::Margin;
use scale::order::Scale;
use scale::stored::Stored;
use scale::verdict::Verdict;

// The number of the margin that some bytes code.
fn coded(bytes: &[u8]) -> Result<i16, CodeFault> {
    let margin = <Margin as Stored>::take(bytes)?;
    Ok(margin.number)
}

#[test]
fn opposite_at_both_ends(rt: HostRuntime) {
    assert_eq!(rt; Margin { number: 32767 }.opposite().number, -32767);
    assert_eq!(rt; Margin { number: -32767 }.opposite().number, 32767);
    assert_eq!(rt; Margin { number: 7 }.join(Margin { number: -9 }).number, 7);
    assert_eq!(rt; Margin { number: 7 }.meet(Margin { number: -9 }).number, -9);
}

#[test]
fn codes_of_margins_and_verdicts(rt: HostRuntime) {
    assert_eq!(rt; coded(b"\x00\x15"), Ok(21));
    assert_eq!(rt; coded(b"\xff\xf9\x00"), Ok(-7));
    assert_eq!(rt; coded(b"\x80\x01"), Ok(-32767));
    assert_eq!(rt; coded(b"\x80\x00"), Err(CodeFault::NoCode));
    assert_eq!(rt; coded(b"\x00\x02"), Err(CodeFault::NoCode));
    let mut bytes = [9u8; 3];
    assert_eq!(rt; Margin { number: -7 }.put(&mut bytes), Ok(()));
    assert_eq!(rt; bytes, [0xff, 0xf9, 9]);
    assert_eq!(rt; <Verdict as Stored>::take(&[]).is_ok(), false);
    assert_eq!(rt; <Verdict as Stored>::take(&[4]).is_ok(), false);
    assert_eq!(rt; Verdict::Kept.put(&mut bytes), Ok(()));
    assert_eq!(rt; bytes, [3, 0xf9, 9]);
}
