// Letters' lines and what letters say.
use letter::bits::Bits;
use letter::kind::Letter;
use letter::line::read_bits;
use letter::measured::Measured;
use scale::verdict::Verdict;

// The word of a line, or the refusal's number.
fn word(line: &[u8]) -> Result<u16, Option<u8>> {
    read_bits(line)
        .map(|letter| letter.word)
        .map_err(|fault| fault.number())
}

#[test]
fn lines_of_four_digits(rt: HostRuntime) {
    let cases: [(&[u8], Result<u16, Option<u8>>); 10] = [
        (b"0000", Ok(0)),
        (b"0006", Ok(6)),
        (b"ffff", Ok(65535)),
        (b"a01b", Ok(40987)),
        (b"", Err(Some(19))),
        (b"000", Err(Some(19))),
        (b"00000", Err(Some(19))),
        (b"00G0", Err(Some(19))),
        (b"00A0", Err(Some(19))),
        (b"\0\0\xff0", Err(Some(19))),
    ];
    for (line, expected) in cases {
        assert_eq!(rt; word(line), expected);
    }
}

#[test]
fn bits_by_channel(rt: HostRuntime) {
    let letter = Bits { word: 0x8002 };
    assert_eq!(rt; letter.value(1), Verdict::Kept);
    assert_eq!(rt; letter.value(15), Verdict::Kept);
    assert_eq!(rt; letter.value(0), Verdict::Broken);
    assert_eq!(rt; letter.value(16), Verdict::Broken);
    assert_eq!(rt; letter.value(255), Verdict::Broken);
}

#[test]
fn readings_against_limits(rt: HostRuntime) {
    let mut letter = Measured {
        readings: [0; 16],
        limits: [0; 16],
    };
    letter.readings[0] = 90;
    letter.limits[0] = 90;
    letter.readings[1] = 89;
    letter.limits[1] = 90;
    letter.readings[2] = 8191;
    letter.limits[2] = -8191;
    assert_eq!(rt; letter.value(0).number, 1);
    assert_eq!(rt; letter.value(1).number, -1);
    assert_eq!(rt; letter.value(2).number, 32765);
    assert_eq!(rt; letter.value(16).number, -32767);
    assert_eq!(rt; letter.unfit(), None);
    letter.limits[9] = -8192;
    letter.readings[7] = 8192;
    assert_eq!(rt; letter.unfit(), Some(7));
    assert_eq!(rt; letter.value(7).number, -32767);
}
