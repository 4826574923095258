// Texts that are accepted, and texts that are refused with their number and place.
use rule::read_rule;
use std::alloc::Global;

// The number and the place of a refusal, as the tests give them.
#[derive(Clone, Copy, PartialEq, Eq, Debug)]
struct Refusal(u8, usize);

// Whether a text is accepted, or its refusal; want of memory is neither.
fn read(heap: Global, text: &[u8]) -> Option<Result<(), Refusal>> {
    match read_rule(heap, text) {
        Ok(_) => Some(Ok(())),
        Err(fault) => Some(Err(Refusal(fault.number()?, fault.place()?))),
    }
}

#[test]
fn refusals_and_their_places(rt: HostRuntime) {
    let cases: [(&[u8], Result<(), Refusal>); 14] = [
        (b"", Err(Refusal(1, 0))),
        (b"y", Ok(())),
        (b"h16", Err(Refusal(2, 2))),
        (b"h2", Err(Refusal(2, 1))),
        (b"h", Err(Refusal(3, 1))),
        (b"f15", Ok(())),
        (b"yy", Err(Refusal(4, 1))),
        (b"&y\xff", Err(Refusal(2, 2))),
        (b"E\0y", Err(Refusal(2, 1))),
        (b"Uef01yh02", Ok(())),
        (b"Uyf01yh02", Err(Refusal(2, 1))),
        (b"E.yn!+h00y", Ok(())),
        (b"A*ye", Err(Refusal(2, 3))),
        (b"Ra", Err(Refusal(3, 2))),
    ];
    for (text, expected) in cases {
        assert_eq!(rt; read(rt.alloc(), text), Some(expected));
    }
}

#[test]
fn at_most_48_nodes_and_96_bytes(rt: HostRuntime) {
    let mut text = [b'!'; 97];
    assert_eq!(rt; read(rt.alloc(), &text), Some(Err(Refusal(1, 0))));
    assert_eq!(rt; read(rt.alloc(), &text[0..96]), Some(Err(Refusal(5, 48))));
    assert_eq!(rt; read(rt.alloc(), &text[0..48]), Some(Err(Refusal(3, 48))));
    text[48] = b'y';
    assert_eq!(rt; read(rt.alloc(), &text[0..49]), Some(Err(Refusal(5, 48))));
    assert_eq!(rt; read(rt.alloc(), &text[1..49]), Some(Ok(())));
}
