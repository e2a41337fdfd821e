use crate::{ReadError, Request, Unreadable, answer, codes_text, packet_text, read_line};
use packet::CodeNumbers;
use std::alloc::Global;
use std::test::Fail;

// Not assert_eq: in a function below a test it would need the bound Abort.
fn check(heap: Global, line: &str, expected: &str) -> Result<(), Fail> {
    let text = answer(heap, line.as_bytes())?;
    if text.as_str() == expected {
        Ok(())
    } else {
        Err(Fail::from(text))
    }
}

#[test]
fn answers_with_a_packet_or_codes(rt: HostRuntime) -> Result<(), Fail> {
    let heap = rt.alloc();
    check(
        heap,
        "pack 1 1 1 1 1 1 1 1 1 1 1 0 0 0 0 0 0 0 0 0 0 0 0 0 0 0 0 3 0 0 0 0 0 0 0 15",
        "ffff",
    )?;
    check(
        heap,
        "unpack 1 1F7b\r",
        "0 0 1 1 1 1 1 1 1 0 0 0 0 0 0 0 0 0 0 0 0 0 0 0 0 0 3 0 0 0 0 0 0 0 5",
    )
}

#[test]
fn answers_with_a_refusal(rt: HostRuntime) -> Result<(), Fail> {
    let heap = rt.alloc();
    check(
        heap,
        "pack 5 0 0 0 0 0 0 0 0 0 0 0 0 0 0 0 0 0 0 0 0 0 0 0 0 0 0 0 0 0 0 0 0 0 0 0",
        "refused 17",
    )?;
    check(heap, "unpack 4 -", "refused 6 0")?;
    check(
        heap,
        "unpack 4 ffffffffffffffffffffffffffffffffffffffffffff",
        "refused 9 0",
    )
}

#[test]
fn names_what_is_wrong(rt: HostRuntime) {
    let heap = rt.alloc();
    let cases: [(&str, Unreadable); 8] = [
        ("", Unreadable::Verb),
        ("pack 4 0", Unreadable::PackWords),
        ("unpack 4", Unreadable::UnpackWords),
        ("unpack +4 -", Unreadable::Number),
        ("unpack 256 -", Unreadable::Number),
        ("unpack 4 ", Unreadable::Packet),
        ("unpack 4 000", Unreadable::Packet),
        ("unpack 4 0g", Unreadable::Packet),
    ];
    for (line, reason) in cases {
        let read = read_line(heap, line.as_bytes());
        assert!(rt; matches!(read, Err(ReadError::Line(found)) if found == reason));
    }
}

#[test]
fn prints_what_it_reads(rt: HostRuntime) -> Result<(), Fail> {
    let heap = rt.alloc();
    let Request::Unpack { rate, packet } = read_line(heap, b"unpack 255 00ff")? else {
        return Err(Fail::from("no packet"));
    };
    assert_eq!(rt; rate, 255);
    assert_eq!(rt; packet_text(heap, &packet)?.as_str(), "00ff");
    assert_eq!(rt; packet_text(heap, &[])?.as_str(), "-");
    let zeros = codes_text(heap, &CodeNumbers::default())?;
    assert_eq!(rt; zeros.len(), 69);
    Ok(())
}
