// What no clause says: that memory is found for an exchange, and what an exchange looks like in words.
use crate::{Exchange, Tap};
use std::test::Fail;

#[test]
fn tap_finds_memory_for_exchanges(rt: HostRuntime) -> Result<(), Fail> {
    let alloc = rt.alloc();
    let mut tap = Tap::new(alloc, ());
    let frames: [(&[u8], &[u8]); 3] = [
        (&[0xe2, 0x05], &[0x08, 0x00]),
        (&[0xe0, 0x00], &[0x08, 0x05]),
        (&[], &[]),
    ];
    for (sent, answered) in frames {
        tap.keep(sent.to_vec(alloc)?, answered)?;
    }
    assert_eq!(rt; tap.seen().len(), frames.len());
    let ((), seen) = tap.into_parts();
    for (exchange, (sent, answered)) in seen.iter().zip(frames) {
        assert_eq!(rt; exchange.sent.as_slice(), sent);
        assert_eq!(rt; exchange.answered.as_slice(), answered);
    }
    Ok(())
}

#[test]
fn exchange_in_words(rt: HostRuntime) -> Result<(), Fail> {
    let alloc = rt.alloc();
    let cases: [(&[u8], &[u8], &str); 5] = [
        (
            &[0x12, 0x4f, 0x4b, 0x0a],
            &[0x08, 0x00, 0x00, 0x00],
            "  out 12 in 08  command: put to R2\n    out 4f in 00  one byte into the send buffer\n    out 4b in 00  one byte into the send buffer\n    out 0a in 00  one byte into the send buffer\n",
        ),
        (
            &[0xf8, 0x00],
            &[0x88, 0x20],
            "  out f8 in 88  command: get from R31\n    out 00 in 20  the toggles, and the result code in the low four bits\n",
        ),
        (&[0x30], &[0x00], "  out 30 in 00  command: get from R6\n"),
        (&[], &[], ""),
        (&[0x30], &[], ""),
    ];
    for (sent, answered, words) in cases {
        let exchange = Exchange {
            sent: sent.to_vec(alloc)?,
            answered: answered.to_vec(alloc)?,
        };
        assert_eq!(rt; exchange.to_string(alloc)?.as_str(), words);
    }
    Ok(())
}
