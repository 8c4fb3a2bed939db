//! A sink in memory.

use mf_types::sink::Sink;
use outside_in_memory::MemorySink;
use std::test::Fail;

/// A call past the room fails, and so does the third one, which is due.
#[test]
fn a_sink_takes_what_fits(rt: HostRuntime) -> Result<(), Fail> {
    let fails = vec![in rt.alloc(); 3]?;
    let mut sink = MemorySink::new(rt.alloc(), fails, 4).map_err(|_| "memory")?;
    let rows: [(&[u8], bool); 5] = [
        (b"abc", true),
        (b"de", false),
        (b"f", false),
        (b"g", true),
        (b"h", false),
    ];
    for (piece, works) in rows {
        assert_eq!(rt; sink.write(piece).is_ok(), works);
    }
    assert_eq!(rt; sink.written(), b"abcg".as_slice());
    Ok(())
}

/// Only the call of the named number fails.
#[test]
fn only_the_due_write_fails(rt: HostRuntime) -> Result<(), Fail> {
    for due in [1, 2, 3] {
        let fails = vec![in rt.alloc(); due]?;
        let mut sink = MemorySink::new(rt.alloc(), fails, 9).map_err(|_| "memory")?;
        for call in [1, 2, 3] {
            assert_eq!(rt; sink.write(b"a").is_ok(), call != due);
        }
    }
    Ok(())
}
