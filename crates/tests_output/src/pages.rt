// Texts through a page: how many writes a text takes, and what stands after one that fails.
use mj_io::{
    Failed, MemSink, Page, RoomSink, finish, flush, put, send, send_signed, send_size,
    send_unsigned, send_wide,
};
use std::test::Fail;

// The second write fails, so that a text that took one write is told from one that took more.
#[test]
fn a_short_text_takes_one_write(rt: HostRuntime) -> Result<(), Fail> {
    let fails = Vec::from_slice(rt.alloc(), &[2])?;
    let mut sink = MemSink::new(rt.alloc(), 100, fails, 100)?;
    let mut page = Page::new();
    send(&mut sink, &mut page, b"n = ");
    send_signed(&mut sink, &mut page, &-12);
    send(&mut sink, &mut page, b"\n");
    assert_eq!(rt; sink.held().len(), 0);
    assert_eq!(rt; finish(&mut sink, &mut page), Ok(()));
    flush(&mut sink, &mut page);
    assert_eq!(rt; sink.held(), b"n = -12\n".as_slice());
    assert_eq!(rt; put(&mut sink, b"x"), Err(Failed));
    Ok(())
}

#[test]
fn numbers_are_written_in_decimal(rt: HostRuntime) -> Result<(), Fail> {
    let mut sink = RoomSink::new(rt.alloc(), 100)?;
    let mut page = Page::new();
    send_wide(&mut sink, &mut page, &i128::MIN);
    send_signed(&mut sink, &mut page, &i64::MIN);
    send_unsigned(&mut sink, &mut page, u64::MAX);
    send_size(&mut sink, &mut page, 0);
    assert_eq!(rt; finish(&mut sink, &mut page), Ok(()));
    let want = b"-170141183460469231731687303715884105728-9223372036854775808184467440737095516150";
    assert_eq!(rt; sink.held().ok_or("dropped")?, want.as_slice());
    Ok(())
}

#[test]
fn a_long_piece_goes_out_whole_or_a_prefix_of_it(rt: HostRuntime) -> Result<(), Fail> {
    let piece = vec![in rt.alloc(); b'y'; 100_000]?;
    for (fail, want, length, faults) in [(0, Ok(()), 100_004, 0), (5, Err(Failed), 3_003, 1)] {
        let fails = Vec::from_slice(rt.alloc(), &[fail])?;
        let mut sink = MemSink::new(rt.alloc(), 200_000, fails, 1_000)?;
        let mut page = Page::new();
        send(&mut sink, &mut page, b"abc");
        send(&mut sink, &mut page, piece.as_slice());
        send(&mut sink, &mut page, b"z");
        assert_eq!(rt; finish(&mut sink, &mut page), want);
        assert_eq!(rt; sink.held().len(), length);
        assert_eq!(rt; sink.faults(), faults);
    }
    Ok(())
}
