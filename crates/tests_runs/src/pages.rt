// Texts go out through a page: steps share a write, and a sink that has no room tells nothing.
use crate::input::{cabinet_of, tell, words_of};
use mj_io::RoomSink;
use mj_top::run_words;
use std::test::Fail;

// A body that rests takes some 78 bytes a step, and a page holds 65,536: a thousand steps take two writes.
#[test]
fn steps_share_a_write(rt: HostRuntime) -> Result<(), Fail> {
    for (fail, code) in [(1u64, 7), (2, 7), (3, 0)] {
        let line = "run --model rest --steps 1000";
        let told = tell(&rt, rt.alloc(), line, &[], &[fail], 1_000_000)?;
        assert_eq!(rt; told.code, code);
        assert_eq!(rt; told.text.is_empty(), fail == 1);
        assert_eq!(rt; told.text.as_slice().ends_with(b"end done\n"), code == 0);
    }
    Ok(())
}

#[test]
fn a_sink_with_too_little_room_tells_nothing(rt: HostRuntime) -> Result<(), Fail> {
    let alloc = rt.alloc();
    let words = words_of(alloc, "run --model slide --steps 0")?;
    let text = b"trace 1 nq=1 nv=1 steps=0\nend done\n".as_slice();
    for (room, held) in [(text.len(), Some(text)), (text.len() - 1, None)] {
        let mut cabinet = cabinet_of(alloc, b"", &[])?;
        let mut sink = RoomSink::new(alloc, room)?;
        let status = run_words(&rt, alloc, words.as_slice(), &mut cabinet, &mut sink);
        assert_eq!(rt; status.code(), 0);
        assert!(rt; sink.held() == held);
    }
    Ok(())
}
