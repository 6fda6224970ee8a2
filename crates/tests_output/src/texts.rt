// Numerals read and numbers printed: the texts are worked by hand.
use fx_num::Fix;
use fx_text::{DecimalFault, print_decimal, print_raw, read_decimal, send_decimal};
use mj_io::{Failed, MemSink, Page, finish, send};
use std::alloc::Global;
use std::test::Fail;

fn raw_at_32(text: &[u8]) -> Result<i64, DecimalFault> {
    match read_decimal::<32>(text) {
        Ok(number) => Ok(number.mid),
        Err(fault) => Err(fault),
    }
}

#[test]
fn numerals_are_read(rt: HostRuntime) {
    for (text, want) in [
        (b"0.002".as_slice(), Ok(8_589_935i64)),
        (b"-9.81", Ok(-42_133_629_174)),
        (b"1e-8", Ok(43)),
        (b".5", Ok(2_147_483_648)),
        (b"5e-1", Ok(2_147_483_648)),
        (b"5.", Ok(21_474_836_480)),
        (b"+1", Ok(4_294_967_296)),
        (b"0e99", Ok(0)),
        (b"", Err(DecimalFault::Empty)),
        (b"1..2", Err(DecimalFault::BadByte(2))),
        (b"1e", Err(DecimalFault::BadByte(2))),
        (b"-", Err(DecimalFault::BadByte(1))),
        (b".", Err(DecimalFault::BadByte(1))),
        (b"000000000000000000000000000", Err(DecimalFault::TooLong)),
        (b"1e30", Err(DecimalFault::Range)),
    ] {
        assert_eq!(rt; raw_at_32(text), want);
    }
}

fn sink_of(alloc: Global, room: usize) -> Result<MemSink, Fail> {
    Ok(MemSink::new(alloc, room, Vec::new(alloc), 64)?)
}

#[test]
fn whole_numbers_are_printed(rt: HostRuntime) -> Result<(), Fail> {
    for (n, text) in [
        (0i128, b"0".as_slice()),
        (-1, b"-1"),
        (i128::MIN, b"-170141183460469231731687303715884105728"),
        (9_223_372_036_854_775_807, b"9223372036854775807"),
    ] {
        let mut sink = sink_of(rt.alloc(), 64)?;
        assert_eq!(rt; print_raw(n, &mut sink), Ok(()));
        assert_eq!(rt; sink.held(), text);
    }
    Ok(())
}

// 0.082323 is 353,574,593 of 2^32, to the nearest. Half a unit goes to the number nearer to zero.
#[test]
fn decimals_are_printed(rt: HostRuntime) -> Result<(), Fail> {
    for (raw, places, text) in [
        (3i64 << 29, 9u32, b"0.375000000".as_slice()),
        (-(3 << 30), 2, b"-0.75"),
        (-1, 9, b"0.000000000"),
        (-5, 9, b"-0.000000001"),
        (0, 1, b"0.0"),
        (353_574_593, 6, b"0.082323"),
        (1 << 52, 9, b"1048576.000000000"),
        (1 << 31, 1, b"0.5"),
        (1 << 30, 1, b"0.2"),
        (-(1 << 30), 1, b"-0.2"),
        ((2 << 32) - 1, 9, b"2.000000000"),
    ] {
        assert!(rt; raw.unsigned_abs() <= 1 << 52);
        assert!(rt; 1 <= places);
        assert!(rt; places <= 9);
        let mut sink = sink_of(rt.alloc(), 64)?;
        assert_eq!(rt;
            print_decimal(Fix::from_raw(raw), places, &mut sink),
            Ok(())
        );
        assert_eq!(rt; sink.held(), text);
    }
    Ok(())
}

#[test]
fn a_failed_write_is_told(rt: HostRuntime) -> Result<(), Fail> {
    let mut sink = sink_of(rt.alloc(), 3)?;
    assert_eq!(rt; print_raw(-12345, &mut sink), Err(Failed));
    assert_eq!(rt; sink.held(), b"-12".as_slice());
    Ok(())
}

#[test]
fn decimals_go_out_through_a_page(rt: HostRuntime) -> Result<(), Fail> {
    let mut sink = sink_of(rt.alloc(), 4)?;
    let mut page = Page::new();
    send(&mut sink, &mut page, b"x ");
    send_decimal(&mut sink, &mut page, &Fix::from_raw(3 << 31), 2);
    assert_eq!(rt; finish(&mut sink, &mut page), Err(Failed));
    assert_eq!(rt; sink.held(), b"x 1.".as_slice());
    Ok(())
}
