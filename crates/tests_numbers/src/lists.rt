// Lists: that their calls succeed, and what they give.
use fx_list::{Array, Listing, Text};
use std::test::Fail;

#[test]
fn an_array_keeps_its_items(rt: HostRuntime) -> Result<(), Fail> {
    let mut numbers = Array::filled(rt.alloc(), 3, 7i64)?;
    numbers.put(1, -2);
    assert_eq!(rt; numbers.at(1), -2);
    assert_eq!(rt; *numbers.entry(2), 7);
    assert_eq!(rt; numbers.as_slice(), [7, -2, 7].as_slice());
    Ok(())
}

#[test]
fn a_text_is_its_bytes(rt: HostRuntime) -> Result<(), Fail> {
    let text = Text::from_slice(rt.alloc(), b"elbow")?;
    assert!(rt; text.is(b"elbow"));
    assert!(rt; !text.is(b"elbows"));
    assert_eq!(rt; text.len(), 5);
    Ok(())
}

#[test]
fn a_listing_takes_what_it_has_room_for(rt: HostRuntime) -> Result<(), Fail> {
    let mut rows: Listing<u32> = Listing::new(rt.alloc(), 2)?;
    rows.push(5);
    rows.push(6);
    assert_eq!(rt; rows.as_slice(), [5, 6].as_slice());
    rows.clear();
    assert_eq!(rt; rows.len(), 0);
    assert_eq!(rt; rows.most(), 2);
    Ok(())
}
