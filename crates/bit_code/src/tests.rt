use super::*;
use std::alloc::{AllocError, Global};
use std::test::Fail;

// A text of one character, again and again.
fn repeated(alloc: Global, count: u32, character: char) -> Result<String, AllocError> {
    let mut text = String::new(alloc);
    for _ in 0..count {
        text.push(character)?;
    }
    Ok(text)
}

#[test]
fn texts_are_read_or_refused(rt: HostRuntime) -> Result<(), Fail> {
    let most = repeated(rt.alloc(), 64_000, '0')?;
    let more = repeated(rt.alloc(), 64_001, '0')?;
    let value = read_bits(rt.alloc(), &most)?;
    assert_eq!(rt; value.count(), 64_000);
    for (text, want) in [
        (more.as_str(), BitsFault::TooLong),
        ("", BitsFault::Empty),
        ("01x", BitsFault::BadPlace(2)),
    ] {
        match read_bits(rt.alloc(), text) {
            Ok(_) => assert!(rt; false, "a value was read"),
            Err(fault) => assert_eq!(rt; fault, want),
        }
    }
    Ok(())
}

#[test]
fn counts_agree_at_each_length(rt: HostRuntime) -> Result<(), Fail> {
    for length in [1, 7, 8, 9, 63, 64, 65, 64_000] {
        let text = repeated(rt.alloc(), length, '1')?;
        let all = read_bits(rt.alloc(), &text)?;
        let count = all.count();
        assert_eq!(rt; count, length);
        let mut last = Bits::zeros(rt.alloc(), count)?;
        assert!(rt; last.count() == count);
        last.set(count - 1, true);
        assert!(rt; last.get(count - 1));
        assert!(rt; last.count() == count);
        assert_eq!(rt; count_ones(&all), length);
        assert_eq!(rt; count_ones(&last), 1);
        assert_eq!(rt; count_both(&all, &last), 1);
        assert_eq!(rt; count_unequal(&all, &last), length - 1);
    }
    Ok(())
}

#[test]
fn values_are_packed_bytes(rt: HostRuntime) -> Result<(), Fail> {
    let mut value = read_bits(rt.alloc(), "0011")?;
    assert!(rt; value.bytes() == [0x30].as_slice());
    assert!(rt; !value.get(1) && value.get(2));
    assert!(rt; value.try_clone()?.bytes() == [0x30].as_slice());
    assert!(rt; !is_packed(4, &[0x38]));
    assert!(rt; !is_packed(4, &[0x30, 0]));
    assert!(rt; is_packed(4, &[0xa0]));
    let other = Bits::from_bytes(rt.alloc(), 4, &[0xa0])?;
    assert!(rt; other.bytes() == [0xa0].as_slice());
    value.refill(&[0xa0]);
    assert!(rt; value.get(0) && value.get(2));
    Ok(())
}
