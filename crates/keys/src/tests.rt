use crate::clip::Clip;
use crate::key::{Key, ahead, has_count, level};
use crate::price::Price;
use crate::row::ClipRow;
use std::test::Fail;

fn clip(width: u32, wool_yield: u32, strength: u32) -> ClipRow {
    ClipRow {
        width,
        wool_yield,
        strength,
    }
}

#[test]
fn range_ends(rt: HostRuntime) -> Result<(), Fail> {
    assert!(rt; ClipRow::from_fields(&[99, 0, 0]).is_none());
    assert!(rt; ClipRow::from_fields(&[100, 0, 0]).is_some());
    assert!(rt; ClipRow::from_fields(&[500, 1000, 100]).is_some());
    assert!(rt; ClipRow::from_fields(&[501, 1000, 100]).is_none());
    assert!(rt; ClipRow::from_fields(&[500, 1001, 100]).is_none());
    assert!(rt; Clip::from_fields(&[500, 1000, 101]).is_none());
    let top = Price::from_fields(&[4294967295]).ok_or("refused")?;
    assert_eq!(rt; top.cents, 4294967295);
    Ok(())
}

#[test]
fn wrong_counts(rt: HostRuntime) {
    assert!(rt; Price::from_fields(&[]).is_none());
    assert!(rt; Price::from_fields(&[1, 2]).is_none());
    assert!(rt; ClipRow::from_fields(&[]).is_none());
    assert!(rt; ClipRow::from_fields(&[200, 1]).is_none());
    assert!(rt; ClipRow::from_fields(&[200, 1, 1, 1]).is_none());
    assert!(rt; has_count::<Price>(&[7]));
    assert!(rt; !has_count::<ClipRow>(&[7]));
}

#[test]
fn counts_are_fields(rt: HostRuntime) {
    assert_eq!(rt; Price::FIELDS, Price::count());
    assert_eq!(rt; ClipRow::FIELDS, ClipRow::count());
}

#[test]
fn level_keys(rt: HostRuntime) {
    let low = Price { cents: 5 };
    let high = Price { cents: 6 };
    assert!(rt; level(&low, &low));
    assert!(rt; !level(&low, &high));
    assert!(rt; ahead(&low, &low, true));
    assert!(rt; !ahead(&low, &low, false));
    assert!(rt; ahead(&high, &low, false));
    assert!(rt; !ahead(&low, &high, true));
}

#[test]
fn first_difference_decides(rt: HostRuntime) {
    let plain = clip(200, 600, 40);
    assert!(rt; clip(199, 0, 0).at_least(&plain));
    assert!(rt; !clip(200, 599, 100).at_least(&plain));
    assert!(rt; clip(200, 600, 41).at_least(&plain));
    assert!(rt; !clip(200, 600, 39).at_least(&plain));
    assert!(rt; level(&plain, &plain));
}
