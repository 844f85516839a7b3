// What a keep of any make shows on the same calls.
use keeps::checks::strike_both;
use keeps::fault::KeepFault;
use keeps::keep::Keep;
use std::process::Abort;

// On a keep of two groups, empty, with room for two pairs in group 0: every refusal but NO SLOT, in its order.
pub fn answers_in_order(rt: &impl Abort, keep: &mut impl Keep) {
    assert_eq!(rt; keep.group_count(), 2);
    assert_eq!(rt; keep.put(0, 5, 700), Ok(0));
    assert_eq!(rt; keep.put(0, 6, u64::MAX), Ok(1));
    assert_eq!(rt; keep.get(0, 0, 5), Ok(700));
    assert_eq!(rt; keep.get(0, 1, 6), Ok(u64::MAX));
    assert_eq!(rt; keep.get(0, 1, 5), Err(KeepFault::Stranger(5)));
    assert_eq!(rt; keep.get(0, 2, 5), Err(KeepFault::Stranger(5)));
    assert_eq!(rt; keep.get(1, 0, 5), Err(KeepFault::Stranger(5)));
    assert_eq!(rt; keep.put(2, 5, 700), Err(KeepFault::Group(2)));
    assert_eq!(rt; keep.get(2, 9, 9), Err(KeepFault::Group(2)));
    assert_eq!(rt; keep.strike(65535), Err(KeepFault::Group(65535)));
    assert_eq!(rt; keep.check(2), Err(KeepFault::Group(2)));
    assert!(rt; !keep.has_room(2));
}

// Then strikes both groups, the empty one and the other, each twice.
pub fn strikes_for_good(rt: &impl Abort, keep: &mut impl Keep) {
    assert_eq!(rt; keep.strike(1), Ok(0));
    assert_eq!(rt; keep.strike(1), Err(KeepFault::Gone(1)));
    assert_eq!(rt; keep.check(0), Ok(()));
    assert_eq!(rt; keep.strike(0), Ok(2));
    assert_eq!(rt; keep.strike(0), Err(KeepFault::Gone(0)));
    assert_eq!(rt; keep.put(0, 5, 700), Err(KeepFault::Gone(0)));
    assert_eq!(rt; keep.get(0, 0, 5), Err(KeepFault::Gone(0)));
    assert_eq!(rt; keep.get(0, 9, 9), Err(KeepFault::Gone(0)));
    assert_eq!(rt; keep.check(0), Err(KeepFault::Gone(0)));
    assert!(rt; !keep.has_room(0));
}

// Puts one pair into group 0 of a keep, strikes the group, and gives what the two calls answered.
pub fn puts_and_strikes(
    keep: &mut impl Keep,
    cell: u32,
    locator: u64,
) -> [Result<u32, KeepFault>; 2] {
    let put = keep.put(0, cell, locator);
    let struck = keep.strike(0);
    [put, struck]
}

// Puts another pair into group 0 of each of two keeps, strikes the group in both, and gives what the four calls answered.
pub fn struck_in_both<K: Keep>(one: &mut K, other: &mut K) -> [Result<u32, KeepFault>; 4] {
    let put = one.put(0, 5, 700);
    let other_put = other.put(0, 6, u64::MAX);
    let (struck, other_struck) = strike_both(one, other, 0);
    [put, other_put, struck, other_struck]
}
