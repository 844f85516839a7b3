// Blocks: a full group, what is left of a struck one, the order of refusals.
use crate::any_keep::{answers_in_order, puts_and_strikes, strikes_for_good, struck_in_both};
use blocks::keep::Blocks;
use keeps::fault::KeepFault;
use keeps::keep::Keep;
use std::process::Abort;
use std::test::Fail;
use stores::fault::SetUpFault;

#[test]
fn blocks_answer_in_order(rt: HostRuntime) -> Result<(), Fail> {
    let mut memory = [7; 57];
    let mut keep = Blocks::set_up(&mut memory, 2, 2)?;
    answers_in_order(&rt, &mut keep);
    assert!(rt; keep.has_room(1));
    assert!(rt; !keep.has_room(0));
    assert_eq!(rt; keep.put(0, 7, 702), Err(KeepFault::NoSlot(0)));
    strikes_for_good(&rt, &mut keep);
    Ok(())
}

// All memory after a put and a strike: one block each, and the byte behind untouched.
#[test]
fn a_struck_block_is_all_zeros(rt: HostRuntime) -> Result<(), Fail> {
    let mut memory = [7; 33];
    {
        let mut keep = Blocks::set_up(&mut memory, 2, 1)?;
        assert_eq!(rt; keep.put(0, 0x01020304, 0x05060708090a0b0c), Ok(0));
        assert_eq!(rt; keep.put(1, 9, 9), Ok(0));
        assert_eq!(rt; keep.strike(1), Ok(1));
    }
    assert_eq!(rt;
        &memory[0..16],
        &[0, 0, 0, 1, 1, 2, 3, 4, 5, 6, 7, 8, 9, 10, 11, 12][..]
    );
    assert_eq!(rt;
        &memory[16..33],
        &[255, 255, 255, 255, 0, 0, 0, 0, 0, 0, 0, 0, 0, 0, 0, 0, 7][..]
    );
    Ok(())
}

// The memory once a group with this one pair was struck.
// (Each make has its own, and its own two tests below: each lends its own memory for the calls.)
fn struck_with(rt: &impl Abort, byte: u8, cell: u32, locator: u64) -> Result<[u8; 16], Fail> {
    let mut memory = [byte; 16];
    {
        let mut keep = Blocks::set_up(&mut memory, 1, 1)?;
        assert_eq!(rt; puts_and_strikes(&mut keep, cell, locator), [Ok(0), Ok(1)]);
    }
    Ok(memory)
}

#[test]
fn nothing_is_left_to_recover(rt: HostRuntime) -> Result<(), Fail> {
    assert_eq!(rt;
        struck_with(&rt, 7, 5, 700)?,
        struck_with(&rt, 9, 6, u64::MAX)?
    );
    Ok(())
}

// The same of two keeps that are struck together.
#[test]
fn two_struck_keeps_hold_equal_bytes(rt: HostRuntime) -> Result<(), Fail> {
    let (mut one, mut other) = ([7; 16], [9; 16]);
    {
        let mut first = Blocks::set_up(&mut one, 1, 1)?;
        let mut second = Blocks::set_up(&mut other, 1, 1)?;
        assert_eq!(rt;
            struck_in_both(&mut first, &mut second),
            [Ok(0), Ok(0), Ok(1), Ok(1)]
        );
    }
    assert_eq!(rt; one, other);
    Ok(())
}

// Whether so many groups of so many slots can be set up in 60 bytes.
// (Each make has its own: it lends its own memory for the call.)
fn set_up(groups: u32, slots: u32) -> Result<(), SetUpFault> {
    let mut memory = [0; 60];
    Blocks::set_up(&mut memory, groups, slots)?;
    Ok(())
}

#[test]
fn setting_goes_before_size(rt: HostRuntime) {
    assert_eq!(rt; set_up(0, 1), Err(SetUpFault::Setting));
    assert_eq!(rt; set_up(257, 1), Err(SetUpFault::Setting));
    assert_eq!(rt; set_up(1, 0), Err(SetUpFault::Setting));
    assert_eq!(rt; set_up(1, 65536), Err(SetUpFault::Setting));
    assert_eq!(rt; set_up(256, 65535), Err(SetUpFault::Size));
    assert_eq!(rt; set_up(3, 1), Ok(()));
    assert_eq!(rt; set_up(4, 1), Err(SetUpFault::Size));
}

// A count above the slots, and a retired group whose record was not wiped.
#[test]
fn any_memory_can_be_opened(rt: HostRuntime) -> Result<(), Fail> {
    let mut memory = [0xFF; 32];
    memory[3] = 0xFE;
    let mut keep = Blocks::open(&mut memory, 2, 1)?;
    assert_eq!(rt; keep.get(0, 0, u32::MAX), Ok(u64::MAX));
    assert_eq!(rt;
        keep.get(0, 1, u32::MAX),
        Err(KeepFault::Stranger(u32::MAX))
    );
    assert_eq!(rt; keep.put(0, 1, 1), Err(KeepFault::NoSlot(0)));
    assert_eq!(rt; keep.get(1, 0, u32::MAX), Err(KeepFault::Gone(1)));
    assert_eq!(rt; keep.strike(0), Ok(1));
    Ok(())
}
