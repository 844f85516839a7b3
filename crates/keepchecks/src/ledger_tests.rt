// The ledger: the last line, what is left of a struck group, the order of refusals.
use crate::any_keep::{answers_in_order, puts_and_strikes, strikes_for_good, struck_in_both};
use keeps::fault::KeepFault;
use keeps::keep::Keep;
use ledgers::ledger::Ledger;
use std::process::Abort;
use std::test::Fail;
use stores::fault::SetUpFault;

#[test]
fn a_ledger_answers_in_order(rt: HostRuntime) -> Result<(), Fail> {
    let mut memory = [7; 35];
    let mut keep = Ledger::set_up(&mut memory, 2, 2)?;
    answers_in_order(&rt, &mut keep);
    assert!(rt; !keep.has_room(1));
    assert_eq!(rt; keep.put(1, 7, 702), Err(KeepFault::NoSlot(1)));
    strikes_for_good(&rt, &mut keep);
    Ok(())
}

// A slot counts the lines of its own group, and the last line is used as every other.
#[test]
fn groups_share_the_lines(rt: HostRuntime) -> Result<(), Fail> {
    let mut memory = [7; 48];
    let mut keep = Ledger::set_up(&mut memory, 2, 3)?;
    assert_eq!(rt; keep.put(1, 5, 700), Ok(0));
    assert_eq!(rt; keep.put(0, 6, 701), Ok(0));
    assert_eq!(rt; keep.put(1, 7, 702), Ok(1));
    assert_eq!(rt; keep.get(1, 1, 7), Ok(702));
    assert_eq!(rt; keep.get(0, 1, 7), Err(KeepFault::Stranger(7)));
    assert_eq!(rt; keep.strike(1), Ok(2));
    assert_eq!(rt; keep.get(0, 0, 6), Ok(701));
    assert_eq!(rt; keep.put(0, 8, 703), Err(KeepFault::NoSlot(0)));
    Ok(())
}

// All memory after two puts and a strike, and the byte behind untouched.
#[test]
fn a_struck_line_keeps_its_group_alone(rt: HostRuntime) -> Result<(), Fail> {
    let mut memory = [7; 35];
    {
        let mut keep = Ledger::set_up(&mut memory, 2, 2)?;
        assert_eq!(rt; keep.put(1, 0x01020304, 0x05060708090a0b0c), Ok(0));
        assert_eq!(rt; keep.put(0, 0x01020304, 0x05060708090a0b0c), Ok(0));
        assert_eq!(rt; keep.strike(1), Ok(1));
    }
    assert_eq!(rt; &memory[0..6], &[0, 1, 0, 0, 0, 2][..]);
    assert_eq!(rt;
        &memory[6..20],
        &[0, 1, 0, 0, 0, 0, 0, 0, 0, 0, 0, 0, 0, 0][..]
    );
    assert_eq!(rt;
        &memory[20..35],
        &[0, 0, 1, 2, 3, 4, 5, 6, 7, 8, 9, 10, 11, 12, 7][..]
    );
    Ok(())
}

// The memory once a group with this one pair was struck.
// (Each make has its own, and its own two tests below: each lends its own memory for the calls.)
fn struck_with(rt: &impl Abort, byte: u8, cell: u32, locator: u64) -> Result<[u8; 19], Fail> {
    let mut memory = [byte; 19];
    {
        let mut keep = Ledger::set_up(&mut memory, 1, 1)?;
        assert_eq!(rt; puts_and_strikes(&mut keep, cell, locator), [Ok(0), Ok(1)]);
    }
    Ok(memory)
}

#[test]
fn nothing_is_left_to_recover(rt: HostRuntime) -> Result<(), Fail> {
    assert_eq!(rt;
        struck_with(&rt, 7, 5, 700)?,
        struck_with(&rt, 9, 6, u64::MAX)?
    );
    Ok(())
}

// The same of two keeps that are struck together.
#[test]
fn two_struck_keeps_hold_equal_bytes(rt: HostRuntime) -> Result<(), Fail> {
    let (mut one, mut other) = ([7; 19], [9; 19]);
    {
        let mut first = Ledger::set_up(&mut one, 1, 1)?;
        let mut second = Ledger::set_up(&mut other, 1, 1)?;
        assert_eq!(rt;
            struck_in_both(&mut first, &mut second),
            [Ok(0), Ok(0), Ok(1), Ok(1)]
        );
    }
    assert_eq!(rt; one, other);
    Ok(())
}

// Whether so many groups and lines can be set up in 60 bytes.
// (Each make has its own: it lends its own memory for the call.)
fn set_up(groups: u32, lines: u32) -> Result<(), SetUpFault> {
    let mut memory = [0; 60];
    Ledger::set_up(&mut memory, groups, lines)?;
    Ok(())
}

#[test]
fn setting_goes_before_size(rt: HostRuntime) {
    assert_eq!(rt; set_up(0, 1), Err(SetUpFault::Setting));
    assert_eq!(rt; set_up(257, 1), Err(SetUpFault::Setting));
    assert_eq!(rt; set_up(1, 0), Err(SetUpFault::Setting));
    assert_eq!(rt; set_up(1, 65537), Err(SetUpFault::Setting));
    assert_eq!(rt; set_up(256, 65536), Err(SetUpFault::Size));
    assert_eq!(rt; set_up(14, 3), Ok(()));
    assert_eq!(rt; set_up(15, 3), Err(SetUpFault::Size));
}

// A state other than 0 and 1, a count above the lines, and a line of a group that is not there.
#[test]
fn any_memory_can_be_opened(rt: HostRuntime) -> Result<(), Fail> {
    let mut memory = [0xFF; 34];
    memory[0] = 0;
    memory[6] = 0;
    memory[7] = 0;
    let mut keep = Ledger::open(&mut memory, 2, 2)?;
    assert_eq!(rt; keep.get(0, 0, u32::MAX), Ok(u64::MAX));
    assert_eq!(rt;
        keep.get(0, 1, u32::MAX),
        Err(KeepFault::Stranger(u32::MAX))
    );
    assert_eq!(rt; keep.put(0, 1, 1), Err(KeepFault::NoSlot(0)));
    assert_eq!(rt; keep.get(1, 0, u32::MAX), Err(KeepFault::Gone(1)));
    assert_eq!(rt; keep.strike(0), Ok(1));
    Ok(())
}
