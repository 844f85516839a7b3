// Plates: every refusal and its order, the first and the last cell, memory as it is.
use plates::plate::Plate;
use std::test::Fail;
use stores::fault::{SetUpFault, StoreFault};
use stores::store::Store;

#[test]
fn a_cell_is_written_once(rt: HostRuntime) -> Result<(), Fail> {
    let mut memory = [7; 51];
    let mut plate = Plate::set_up(&mut memory, 2)?;
    assert_eq!(rt; plate.size(), 2);
    assert_eq!(rt; plate.write(1, &[9; 24]), Ok(()));
    assert_eq!(rt; plate.write(1, &[8; 24]), Err(StoreFault::Written(1)));
    assert!(rt; !plate.can_take(1));
    assert!(rt; plate.can_take(0));
    let mut buffer = [5; 24];
    assert_eq!(rt; plate.read(1, &mut buffer), Ok(true));
    assert_eq!(rt; buffer, [9; 24]);
    Ok(())
}

#[test]
fn length_goes_before_beyond(rt: HostRuntime) -> Result<(), Fail> {
    let mut memory = [0; 50];
    let mut plate = Plate::set_up(&mut memory, 2)?;
    assert_eq!(rt; plate.write(2, &[0; 23]), Err(StoreFault::Length));
    assert_eq!(rt; plate.write(2, &[0; 24]), Err(StoreFault::Beyond(2)));
    let mut short = [5; 23];
    assert_eq!(rt; plate.read(2, &mut short), Err(StoreFault::Length));
    assert_eq!(rt; short, [5; 23]);
    let mut buffer = [5; 24];
    assert_eq!(rt; plate.read(2, &mut buffer), Err(StoreFault::Beyond(2)));
    assert_eq!(rt; buffer, [5; 24]);
    assert_eq!(rt; plate.read(0, &mut buffer), Ok(false));
    assert_eq!(rt; buffer, [0; 24]);
    Ok(())
}

// Whether so many cells can be set up in 50 bytes.
// (Each make has its own: it lends its own memory for the call.)
fn set_up(count: u32) -> Result<(), SetUpFault> {
    let mut memory = [0; 50];
    Plate::set_up(&mut memory, count)?;
    Ok(())
}

#[test]
fn setting_goes_before_size(rt: HostRuntime) {
    assert_eq!(rt; set_up(0), Err(SetUpFault::Setting));
    assert_eq!(rt; set_up(2), Ok(()));
    assert_eq!(rt; set_up(3), Err(SetUpFault::Size));
    assert_eq!(rt; set_up(1048576), Err(SetUpFault::Size));
    assert_eq!(rt; set_up(1048577), Err(SetUpFault::Setting));
}

#[test]
fn memory_is_opened_as_it_is(rt: HostRuntime) -> Result<(), Fail> {
    let mut memory = [7; 30];
    let plate = Plate::open(&mut memory, 1)?;
    let mut buffer = [0; 24];
    assert_eq!(rt; plate.read(0, &mut buffer), Ok(true));
    assert_eq!(rt; buffer, [7; 24]);
    Ok(())
}
