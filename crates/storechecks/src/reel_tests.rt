// Reels: lines in order of writing, a full reel, the order of refusals.
use reels::reel::Reel;
use std::test::Fail;
use stores::fault::{SetUpFault, StoreFault};
use stores::store::Store;

#[test]
fn a_full_reel_takes_no_cell(rt: HostRuntime) -> Result<(), Fail> {
    let mut memory = [7; 62];
    let mut reel = Reel::set_up(&mut memory, 5, 2)?;
    assert_eq!(rt; reel.write(4, &[1; 24]), Ok(()));
    assert_eq!(rt; reel.write(0, &[2; 24]), Ok(()));
    assert!(rt; !reel.can_take(1));
    assert_eq!(rt; reel.write(1, &[3; 24]), Err(StoreFault::NoCell(1)));
    assert_eq!(rt; reel.write(4, &[3; 24]), Err(StoreFault::Written(4)));
    assert_eq!(rt; reel.write(5, &[3; 24]), Err(StoreFault::Beyond(5)));
    let mut buffer = [0; 24];
    assert_eq!(rt; reel.read(4, &mut buffer), Ok(true));
    assert_eq!(rt; buffer, [1; 24]);
    Ok(())
}

// Whether so many cells and lines can be set up in 60 bytes.
// (Each make has its own: it lends its own memory for the call.)
fn set_up(cells: u32, lines: u32) -> Result<(), SetUpFault> {
    let mut memory = [0; 60];
    Reel::set_up(&mut memory, cells, lines)?;
    Ok(())
}

#[test]
fn setting_goes_before_size(rt: HostRuntime) {
    assert_eq!(rt; set_up(0, 9), Err(SetUpFault::Setting));
    assert_eq!(rt; set_up(9, 0), Err(SetUpFault::Setting));
    assert_eq!(rt; set_up(1048577, 1), Err(SetUpFault::Setting));
    assert_eq!(rt; set_up(1048576, 2), Ok(()));
    assert_eq!(rt; set_up(1, 3), Err(SetUpFault::Size));
}

#[test]
fn any_memory_can_be_opened(rt: HostRuntime) -> Result<(), Fail> {
    let mut memory = [255; 60];
    let reel = Reel::open(&mut memory, 3, 2)?;
    let mut buffer = [7; 24];
    assert_eq!(rt; reel.read(2, &mut buffer), Ok(false));
    assert_eq!(rt; buffer, [0; 24]);
    assert!(rt; !reel.can_take(2));
    Ok(())
}
