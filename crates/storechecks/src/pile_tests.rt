// Windows over joins over windows: the cells that come through, and the numbers in refusals.
use piles::join::Join;
use piles::window::Window;
use plates::plate::Plate;
use refusals::Refusal;
use std::test::Fail;
use stores::fault::{SetUpFault, StoreFault};
use stores::store::Store;

#[test]
fn a_refusal_has_the_number_of_the_store_that_was_called(rt: HostRuntime) -> Result<(), Fail> {
    let mut one = [0; 100];
    let mut two = [0; 75];
    let Ok(front) = Window::new(Plate::set_up(&mut one, 4)?, 2, 2) else {
        return Err(Fail::new("no window"));
    };
    let Ok(both) = Join::new(front, Plate::set_up(&mut two, 3)?) else {
        return Err(Fail::new("no join"));
    };
    let Ok(mut shown) = Window::new(both, 1, 3) else {
        return Err(Fail::new("no window"));
    };
    assert_eq!(rt; shown.size(), 3);
    assert_eq!(rt; shown.write(0, &[1; 24]), Ok(()));
    assert_eq!(rt; shown.write(0, &[1; 24]), Err(StoreFault::Written(0)));
    assert_eq!(rt; shown.write(2, &[2; 24]), Ok(()));
    assert_eq!(rt; shown.write(2, &[2; 24]), Err(StoreFault::Written(2)));
    assert_eq!(rt; shown.write(3, &[2; 24]), Err(StoreFault::Beyond(3)));
    let mut buffer = [0; 24];
    assert_eq!(rt; shown.read(1, &mut buffer), Ok(false));
    assert_eq!(rt; shown.read(2, &mut buffer), Ok(true));
    assert_eq!(rt; buffer, [2; 24]);
    Ok(())
}

// Why there is no window on two cells, where there is none.
fn window_on_two(first: u32, count: u32) -> Result<(), SetUpFault> {
    let mut memory = [0; 50];
    let plate = Plate::set_up(&mut memory, 2)?;
    // no `map_err`: a closure that takes a store with its `&mut` by value gets no proof
    match Window::new(plate, first, count) {
        Ok(_) => Ok(()),
        Err(refused) => Err(refused.fault),
    }
}

// The number of that refusal.
fn number_on_two(first: u32, count: u32) -> Option<u32> {
    window_on_two(first, count)
        .err()
        .map(|fault| fault.number())
}

#[test]
fn a_window_has_cells_and_ends_inside(rt: HostRuntime) {
    assert_eq!(rt; number_on_two(0, 2), None);
    assert_eq!(rt; number_on_two(1, 1), None);
    assert_eq!(rt; number_on_two(5, 0), Some(1));
    assert_eq!(rt; number_on_two(2, 1), Some(3));
    assert_eq!(rt; number_on_two(0, 3), Some(3));
    assert_eq!(rt; number_on_two(u32::MAX, u32::MAX), Some(3));
}
