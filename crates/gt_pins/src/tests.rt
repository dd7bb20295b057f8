use crate::{Pins, PinsFull};
use std::test::Fail;

#[test]
fn slots_are_taken_from_the_least_on(rt: HostRuntime) -> Result<(), Fail> {
    let mut pins = Pins::new(rt.alloc(), 2)?;
    assert_eq!(rt; pins.least(), None);
    assert_eq!(rt; pins.take(7), Ok(0));
    assert_eq!(rt; pins.take(5), Ok(1));
    assert_eq!(rt; pins.take(9), Err(PinsFull));
    pins.release(0);
    assert_eq!(rt; pins.take(6), Ok(0));
    assert_eq!(rt; pins.least(), Some(5));
    Ok(())
}
