// How far back the live transactions read.
ghost use Rattle.std.specs.Prelude.{◌≡◌, ◌≤◌, ℕ, fold, min};
ghost use Rattle.gt_model.specs.Machine.{State, low_water};
ghost use Rattle.gt_pins.specs.Live.{ReadIn};

use gt_pins::{Live, LivePin};

/// The least of the applied position and of those that live transactions read. It takes no memory.
pub fn low_water(applied: u64, live: &Live) -> u64
    ensures value { (s : State) → s.applied ≡ applied → s.pins ≡ live.now → result ≡ low_water s }
    ensures applied { result ≤ applied }
    // Where each transaction reads from a floor on, the floor may be raised to this position.
    ensures floor { (floor front : ℕ) → floor ≤ applied → ReadIn floor front live.now → floor ≤ result }
    ensures read { (floor front : ℕ) → ReadIn floor front live.now → ReadIn result front live.now }
{
    least_position(applied, live.as_slice())
}

fn least_position(least: u64, pins: &[LivePin]) -> u64
    ensures { result ≡ fold (λ low p. min low p.position) least pins.now }
{
    let mut low = least;
    for pin in pins {
        low = low.min(pin.position);
    }
    low
}
