/// As many are kept or live as the limit says.
#[derive(Clone, Copy, Debug, PartialEq, Eq)]
pub struct PinsFull;
