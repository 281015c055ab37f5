/// Where a worker stands when it passes a gate.
#[derive(Clone, Copy, Debug, PartialEq, Eq)]
pub enum Point {
    /// Before a turn of its plugin.
    BeforeTurn,
    /// Directly before it enters the room.
    BeforeEnter,
    /// Directly after it entered the room.
    AfterEnter,
}

/// What workers pass outside the room, so that a test can hold one back. It means nothing to a contract.
pub trait Gate {
    fn pass(&self, caller: u32, point: Point);
}

/// The gate of the program, which holds nobody.
#[derive(Clone, Copy)]
pub struct FreeGate;

impl Gate for FreeGate {
    fn pass(&self, _caller: u32, _point: Point) {}
}
