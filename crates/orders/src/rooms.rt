// A set of rooms: one bit for each room. A type of its own beside the sets of 32 numbers in `bits`:
// with those the height of the plan's system would be 32, and its law would say less.
ghost use Rattle.std.specs.Prelude.{◌<◌};

#[derive(Clone, Copy, Debug, PartialEq, Eq)]
pub struct RoomSet {
    pub bits: u16,
    ghost ok: { bits < 65536 },
}
