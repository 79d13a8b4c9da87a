// A transition of a chart. Bit s of a mask is signal s.
ghost use Rattle.std.specs.Prelude.{◌≡◌};
ghost use Rattle.chart.specs.Decoded.{transition_of};

use crate::array_at;

#[derive(Clone, Copy, Debug, PartialEq, Eq)]
pub struct Transition {
    pub automaton: u8,
    pub source: u8,
    pub target: u8,
    pub needed: u64,
    pub forbidden: u64,
    pub emitted: u64,
    pub amount: u32,
}

// The transition that a record stands for.
impl From<[u8; 31]> for Transition {
    ghost from_gives = { λ bytes r. r ≡ transition_of bytes };

    fn from(bytes: [u8; 31]) -> Transition {
        Transition {
            automaton: bytes[0],
            source: bytes[1],
            target: bytes[2],
            needed: u64::from_be_bytes(array_at(&bytes, 3)),
            forbidden: u64::from_be_bytes(array_at(&bytes, 11)),
            emitted: u64::from_be_bytes(array_at(&bytes, 19)),
            amount: u32::from_be_bytes(array_at(&bytes, 27)),
        }
    }
}
