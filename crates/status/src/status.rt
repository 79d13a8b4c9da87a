// The status of a signal in an instant, and Not, And and Or of it.
ghost use Rattle.std.specs.Prelude.{◌≡◌};
ghost use Rattle.status.specs.Status.{both, either, opposite, shown};

use std::ops::{BitAnd, BitOr, Not};

// Two marks, shown present and shown absent. Neither is unknown, both is a clash.
#[derive(Clone, Copy, Debug, Default, PartialEq, Eq)]
pub struct Status {
    pub present: bool,
    pub absent: bool,
}

// A signal that is present, or one that is absent.
impl From<bool> for Status {
    ghost from_gives = { λ b r. r ≡ shown b };

    fn from(present: bool) -> Status {
        Status {
            present,
            absent: !present,
        }
    }
}

// Not swaps the marks.
impl Not for Status {
    type Output = Status;

    ghost not_gives = { λ a r. r ≡ opposite a };

    fn not(self) -> Status {
        Status {
            present: self.absent,
            absent: self.present,
        }
    }
}

// And is shown present if both are, and shown absent if one is.
impl BitAnd for Status {
    type Output = Status;

    ghost bitand_gives = { λ a b r. r ≡ both a b };

    fn bitand(self, rhs: Status) -> Status {
        Status {
            present: self.present & rhs.present,
            absent: self.absent | rhs.absent,
        }
    }
}

// Or is shown present if one is, and shown absent if both are.
impl BitOr for Status {
    type Output = Status;

    ghost bitor_gives = { λ a b r. r ≡ either a b };

    fn bitor(self, rhs: Status) -> Status {
        Status {
            present: self.present | rhs.present,
            absent: self.absent & rhs.absent,
        }
    }
}
