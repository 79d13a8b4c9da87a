// The worked cases: small charts, one instant after the start on each, and its answer.
ghost use Rattle.std.specs.Prelude.{◌≡◌, ℕ, map, Some};
ghost use Rattle.std.specs.List.{slice_get};
ghost use Rattle.engine.specs.Cases.{Right, Row, row_of, rows};

use reaction::fault::{Fault, InstantFault};

// The answer of an instant: the bytes of its line, or why it is refused.
pub type Expected = Result<&'static [u8], Fault>;

// What a case shows, its file, the mask, the number of places, the length of the line buffer, and the answer.
#[derive(Clone, Copy, Debug, PartialEq, Eq)]
pub struct Case {
    pub name: &'static str,
    pub file: &'static [u8],
    pub mask: u64,
    pub places: usize,
    pub room: usize,
    pub expected: Expected,
}

// On ask the first automaton goes from 0 to 1 and emits hold; on hold the second goes from 0 to 1 and emits sold with amount 45.
pub const HANDOVER: &[u8; 103] = b"\x03\
    \x00\x00ask\0\0\0\0\0\
    \x01\x00hold\0\0\0\0\
    \x01\x01sold\0\0\0\0\
    \x02\
    \xff\x00\x02\x00\
    \xff\x00\x02\x00\
    \x02\
    \x00\x00\x01\0\0\0\0\0\0\0\x01\0\0\0\0\0\0\0\x00\0\0\0\0\0\0\0\x02\0\0\0\x00\
    \x01\x00\x01\0\0\0\0\0\0\0\x02\0\0\0\0\0\0\0\x00\0\0\0\0\0\0\0\x04\0\0\0\x2d";

// An output that is emitted under itself.
pub const SELF_SUPPORTING: &[u8; 48] = b"\x01\
    \x01\x00x\0\0\0\0\0\0\0\
    \x01\
    \xff\x00\x01\x00\
    \x01\
    \x00\x00\x00\0\0\0\0\0\0\0\x01\0\0\0\0\0\0\0\x00\0\0\0\0\0\0\0\x01\0\0\0\x00";

// An output that is emitted under its absence.
pub const SELF_DENYING: &[u8; 48] = b"\x01\
    \x01\x00x\0\0\0\0\0\0\0\
    \x01\
    \xff\x00\x01\x00\
    \x01\
    \x00\x00\x00\0\0\0\0\0\0\0\x00\0\0\0\0\0\0\0\x01\0\0\0\0\0\0\0\x01\0\0\0\x00";

// One state with both.
pub const EITHER_WAY: &[u8; 79] = b"\x01\
    \x01\x00x\0\0\0\0\0\0\0\
    \x01\
    \xff\x00\x01\x00\
    \x02\
    \x00\x00\x00\0\0\0\0\0\0\0\x01\0\0\0\0\0\0\0\x00\0\0\0\0\0\0\0\x01\0\0\0\x00\
    \x00\x00\x00\0\0\0\0\0\0\0\x00\0\0\0\0\0\0\0\x01\0\0\0\0\0\0\0\x01\0\0\0\x00";

// One is emitted under in and two; two is emitted under one and not in.
pub const RESOLVED_CYCLE: &[u8; 103] = b"\x03\
    \x00\x00in\0\0\0\0\0\0\
    \x01\x00one\0\0\0\0\0\
    \x01\x00two\0\0\0\0\0\
    \x02\
    \xff\x00\x01\x00\
    \xff\x00\x01\x00\
    \x02\
    \x00\x00\x00\0\0\0\0\0\0\0\x05\0\0\0\0\0\0\0\x00\0\0\0\0\0\0\0\x02\0\0\0\x00\
    \x01\x00\x00\0\0\0\0\0\0\0\x02\0\0\0\0\0\0\0\x01\0\0\0\0\0\0\0\x04\0\0\0\x00";

// On ask the owner leaves state 0 for 1, and its part in state 0 goes to 1 and emits hold.
const OWNED: &[u8; 93] = b"\x02\
    \x00\x00ask\0\0\0\0\0\
    \x01\x00hold\0\0\0\0\
    \x02\
    \xff\x00\x02\x00\
    \x00\x00\x02\x00\
    \x02\
    \x00\x00\x01\0\0\0\0\0\0\0\x01\0\0\0\0\0\0\0\x00\0\0\0\0\0\0\0\x00\0\0\0\x00\
    \x01\x00\x01\0\0\0\0\0\0\0\x01\0\0\0\0\0\0\0\x00\0\0\0\0\0\0\0\x02\0\0\0\x00";

// On ask two automata emit sum and most, with amounts 45 and 30.
const AMOUNTS: &[u8; 103] = b"\x03\
    \x00\x00ask\0\0\0\0\0\
    \x01\x01sum\0\0\0\0\0\
    \x01\x02most\0\0\0\0\
    \x02\
    \xff\x00\x01\x00\
    \xff\x00\x01\x00\
    \x02\
    \x00\x00\x00\0\0\0\0\0\0\0\x01\0\0\0\0\0\0\0\x00\0\0\0\0\0\0\0\x06\0\0\0\x2d\
    \x01\x00\x00\0\0\0\0\0\0\0\x01\0\0\0\0\0\0\0\x00\0\0\0\0\0\0\0\x06\0\0\0\x1e";

// The same with the largest amount and 1.
const LARGE_AMOUNTS: &[u8; 103] = b"\x03\
    \x00\x00ask\0\0\0\0\0\
    \x01\x01sum\0\0\0\0\0\
    \x01\x02most\0\0\0\0\
    \x02\
    \xff\x00\x01\x00\
    \xff\x00\x01\x00\
    \x02\
    \x00\x00\x00\0\0\0\0\0\0\0\x01\0\0\0\0\0\0\0\x00\0\0\0\0\0\0\0\x06\xff\xff\xff\xff\
    \x01\x00\x00\0\0\0\0\0\0\0\x01\0\0\0\0\0\0\0\x00\0\0\0\0\0\0\0\x06\0\0\0\x01";

// The one signal stays unresolved.
const UNRESOLVED: Expected = Err(Fault::Instant(InstantFault::Unresolved(1)));

const CASES: [Case; 10] = [
    Case {
        name: "ask_sells",
        file: HANDOVER,
        mask: 1,
        places: 3,
        room: 22,
        expected: Ok(b"1: hold sold=45 / 1 1\n"),
    },
    Case {
        name: "silence",
        file: HANDOVER,
        mask: 0,
        places: 3,
        room: 22,
        expected: Ok(b"1: / 0 0\n"),
    },
    Case {
        name: "self_supporting",
        file: SELF_SUPPORTING,
        mask: 0,
        places: 1,
        room: 22,
        expected: UNRESOLVED,
    },
    Case {
        name: "self_denying",
        file: SELF_DENYING,
        mask: 0,
        places: 1,
        room: 22,
        expected: UNRESOLVED,
    },
    Case {
        name: "either_way",
        file: EITHER_WAY,
        mask: 0,
        places: 1,
        room: 22,
        expected: UNRESOLVED,
    },
    Case {
        name: "resolved_cycle",
        file: RESOLVED_CYCLE,
        mask: 1,
        places: 3,
        room: 22,
        expected: Ok(b"1: / 0 0\n"),
    },
    Case {
        name: "owner_leaves",
        file: OWNED,
        mask: 1,
        places: 2,
        room: 22,
        expected: Ok(b"1: hold / 1 -\n"),
    },
    Case {
        name: "amounts_combined",
        file: AMOUNTS,
        mask: 1,
        places: 3,
        room: 40,
        expected: Ok(b"1: sum=75 most=45 / 0 0\n"),
    },
    Case {
        name: "sum_stops",
        file: LARGE_AMOUNTS,
        mask: 1,
        places: 3,
        room: 40,
        expected: Ok(b"1: sum=4294967295 most=4294967295 / 0 0\n"),
    },
    Case {
        name: "line_too_short",
        file: HANDOVER,
        mask: 1,
        places: 3,
        room: 21,
        expected: Err(Fault::Instant(InstantFault::LongLine(22))),
    },
];

// The table. Each case is right.
pub fn worked_cases() -> [Case; 10]
    ensures table { map row_of result ≡ rows }
    ensures right { (k : ℕ) (row : Row) → slice_get (map row_of result) k ≡ Some row → Right row }
{
    CASES
}
