// The theatre that the program speaks of.
use crate::plan::Plan;
use crate::rooms::RoomSet;

// A room by name, and the rooms behind its doors as bits: bit i is room i.
#[derive(Clone, Copy)]
pub struct Room {
    pub name: &'static str,
    doors: u16,
}

pub const ROOMS: [Room; 12] = [
    // To the stalls, the bar, the street, the cloakroom and the box office.
    Room {
        name: "foyer",
        doors: 0b0011_0100_0110,
    },
    // To the foyer.
    Room {
        name: "stalls",
        doors: 0b0000_0000_0001,
    },
    // To the foyer and the balcony.
    Room {
        name: "bar",
        doors: 0b0000_0000_1001,
    },
    // To the bar.
    Room {
        name: "balcony",
        doors: 0b0000_0000_0100,
    },
    // To the wings and the cellar.
    Room {
        name: "stage",
        doors: 0b0000_1010_0000,
    },
    // To the stage, the street and the loft.
    Room {
        name: "wings",
        doors: 0b0100_0101_0000,
    },
    // To nothing.
    Room {
        name: "street",
        doors: 0b0000_0000_0000,
    },
    // To the wings.
    Room {
        name: "cellar",
        doors: 0b0000_0010_0000,
    },
    // To the foyer.
    Room {
        name: "cloakroom",
        doors: 0b0000_0000_0001,
    },
    // To the street.
    Room {
        name: "box office",
        doors: 0b0000_0100_0000,
    },
    // To the roof.
    Room {
        name: "loft",
        doors: 0b1000_0000_0000,
    },
    // To nothing.
    Room {
        name: "roof",
        doors: 0b0000_0000_0000,
    },
];

pub fn theatre() -> Plan {
    Plan {
        doors: ROOMS.map(|room| RoomSet { bits: room.doors }),
    }
}
