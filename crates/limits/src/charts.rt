// Chart files for the tests: a small one, byte by byte, and built ones of any size.
use chart::check::check;
use chart::fault::ChartFault;
use chart::view::Chart;
use std::alloc::{AllocError, Global};
use std::test::Fail;

// A small chart whose records reach their limits. Each line is a count or a record:
// at 0 four signals: at 1 the input seatnew1, at 11 the output a, at 21 the local sold, at 31 the output seatnew9;
// at 41 three automata: at 42 one of 32 states, at 46 one of 31 in its last state, at 50 one of 1 in the last of those;
// at 54 two transitions: at 55 one of the first automaton, at 86 one of the last.
pub const SMALL: &[u8; 117] = b"\x04\
    \x00\x00seatnew1\
    \x01\x01a\0\0\0\0\0\0\0\
    \x02\x02sold\0\0\0\0\
    \x01\x00seatnew9\
    \x03\
    \xff\x00\x20\x1f\
    \x00\x1f\x1f\x1e\
    \x01\x1e\x01\x00\
    \x02\
    \x00\x1e\x1f\0\0\0\0\0\0\0\x09\0\0\0\0\0\0\0\x02\0\0\0\0\0\0\0\x0c\x01\x02\x03\x04\
    \x02\x00\x00\0\0\0\0\0\0\0\x00\0\0\0\0\0\0\0\x00\0\0\0\0\0\0\0\x00\xff\xff\xff\xff";

// A file's first fault, if it has one.
pub fn fault(file: &[u8]) -> Option<ChartFault> {
    check(file).err()
}

// The chart in a file, which has to keep the layout.
pub fn open(file: &[u8]) -> Result<Chart<'_>, Fail> {
    Ok(Chart::open(file).ok().ok_or("the file is refused")?)
}

// An output with a name that no other number has: a0 to a9, b0 to b9 and so on.
fn output(i: u8) -> [u8; 10] {
    [1, 0, b'a' + i / 10, b'0' + i % 10, 0, 0, 0, 0, 0, 0]
}

// A chart with these counts of signals, automata and transitions.
// Its automata have two states each, and its transitions need these signals and no other.
pub fn build(heap: Global, counts: [u8; 3], needed: u64) -> Result<Vec<u8>, AllocError> {
    let [signals, automata, transitions] = counts;
    let mut file = Vec::new(heap);
    file.push(signals)?;
    for i in 0..signals {
        file.extend_from_slice(&output(i))?;
    }
    file.push(automata)?;
    for _ in 0..automata {
        file.extend_from_slice(&[255, 0, 2, 1])?;
    }
    file.push(transitions)?;
    for _ in 0..transitions {
        file.extend_from_slice(&[0, 1, 1])?;
        file.extend_from_slice(&needed.to_be_bytes())?;
        file.extend_from_slice(&[0; 20])?;
    }
    Ok(file)
}
