// Lines: what is printed and what is left out, the room that a line needs, and the longest one.
use crate::charts::{SMALL, open};
use crate::instants::{ABSENT, PRESENT};
use engine::cases::HANDOVER;
use fixpoint::marks::Marks;
use reaction::fault::InstantFault;
use status::configuration::Configuration;
use status::fired::Fired;
use std::alloc::{AllocError, Global};
use std::process::Abort;
use std::test::Fail;
use trace::line::Line;

// More places than any line needs.
const PLACES: usize = 1400;

// In a buffer of n places the line is refused, and nothing is written.
fn check_refused(rt: &impl Abort, line: &Line<'_, '_, '_>, n: usize) -> Result<(), Fail> {
    let mut buffer = [b'.'; PLACES];
    if n >= PLACES {
        return Err(Fail::new("no such buffer"));
    }
    let answer = line.write(&mut buffer[..n]);
    assert_eq!(rt; answer, Err(InstantFault::LongLine(n + 1)));
    assert_eq!(rt; buffer, [b'.'; PLACES]);
    Ok(())
}

// In a buffer of its length the line is this text.
fn check_written(rt: &impl Abort, line: &Line<'_, '_, '_>, text: &[u8]) -> Result<(), Fail> {
    let mut buffer = [b'.'; PLACES];
    let n = text.len();
    if n > PLACES {
        return Err(Fail::new("no such buffer"));
    }
    let part = &mut buffer[..n];
    assert_eq!(rt; line.write(part), Ok(n));
    assert_eq!(rt; &part[..], text);
    Ok(())
}

// In a longer buffer the bytes after the line stay as they are.
fn check_rest(rt: &impl Abort, line: &Line<'_, '_, '_>, n: usize) {
    let mut buffer = [b'.'; PLACES];
    assert!(rt; line.write(&mut buffer).is_ok());
    for byte in buffer.iter().skip(n) {
        assert_eq!(rt; *byte, b'.');
    }
}

// The line is this text: it wants this much room, and no more is written.
fn check_line(rt: &impl Abort, line: &Line<'_, '_, '_>, text: &[u8]) -> Result<(), Fail> {
    let n = text.len();
    assert_eq!(rt; line.length(), n);
    check_refused(rt, line, n.saturating_sub(1))?;
    check_written(rt, line, text)?;
    check_rest(rt, line, n);
    Ok(())
}

// Both transitions fire, and both automata move.
#[test]
fn the_line_of_a_handover(rt: HostRuntime) -> Result<(), Fail> {
    let statuses = [PRESENT; 3];
    let after = Configuration {
        states: [Some(1); 32],
    };
    check_line(
        &rt,
        &Line {
            chart: open(HANDOVER)?,
            count: 1,
            statuses: &statuses,
            fired: Fired {
                set: Marks::new().with(0).with(1),
            },
            after: &after,
        },
        b"1: hold sold=45 / 1 1\n",
    )
}

// A present input and local and an absent output are left out, a value of 0 is not; an automaton may hold no state.
#[test]
fn the_line_of_a_small_chart(rt: HostRuntime) -> Result<(), Fail> {
    let statuses = [PRESENT, PRESENT, PRESENT, ABSENT];
    let mut after = Configuration { states: [None; 32] };
    after.states[0] = Some(31);
    after.states[2] = Some(0);
    check_line(
        &rt,
        &Line {
            chart: open(SMALL)?,
            count: 20,
            statuses: &statuses,
            fired: Fired { set: Marks::new() },
            after: &after,
        },
        b"20: a=0 / 31 - 0\n",
    )
}

// 64 outputs with combining and names of eight bytes, and 32 automata, three of them with eleven states.
// The one transition emits all outputs, with the largest amount.
fn longest_chart(heap: Global) -> Result<Vec<u8>, AllocError> {
    let mut file = Vec::new(heap);
    file.push(64)?;
    for i in 0..64 {
        file.extend_from_slice(b"\x01\x01seatno")?;
        file.extend_from_slice(&[b'0' + i / 10, b'0' + i % 10])?;
    }
    file.push(32)?;
    for _ in 0..3 {
        file.extend_from_slice(&[255, 0, 11, 10])?;
    }
    for _ in 3..32 {
        file.extend_from_slice(&[255, 0, 1, 0])?;
    }
    file.extend_from_slice(&[1, 0, 10, 10])?;
    file.extend_from_slice(&[0; 16])?;
    file.extend_from_slice(&[255; 12])?;
    Ok(file)
}

// Its line where all outputs are present and three automata hold their last state.
fn longest_line(heap: Global) -> Result<Vec<u8>, AllocError> {
    let mut text = Vec::new(heap);
    text.extend_from_slice(b"1000000:")?;
    for i in 0..64 {
        text.extend_from_slice(b" seatno")?;
        text.extend_from_slice(&[b'0' + i / 10, b'0' + i % 10])?;
        text.extend_from_slice(b"=4294967295")?;
    }
    text.extend_from_slice(b" / 10 10 10")?;
    for _ in 3..32 {
        text.extend_from_slice(b" 0")?;
    }
    text.push(b'\n')?;
    Ok(text)
}

#[test]
fn the_longest_line_has_1358_bytes(rt: HostRuntime) -> Result<(), Fail> {
    let file = longest_chart(rt.alloc())?;
    let text = longest_line(rt.alloc())?;
    assert_eq!(rt; text.len(), 1358);
    let statuses = [PRESENT; 64];
    let mut after = Configuration {
        states: [Some(0); 32],
    };
    after.states[0] = Some(10);
    after.states[1] = Some(10);
    after.states[2] = Some(10);
    let bytes = file.as_slice();
    check_line(
        &rt,
        &Line {
            chart: open(bytes)?,
            count: 1_000_000,
            statuses: &statuses,
            fired: Fired {
                set: Marks::new().with(0),
            },
            after: &after,
        },
        text.as_slice(),
    )
}
