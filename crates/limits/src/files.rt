// The limits of a chart file: what is accepted, and the fault one above.
use crate::charts::{SMALL, build, fault};
use chart::fault::ChartFault;
use std::process::Abort;
use std::test::Fail;

// A place in the small chart, the byte to write there, and the fault that the file then has.
type Case = ((usize, u8), Option<ChartFault>);

const COUNTS: [Case; 10] = [
    // Below its range, and above it.
    ((0, 0), Some(ChartFault::CountOutOfRange(0))),
    ((0, 65), Some(ChartFault::CountOutOfRange(0))),
    ((41, 0), Some(ChartFault::CountOutOfRange(41))),
    ((41, 33), Some(ChartFault::CountOutOfRange(41))),
    ((54, 129), Some(ChartFault::CountOutOfRange(54))),
    // Fewer than there are records, and more.
    ((54, 0), Some(ChartFault::BytesRemain(55))),
    ((54, 1), Some(ChartFault::BytesRemain(86))),
    ((54, 3), Some(ChartFault::EndsEarly(117))),
    ((54, 128), Some(ChartFault::EndsEarly(117))),
    ((0, 64), Some(ChartFault::BrokenSignal(41))),
];

const SIGNALS: [Case; 31] = [
    // Kinds and combinings end at 2.
    ((11, 2), None),
    ((11, 3), Some(ChartFault::BrokenSignal(11))),
    ((21, 3), Some(ChartFault::BrokenSignal(21))),
    ((12, 0), None),
    ((12, 2), None),
    ((12, 3), Some(ChartFault::BrokenSignal(11))),
    ((22, 3), Some(ChartFault::BrokenSignal(21))),
    // An input has no combining.
    ((2, 1), Some(ChartFault::BrokenSignal(1))),
    ((2, 2), Some(ChartFault::BrokenSignal(1))),
    ((11, 0), Some(ChartFault::BrokenSignal(11))),
    ((21, 0), Some(ChartFault::BrokenSignal(21))),
    ((1, 1), None),
    // A name has a byte, and it may have eight.
    ((13, 0), Some(ChartFault::BrokenSignal(11))),
    ((10, 0), None),
    // Letters from a to z and digits from 0 to 9.
    ((13, b'z'), None),
    ((13, b'a' - 1), Some(ChartFault::BrokenSignal(11))),
    ((13, b'z' + 1), Some(ChartFault::BrokenSignal(11))),
    ((13, b'0'), None),
    ((13, b'9'), None),
    ((13, b'0' - 1), Some(ChartFault::BrokenSignal(11))),
    ((13, b'9' + 1), Some(ChartFault::BrokenSignal(11))),
    ((13, b'A'), Some(ChartFault::BrokenSignal(11))),
    ((40, b'Z'), Some(ChartFault::BrokenSignal(31))),
    // Nothing stands after a name's first zero.
    ((27, b'1'), None),
    ((28, b'1'), Some(ChartFault::BrokenSignal(21))),
    ((30, b'1'), Some(ChartFault::BrokenSignal(21))),
    ((24, 0), Some(ChartFault::BrokenSignal(21))),
    ((20, b'b'), Some(ChartFault::BrokenSignal(11))),
    // Of two equal names it is the later that is wrong.
    ((10, b'9'), Some(ChartFault::BrokenSignal(31))),
    ((40, b'1'), Some(ChartFault::BrokenSignal(31))),
    ((40, b'8'), None),
];

const AUTOMATA: [Case; 19] = [
    // An owner is a smaller automaton.
    ((42, 0), Some(ChartFault::BrokenAutomaton(42))),
    ((46, 1), Some(ChartFault::BrokenAutomaton(46))),
    ((46, 2), Some(ChartFault::BrokenAutomaton(46))),
    ((50, 0), None),
    ((50, 2), Some(ChartFault::BrokenAutomaton(50))),
    ((50, 254), Some(ChartFault::BrokenAutomaton(50))),
    // The owner state is one of its states, and at the top it is 0.
    ((47, 32), Some(ChartFault::BrokenAutomaton(46))),
    ((51, 31), Some(ChartFault::BrokenAutomaton(50))),
    ((43, 1), Some(ChartFault::BrokenAutomaton(42))),
    ((46, 255), Some(ChartFault::BrokenAutomaton(46))),
    // From 1 to 32 states.
    ((52, 0), Some(ChartFault::BrokenAutomaton(50))),
    ((44, 33), Some(ChartFault::BrokenAutomaton(42))),
    // At most 64 states together: here the last automaton has the state that is too much.
    ((52, 2), Some(ChartFault::BrokenAutomaton(50))),
    ((48, 32), Some(ChartFault::BrokenAutomaton(50))),
    // The first state is a state.
    ((45, 0), None),
    ((45, 32), Some(ChartFault::BrokenAutomaton(42))),
    ((49, 31), Some(ChartFault::BrokenAutomaton(46))),
    ((49, 255), Some(ChartFault::BrokenAutomaton(46))),
    ((53, 1), Some(ChartFault::BrokenAutomaton(50))),
];

const TRANSITIONS: [Case; 29] = [
    // The automaton exists.
    ((86, 1), None),
    ((86, 3), Some(ChartFault::BrokenTransition(86))),
    ((86, 255), Some(ChartFault::BrokenTransition(86))),
    // Source and target are its states.
    ((56, 31), None),
    ((56, 32), Some(ChartFault::BrokenTransition(55))),
    ((57, 32), Some(ChartFault::BrokenTransition(55))),
    ((55, 1), Some(ChartFault::BrokenTransition(55))),
    ((87, 1), Some(ChartFault::BrokenTransition(86))),
    ((88, 1), Some(ChartFault::BrokenTransition(86))),
    // Needed, forbidden and emitted signals end at the last signal.
    ((96, 0b0000_1000), None),
    ((96, 0b0001_0000), Some(ChartFault::BrokenTransition(86))),
    ((89, 0b1000_0000), Some(ChartFault::BrokenTransition(86))),
    ((104, 0b0000_1000), None),
    ((104, 0b0001_0000), Some(ChartFault::BrokenTransition(86))),
    ((97, 0b1000_0000), Some(ChartFault::BrokenTransition(86))),
    ((112, 0b0000_1000), None),
    ((112, 0b0001_0000), Some(ChartFault::BrokenTransition(86))),
    ((105, 0b1000_0000), Some(ChartFault::BrokenTransition(86))),
    // No signal is needed and forbidden.
    ((73, 0b0000_0110), None),
    ((73, 0b0000_0001), Some(ChartFault::BrokenTransition(55))),
    ((73, 0b0000_1010), Some(ChartFault::BrokenTransition(55))),
    // No input is emitted.
    ((81, 0b0000_1110), None),
    ((81, 0b0000_0001), Some(ChartFault::BrokenTransition(55))),
    ((81, 0b0000_1101), Some(ChartFault::BrokenTransition(55))),
    ((31, 0), Some(ChartFault::BrokenTransition(55))),
    // A signal may be needed and emitted, or forbidden and emitted; any amount will do.
    ((65, 0b0000_1100), None),
    ((73, 0b0000_0100), None),
    ((82, 255), None),
    ((116, 0), None),
];

// The small chart is accepted, and in each case it has the fault of that case.
fn check_cases(rt: &impl Abort, cases: &[Case]) {
    assert_eq!(rt; fault(SMALL), None);
    for ((place, byte), expected) in cases {
        let mut file = *SMALL;
        assert!(rt; *place < 117);
        file[*place] = *byte;
        assert_eq!(rt; fault(&file), *expected, "{byte} at {place}");
    }
}

// Each fault has its number, and the detail that it names.
#[test]
fn faults_have_their_numbers(rt: HostRuntime) {
    let faults = [
        ChartFault::EndsEarly(7),
        ChartFault::CountOutOfRange(7),
        ChartFault::BrokenSignal(7),
        ChartFault::BrokenAutomaton(7),
        ChartFault::BrokenTransition(7),
        ChartFault::BytesRemain(7),
    ];
    for (fault, number) in faults.iter().zip(1..7) {
        assert_eq!(rt; (fault.number(), fault.detail()), (number, 7));
    }
}

#[test]
fn counts_keep_their_ranges(rt: HostRuntime) {
    check_cases(&rt, &COUNTS);
}

#[test]
fn signals_keep_their_rules(rt: HostRuntime) {
    check_cases(&rt, &SIGNALS);
}

#[test]
fn automata_keep_their_rules(rt: HostRuntime) {
    check_cases(&rt, &AUTOMATA);
}

#[test]
fn transitions_keep_their_rules(rt: HostRuntime) {
    check_cases(&rt, &TRANSITIONS);
}

// Counts of signals, automata and transitions, a signal to need, and the fault of the chart that is built so.
const BUILT: [([u8; 3], u32, Option<ChartFault>); 10] = [
    ([1, 1, 0], 0, None),
    ([64, 1, 0], 0, None),
    ([65, 1, 0], 0, Some(ChartFault::CountOutOfRange(0))),
    ([1, 32, 0], 0, None),
    ([1, 33, 0], 0, Some(ChartFault::CountOutOfRange(11))),
    ([1, 1, 128], 0, None),
    ([1, 1, 129], 0, Some(ChartFault::CountOutOfRange(16))),
    ([64, 32, 128], 63, None),
    ([63, 32, 128], 62, None),
    ([63, 32, 128], 63, Some(ChartFault::BrokenTransition(761))),
];

// Charts with all their records, up to each limit and one above.
#[test]
fn charts_end_at_64_signals_32_automata_and_128_transitions(rt: HostRuntime) -> Result<(), Fail> {
    for (counts, signal, expected) in BUILT {
        assert!(rt; signal < 64);
        let file = build(rt.alloc(), counts, 1 << signal)?;
        assert_eq!(rt; fault(file.as_slice()), expected, "{counts:?}");
    }
    Ok(())
}

// An accepted file has this length. With a byte more it is refused, and whenever it is cut.
fn check_end(rt: &impl Abort, mut file: Vec<u8>, length: usize) -> Result<(), Fail> {
    assert_eq!(rt; file.len(), length);
    assert_eq!(rt; fault(file.as_slice()), None);
    file.push(0)?;
    assert_eq!(rt;
        fault(file.as_slice()),
        Some(ChartFault::BytesRemain(length))
    );
    for n in (0..length).rev() {
        file.truncate(n);
        assert_eq!(rt; fault(file.as_slice()), Some(ChartFault::EndsEarly(n)));
    }
    Ok(())
}

// The smallest file has 17 bytes, and the largest 4739.
#[test]
fn files_end_where_their_records_end(rt: HostRuntime) -> Result<(), Fail> {
    check_end(&rt, build(rt.alloc(), [1, 1, 0], 0)?, 17)?;
    check_end(&rt, SMALL.to_vec(rt.alloc())?, 117)?;
    check_end(&rt, build(rt.alloc(), [64, 32, 128], 1 << 63)?, 4739)
}

// A file with many faults: whenever the first is mended, the next is told. What is cut short comes before its contents.
#[test]
fn faults_are_told_in_file_order(rt: HostRuntime) {
    let mut file = [0; 118];
    file[0..117].copy_from_slice(SMALL);
    file[31] = 3;
    file[52] = 2;
    file[86] = 3;
    assert_eq!(rt; fault(&file[0..40]), Some(ChartFault::EndsEarly(40)));
    assert_eq!(rt; fault(&file), Some(ChartFault::BrokenSignal(31)));
    file[31] = 1;
    assert_eq!(rt; fault(&file[0..53]), Some(ChartFault::EndsEarly(53)));
    assert_eq!(rt; fault(&file), Some(ChartFault::BrokenAutomaton(50)));
    file[52] = 1;
    assert_eq!(rt; fault(&file[0..116]), Some(ChartFault::EndsEarly(116)));
    assert_eq!(rt; fault(&file), Some(ChartFault::BrokenTransition(86)));
    file[86] = 2;
    assert_eq!(rt; fault(&file), Some(ChartFault::BytesRemain(117)));
}
