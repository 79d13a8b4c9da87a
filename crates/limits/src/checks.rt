// What the tests of several limits check.
use fixpoint::worklist::Worklist;
use std::process::Abort;

// Lets these numbers wait, one after the other.
pub fn put_each<W: Worklist>(rt: &impl Abort, worklist: &mut W, numbers: &[usize]) {
    for i in numbers {
        assert!(rt; worklist.put(*i));
    }
}

// These numbers wait, and no other.
pub fn check_waiting<W: Worklist>(rt: &impl Abort, worklist: &W, numbers: &[usize]) {
    for i in 0..=128 {
        assert_eq!(rt; worklist.waits(i), numbers.contains(&i), "{}", i);
    }
}

// Nothing waits, and nothing can be taken.
pub fn check_idle<W: Worklist>(rt: &impl Abort, worklist: &mut W) {
    check_waiting(rt, worklist, &[]);
    assert_eq!(rt; worklist.take(), None);
}

// These numbers are taken, in this order, and then none.
pub fn check_order<W: Worklist>(rt: &impl Abort, worklist: &mut W, numbers: &[usize]) {
    for i in numbers {
        assert_eq!(rt; worklist.take(), Some(*i));
    }
    check_idle(rt, worklist);
}
