// The check of a chart file: its bytes in order, to the first fault.
ghost use Rattle.std.specs.Prelude.{◌≡◌, ℕ, ◌+◌, ◌*◌, ◌^◌, ◌<◌, ◌≤◌, Bool, length, Ok, nat_le, nat_lt};
ghost use Rattle.chart.specs.Check.{AreInputs, Gives, automaton_good, counted, is_letter, mask_good, masks_good, owner_good, section, signal_good, states_upto, tidy, transition_good, unused_name, verdict};
ghost use Rattle.chart.specs.Layout.{Layout};
ghost use Rattle.chart.specs.Places.{byte};
ghost use Rattle.chart.specs.declared.fault.ChartFault.{ChartFault};

use crate::automaton::Automaton;
use crate::fault::ChartFault;
use crate::signal::Kind;
use crate::transition::Transition;
use crate::{array_at, records_of};
use bits::with_bit;

// A byte from a to z or from 0 to 9.
fn letter(b: u8) -> bool
    ensures { result ≡ is_letter b }
{
    matches!(b, b'a'..=b'z' | b'0'..=b'9')
}

// Eight bytes: letters and digits up to the first zero byte, and then zero bytes alone.
fn tidy_name(bytes: &[u8], at: usize) -> bool
    requires { at + 8 ≤ length bytes.now }
    ensures { result ≡ tidy bytes.now 8 at }
{
    let field = &bytes[at..at + 8];
    let letters = field.iter().take_while(|b| letter(**b)).count();
    field[letters..].iter().all(|b| *b == 0)
}

// Whether no earlier signal has the name of signal i. Eight bytes are compared at once, as a number.
fn new_name(bytes: &[u8], i: usize) -> bool
    requires { 1 + 10 * i + 10 ≤ length bytes.now }
    ensures { result ≡ unused_name bytes.now i }
{
    let name = u64::from_be_bytes(array_at(bytes, 1 + 10 * i + 2));
    records_of::<10>(bytes, 1, i)
        .iter()
        .all(|earlier| u64::from_be_bytes(array_at(earlier, 2)) != name)
}

// Signal i keeps its rules. Kind and combining are bytes here: whether they stand for any is what is tested.
fn good_signal(bytes: &[u8], i: usize) -> bool
    requires { 1 + 10 * i + 10 ≤ length bytes.now }
    ensures { result ≡ signal_good bytes.now i }
{
    let at = 1 + 10 * i;
    let kind = bytes[at];
    let combining = bytes[at + 1];
    kind <= 2
        && combining <= 2
        && (kind != 0 || combining == 0)
        && bytes[at + 2] != 0
        && tidy_name(bytes, at + 2)
        && new_name(bytes, i)
}

// The owner and owner state of automaton k, where the first automaton stands at `first`.
fn good_owner(bytes: &[u8], first: usize, k: usize) -> bool
    requires { first + 4 * k + 4 ≤ length bytes.now }
    ensures { result ≡ owner_good bytes.now first k }
{
    let at = first + 4 * k;
    let Some(owner) = Automaton::from(array_at(bytes, at)).owner else {
        return bytes[at + 1] == 0;
    };
    let holder = usize::from(owner.automaton);
    holder < k && owner.state < bytes[first + 4 * holder + 2]
}

// How many automata come before the first that takes their states together over 64; their count stands at a place.
// Over numbers: the last may be cut, and a cut record is no slice.
fn automata_within(bytes: &[u8], at: usize) -> usize
    requires { at < 2 ^ 32 }
    ensures { (k : ℕ) → k < byte bytes.now at → at + 1 + 4 * k + 4 ≤ length bytes.now → nat_lt k result ≡ nat_le (states_upto bytes.now (at + 1) (k + 1)) 64 }
{
    let count = usize::from(bytes.get(at).copied().unwrap_or(0));
    let mut together = 0;
    for k in 0..count {
        let Some(states) = bytes.get(at + 1 + 4 * k + 2) else {
            return k;
        };
        together += usize::from(*states);
        if together > 64 {
            return k;
        }
    }
    count
}

// Automaton k keeps its rules; the first `within` automata have at most 64 states together, and no more of them have.
fn good_automaton(bytes: &[u8], first: usize, k: usize, within: usize) -> bool
    requires { (first + 4 * k + 4 ≤ length bytes.now) × (nat_lt k within ≡ nat_le (states_upto bytes.now first (k + 1)) 64) }
    ensures { result ≡ automaton_good bytes.now first k }
{
    let automaton = Automaton::from(array_at(bytes, first + 4 * k));
    good_owner(bytes, first, k)
        && 1 <= automaton.states
        && automaton.states <= 32
        && automaton.first < automaton.states
        && k < within
}

// The inputs among the signals, as a mask.
fn inputs_of(bytes: &[u8]) -> u64
    requires { (1 + 10 * byte bytes.now 0 ≤ length bytes.now) × (byte bytes.now 0 ≤ 64) }
    ensures { AreInputs bytes.now result }
{
    let signals = records_of::<10>(bytes, 1, usize::from(bytes[0]));
    let mut inputs = 0;
    for (s, signal) in signals.iter().enumerate() {
        if Kind::from(signal[0]) == Kind::Input {
            inputs = with_bit(inputs, s);
        }
    }
    inputs
}

// Whether a mask has only bits of the signals.
fn good_mask(mask: u64, signals: u8) -> bool
    ensures { result ≡ mask_good signals mask }
{
    signals >= 64 || mask >> signals == 0
}

// The masks of a transition, given how many signals there are and which of them are inputs.
fn good_masks(bytes: &[u8], inputs: u64, transition: &Transition) -> bool
    requires { (1 + 10 * byte bytes.now 0 ≤ length bytes.now) × AreInputs bytes.now inputs }
    ensures { result ≡ masks_good bytes.now transition.now.needed transition.now.forbidden transition.now.emitted }
{
    let signals = bytes[0];
    good_mask(transition.needed, signals)
        && good_mask(transition.forbidden, signals)
        && good_mask(transition.emitted, signals)
        && transition.needed & transition.forbidden == 0
        && transition.emitted & inputs == 0
}

// Transition i keeps its rules; the automata's count stands at `automata`, the first transition at `first`.
fn good_transition(bytes: &[u8], inputs: u64, automata: usize, first: usize, i: usize) -> bool
    requires { ((first + 31 * i + 31 ≤ length bytes.now) × AreInputs bytes.now inputs) × ((automata ≡ 1 + 10 * byte bytes.now 0) × (first ≡ automata + 1 + 4 * byte bytes.now automata + 1)) }
    ensures { result ≡ transition_good bytes.now automata first i }
{
    let transition = Transition::from(array_at(bytes, first + 31 * i));
    if transition.automaton >= bytes[automata] {
        return false;
    }
    let states = bytes[automata + 1 + 4 * usize::from(transition.automaton) + 2];
    transition.source < states
        && transition.target < states
        && good_masks(bytes, inputs, &transition)
}

// The count at a place, from low to high.
fn read_count(bytes: &[u8], at: usize, low: u8, high: u8) -> Result<u8, ChartFault>
    ensures { result ≡ counted low high bytes.now at }
{
    if bytes.len() <= at {
        return Err(ChartFault::EndsEarly(bytes.len()));
    }
    let count = bytes[at];
    if count < low || high < count {
        return Err(ChartFault::CountOutOfRange(at));
    }
    Ok(count)
}

// A section: the count at a place, from low to high, and that many records of N bytes, each of which passes a test.
// The answer is the place after them.
fn check_section<const N: usize, G: Fn(usize) -> bool, F: Fn(usize) -> ChartFault>(
    bytes: &[u8],
    at: usize,
    low: u8,
    high: u8,
    good: G,
    broken: F,
) -> Result<usize, ChartFault>
    requires room { at + N * 256 < 2 ^ 32 }
    requires tests { (i : ℕ) → i < byte bytes.now at → at + 1 + N * i + N ≤ length bytes.now → G.pre good i }
    requires faults { F.IsAlwaysCallable broken }
    ensures { (test : ℕ → Bool) (fault : ℕ → ChartFault) → Gives (G.post good) test → Gives (F.post broken) fault → result ≡ section low high N test fault bytes.now at }
{
    let count = usize::from(read_count(bytes, at, low, high)?);
    let first = at + 1;
    // Over numbers: the test takes a record's number, and a cut record is no slice.
    for i in 0..count {
        let place = first + N * i;
        if bytes.len() < place + N {
            return Err(ChartFault::EndsEarly(bytes.len()));
        }
        if !good(i) {
            return Err(broken(place));
        }
    }
    Ok(first + N * count)
}

// The three sections one after the other, and nothing more.
fn walk(bytes: &[u8]) -> Result<(), ChartFault>
    ensures { result ≡ verdict bytes.now }
{
    let automata = check_section::<10, _, _>(
        bytes,
        0,
        1,
        64,
        |i| good_signal(bytes, i),
        ChartFault::BrokenSignal,
    )?;
    let within = automata_within(bytes, automata);
    let transitions = check_section::<4, _, _>(
        bytes,
        automata,
        1,
        32,
        |k| good_automaton(bytes, automata + 1, k, within),
        ChartFault::BrokenAutomaton,
    )?;
    let inputs = inputs_of(bytes);
    let end = check_section::<31, _, _>(
        bytes,
        transitions,
        0,
        128,
        |i| good_transition(bytes, inputs, automata, transitions + 1, i),
        ChartFault::BrokenTransition,
    )?;
    if end < bytes.len() {
        return Err(ChartFault::BytesRemain(end));
    }
    Ok(())
}

// Whether a file keeps the layout; if not, its first fault in file order.
pub fn check(bytes: &[u8]) -> Result<(), ChartFault>
    ensures verdict { result ≡ verdict bytes.now }
    ensures accepts { (result ≡ Ok tt → Layout bytes.now) × (Layout bytes.now → result ≡ Ok tt) }
{
    walk(bytes)
}
