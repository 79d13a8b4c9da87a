// The view on a chart file that keeps the layout.
ghost use Rattle.std.specs.Prelude.{◌≡◌, ◌+◌, ◌*◌, ◌<◌, ◌≤◌, length, take, drop, MatchResult};
ghost use Rattle.std.specs.List.{slice_get};
ghost use Rattle.std.specs.Option.{option_map};
ghost use Rattle.chart.specs.Check.{verdict};
ghost use Rattle.chart.specs.Decoded.{decode, input};
ghost use Rattle.chart.specs.Layout.{Layout};
ghost use Rattle.chart.specs.Places.{automata_at, byte, end_of, record_of, transitions_at};
ghost use Rattle.chart.specs.View.{NamedAt};

use crate::automaton::Automaton;
use crate::check::check;
use crate::fault::ChartFault;
use crate::records::{Automata, Signals, Transitions};
use crate::signal::{Kind, Name, Signal};
use crate::transition::Transition;
use crate::{array_at, length_of_name};

// No chart exists whose bytes break a rule.
#[derive(Clone, Copy)]
pub struct Chart<'a> {
    bytes: &'a [u8],
    ghost ends: { length bytes.now ≡ end_of bytes.now },
    ghost layout: { ∥ Layout bytes.now ∥₁ },
}

// The view on a file of which the check has said that it keeps the layout.
pub fn view<'a>(bytes: &'a [u8]) -> Chart<'a>
    requires { Layout bytes.now }
    ensures { result.bytes.now ≡ bytes.now }
{
    Chart { bytes }
}

// Record i of the section whose count stands at a place, N bytes; none for any other number.
fn record<const N: usize>(bytes: &[u8], at: usize, i: usize) -> Option<[u8; N]>
    requires { at + 1 + N * byte bytes.now at ≤ length bytes.now }
    ensures { result ≡ record_of bytes.now at N i }
{
    if i >= usize::from(bytes[at]) {
        return None;
    }
    Some(array_at(bytes, at + 1 + N * i))
}

// The clauses write `decode self.now.bytes.now` out: this file cannot import a definition over the `Chart` that it declares.
impl<'a> Chart<'a> {
    // The check and the view in one: the chart of a file that keeps the layout, or the first fault of any other.
    pub fn open(bytes: &'a [u8]) -> Result<Chart<'a>, ChartFault>
        ensures { MatchResult result (λ c. (verdict bytes.now ≡ Ok tt) × (c.bytes.now ≡ bytes.now)) (λ fault. verdict bytes.now ≡ Err fault) }
    {
        check(bytes)?;
        Ok(view(bytes))
    }

    // The place of the automata's count.
    fn automata_at(&self) -> usize
        ensures { (result ≡ automata_at self.now.bytes.now) × (result < length self.now.bytes.now) }
    {
        1 + 10 * usize::from(self.bytes[0])
    }

    // The place of the transitions' count.
    fn transitions_at(&self) -> usize
        ensures { (result ≡ transitions_at self.now.bytes.now) × (result < length self.now.bytes.now) }
    {
        let at = self.automata_at();
        at + 1 + 4 * usize::from(self.bytes[at])
    }

    // How many signals there are.
    pub fn signals(&self) -> usize
        ensures { result ≡ length (decode self.now.bytes.now).signals }
    {
        let count = self.bytes[0];
        usize::from(count)
    }

    // How many automata there are.
    pub fn automata(&self) -> usize
        ensures { result ≡ length (decode self.now.bytes.now).automata }
    {
        usize::from(self.bytes[self.automata_at()])
    }

    // How many transitions there are.
    pub fn transitions(&self) -> usize
        ensures { result ≡ length (decode self.now.bytes.now).transitions }
    {
        usize::from(self.bytes[self.transitions_at()])
    }

    // Signal i.
    pub fn signal(&self, i: usize) -> Option<Signal>
        ensures { result ≡ slice_get (decode self.now.bytes.now).signals i }
    {
        record(self.bytes, 0, i).map(Signal::from)
    }

    // Whether signal i is an input.
    pub fn is_input(&self, i: usize) -> bool
        ensures { result ≡ input (decode self.now.bytes.now) i }
    {
        self.signal(i)
            .is_some_and(|signal| signal.kind == Kind::Input)
    }

    // The name of signal i; for any other number the file's empty end.
    pub fn name(&self, i: usize) -> Name<'a>
        ensures { NamedAt self.now.bytes.now i result.bytes.now result.place }
    {
        let bytes = self.bytes;
        if i >= usize::from(bytes[0]) {
            let place = bytes.len();
            return Name {
                bytes: &bytes[place..],
                place,
            };
        }
        let place = 1 + 10 * i + 2;
        let rest = &bytes[place..];
        let length = length_of_name(&rest[..8]);
        Name {
            bytes: &rest[..length],
            place,
        }
    }

    // Automaton k.
    pub fn automaton(&self, k: usize) -> Option<Automaton>
        ensures { result ≡ slice_get (decode self.now.bytes.now).automata k }
    {
        record(self.bytes, self.automata_at(), k).map(Automaton::from)
    }

    // Transition i.
    pub fn transition(&self, i: usize) -> Option<Transition>
        ensures { result ≡ slice_get (decode self.now.bytes.now).transitions i }
    {
        record(self.bytes, self.transitions_at(), i).map(Transition::from)
    }

    // The automaton of transition i.
    pub fn automaton_of(&self, i: usize) -> Option<u8>
        ensures { result ≡ option_map (λ t. t.automaton) (slice_get (decode self.now.bytes.now).transitions i) }
    {
        Some(self.transition(i)?.automaton)
    }

    // The source of transition i.
    pub fn source(&self, i: usize) -> Option<u8>
        ensures { result ≡ option_map (λ t. t.source) (slice_get (decode self.now.bytes.now).transitions i) }
    {
        Some(self.transition(i)?.source)
    }

    // The target of transition i.
    pub fn target(&self, i: usize) -> Option<u8>
        ensures { result ≡ option_map (λ t. t.target) (slice_get (decode self.now.bytes.now).transitions i) }
    {
        Some(self.transition(i)?.target)
    }

    // The signals that transition i needs.
    pub fn needed(&self, i: usize) -> Option<u64>
        ensures { result ≡ option_map (λ t. t.needed) (slice_get (decode self.now.bytes.now).transitions i) }
    {
        Some(self.transition(i)?.needed)
    }

    // The signals that transition i forbids.
    pub fn forbidden(&self, i: usize) -> Option<u64>
        ensures { result ≡ option_map (λ t. t.forbidden) (slice_get (decode self.now.bytes.now).transitions i) }
    {
        Some(self.transition(i)?.forbidden)
    }

    // The signals that transition i emits.
    pub fn emitted(&self, i: usize) -> Option<u64>
        ensures { result ≡ option_map (λ t. t.emitted) (slice_get (decode self.now.bytes.now).transitions i) }
    {
        Some(self.transition(i)?.emitted)
    }

    // The amount of transition i.
    pub fn amount(&self, i: usize) -> Option<u32>
        ensures { result ≡ option_map (λ t. t.amount) (slice_get (decode self.now.bytes.now).transitions i) }
    {
        Some(self.transition(i)?.amount)
    }

    // The signals, in file order.
    pub fn all_signals(&self) -> Signals<'a>
        ensures { drop result.next (decode result.chart.bytes.now).signals ≡ (decode self.now.bytes.now).signals }
    {
        Signals::all(*self)
    }

    // The automata, in file order.
    pub fn all_automata(&self) -> Automata<'a>
        ensures { drop result.next (decode result.chart.bytes.now).automata ≡ (decode self.now.bytes.now).automata }
    {
        Automata::all(*self)
    }

    // The transitions, in file order.
    pub fn all_transitions(&self) -> Transitions<'a>
        ensures { drop result.next (decode result.chart.bytes.now).transitions ≡ (decode self.now.bytes.now).transitions }
    {
        Transitions::all(*self)
    }
}
