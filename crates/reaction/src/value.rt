// The value of a signal: its amounts, combined.
ghost use Rattle.std.specs.Prelude.{◌≡◌};
ghost use Rattle.chart.specs.Views.{decoded};
ghost use Rattle.fixpoint.specs.Marks.{marked};
ghost use Rattle.reaction.specs.Value.{amounts_of, combined_by, present, value_of};

use crate::combine::combine;
use crate::kinds::{Largest, Sum};
use arrayvec::ArrayVec;
use bits::has_bit;
use chart::signal::Combining;
use chart::view::Chart;
use status::fired::Fired;
use status::status::Status;

// Whether signal s is shown present.
pub fn is_present(statuses: &[Status], s: usize) -> bool
    ensures { result ≡ present statuses.now s }
{
    statuses.get(s).is_some_and(|status| status.present)
}

// The amounts of the fired transitions that emit signal s, in file order.
fn amounts_of(chart: &Chart, fired: Fired, s: usize) -> ArrayVec<u32, 128>
    ensures { result.items ≡ amounts_of (decoded chart.now) (marked fired.set) s }
{
    let mut amounts = ArrayVec::new();
    for (k, transition) in chart.all_transitions().enumerate() {
        if fired.has(k) & has_bit(transition.emitted, s) {
            amounts.push(transition.amount);
        }
    }
    amounts
}

// Amounts by the combining of a signal, if it has any.
// A match and no closure: each kind combines in a type of its own.
fn combine_by(combining: Combining, amounts: &[u32]) -> Option<u32>
    ensures { result ≡ combined_by combining amounts.now }
{
    match combining {
        Combining::Plain => None,
        Combining::Sum => Some(combine(&Sum, amounts).value),
        Combining::Largest => Some(combine(&Largest, amounts)),
    }
}

// The value of signal s, if it is present and has combining.
pub fn value(chart: &Chart, fired: Fired, statuses: &[Status], s: usize) -> Option<u32>
    ensures { result ≡ value_of (decoded chart.now) (marked fired.set) statuses.now s }
{
    if !is_present(statuses, s) {
        return None;
    }
    let signal = chart.signal(s)?;
    combine_by(signal.combining, &amounts_of(chart, fired, s))
}
