// The line of an accepted instant: its length, and its bytes.
ghost use Rattle.std.specs.Prelude.{◌≡◌, ◌+◌, ◌≤◌, [], length, decimal, Some, slice_index_or};
ghost use Rattle.std.specs.List.{slice_get};
ghost use Rattle.arrayvec.specs.ArrayString.{array_string_len};
ghost use Rattle.trace.specs.Line.{StatesWithin, write_answer, chart_of, signal_text, signals_text, space_held, states_text, told_line, value_text, values_of, write_buffer};
ghost use Rattle.trace.specs.Pieces.{Appends, Room};

use arrayvec::ArrayString;
use chart::signal::{Kind, Signal};
use chart::view::Chart;
use itoa::{Buffer, Integer};
use reaction::fault::InstantFault;
use reaction::value::{is_present, value};
use status::configuration::Configuration;
use status::fired::Fired;
use status::status::Status;
use std::{fmt, str};

// The longest line: a count of ten digits, 64 outputs of twenty bytes, 32 states of four bytes, and four bytes around them.
const LONGEST: usize = 1422;

// The text of a line, or of its first pieces. Each piece requires its own room: one that tested for it could fail.
type Text = ArrayString<LONGEST>;

// What a line tells: the new count, the statuses of the signals, what fired, and the configuration after it.
#[derive(Clone, Copy)]
pub struct Line<'a, 'b, 'c> {
    pub chart: Chart<'a>,
    pub count: u32,
    pub statuses: &'b [Status],
    pub fired: Fired,
    pub after: &'c Configuration,
}

// A number in decimal.
fn push_number<I: Integer>(text: &mut Text, n: I)
    requires { Room I.MAX_STR_LEN text.old }
    ensures { Appends (I.text n) I.MAX_STR_LEN text.old text.new }
{
    text.push_str(Buffer::new().format(n));
}

// The value of an output, if it has one.
fn push_value(text: &mut Text, value: Option<u32>)
    requires { Room 11 text.old }
    ensures { Appends (value_text value) 11 text.old text.new }
{
    if let Some(n) = value {
        text.push_str("=");
        push_number(text, n);
    }
}

// A space and the state that an automaton holds, or `-`.
fn push_state(text: &mut Text, held: Option<u8>)
    requires { Room 4 text.old }
    ensures { Appends (space_held held) 4 text.old text.new }
{
    text.push_str(" ");
    match held {
        Some(state) => push_number(text, state),
        None => text.push_str("-"),
    }
}

impl Line<'_, '_, '_> {
    // The name of signal s.
    #[tactic(auto, using(crate::proofs::Pieces::name_short))]
    fn name(&self, s: usize) -> &str
        ensures named { result.now ≡ slice_index_or (chart_of self.now).names s [] }
        ensures short { length result.now ≤ 8 }
    {
        str::from_utf8(self.chart.name(s).bytes).unwrap()
    }

    // Signal s, if it is a present output.
    #[tactic(auto, using(crate::proofs::Pieces::shown_text, std::proofs::lemmas::List::append_assoc))]
    fn push_signal(&self, text: &mut Text, s: usize, signal: Signal)
        requires room { Room 20 text.old }
        requires signal { slice_get (chart_of self.now).signals s ≡ Some signal }
        ensures { Appends (signal_text (chart_of self.now) self.now.statuses.now (values_of self.now) s) 20 text.old text.new }
    {
        if matches!(signal.kind, Kind::Output) && is_present(self.statuses, s) {
            text.push_str(" ");
            text.push_str(self.name(s));
            push_value(text, value(&self.chart, self.fired, self.statuses, s));
        }
    }

    // The present outputs, in number order.
    fn push_signals(&self, text: &mut Text)
        requires { Room 1280 text.old }
        ensures { Appends (signals_text (chart_of self.now) self.now.statuses.now (values_of self.now)) 1280 text.old text.new }
    {
        for (s, signal) in self.chart.all_signals().enumerate() {
            self.push_signal(text, s, signal);
        }
    }

    // The states of the automata.
    fn push_states(&self, text: &mut Text)
        requires { Room 128 text.old }
        ensures { Appends (states_text (chart_of self.now) self.now.after.now.states) 128 text.old text.new }
    {
        for held in self.after.states.iter().take(self.chart.automata()) {
            push_state(text, *held);
        }
    }

    // The whole line, into an empty text of the caller's: answered by value, it would be copied.
    #[tactic(auto, unfolding(crate::specs::Line::line_of))]
    fn compose(&self, text: &mut Text)
        requires { text.old.bytes ≡ [] }
        ensures told { text.new.bytes ≡ told_line self.now }
        ensures short { array_string_len text.new ≤ length (decimal self.now.count) + 1284 + length (states_text (chart_of self.now) self.now.after.now.states) }
    {
        push_number(text, self.count);
        text.push_str(":");
        self.push_signals(text);
        text.push_str(" /");
        self.push_states(text);
        text.push_str("\n");
    }

    // How long the line is.
    #[tactic(auto, using(crate::proofs::Longest::counted_short))]
    pub fn length(&self) -> usize
        ensures exact { result ≡ length (told_line self.now) }
        ensures longest { self.now.count ≤ 1000000 → StatesWithin (chart_of self.now) self.now.after.now.states → result ≤ 1358 }
    {
        let mut text = Text::new();
        self.compose(&mut text);
        text.len()
    }

    // Writes the line at the front of a buffer, if it fits.
    pub fn write(&self, buffer: &mut [u8]) -> Result<usize, InstantFault>
        ensures answer { result ≡ write_answer (told_line self.now) (length buffer.old) }
        ensures after { buffer.new ≡ write_buffer (told_line self.now) buffer.old }
    {
        let mut text = Text::new();
        self.compose(&mut text);
        let length = text.len();
        if buffer.len() < length {
            return Err(InstantFault::LongLine(length));
        }
        buffer[..length].copy_from_slice(text.as_bytes());
        Ok(length)
    }
}

// The line as text.
impl fmt::Display for Line<'_, '_, '_> {
    ghost output = { λ x. Some (told_line x) };

    fn fmt<W: fmt::Write>(&self, f: &mut fmt::Formatter<W>) -> fmt::Result {
        let mut text = Text::new();
        self.compose(&mut text);
        f.write_str(text.as_str())
    }
}
