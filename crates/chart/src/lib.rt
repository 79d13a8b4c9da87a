// Chart files: their check, and the view on a file that keeps the layout.
#![tactic(auto)]

ghost use Rattle.std.specs.Prelude.{◌≡◌, ◌+◌, ◌*◌, ◌<◌, ◌≤◌, length, take, drop};
ghost use Rattle.chart.specs.Decoded.{name_length};
ghost use Rattle.chart.specs.Places.{records_from};

pub mod automaton;
pub mod check;
pub mod fault;
pub mod records;
pub mod signal;
pub mod transition;
pub mod view;

// The N bytes from a place on.
fn array_at<const N: usize>(bytes: &[u8], at: usize) -> [u8; N]
    requires { at + N ≤ length bytes.now }
    ensures { result ≡ take N (drop at bytes.now) }
{
    *bytes[at..].first_chunk().unwrap()
}

// The first `count` records of N bytes from a place on.
fn records_of<const N: usize>(bytes: &[u8], first: usize, count: usize) -> &[[u8; N]]
    requires size { 0 < N }
    requires room { first + N * count ≤ length bytes.now }
    ensures { result.now ≡ records_from bytes.now N first count }
{
    &bytes[first..].as_chunks().0[..count]
}

// How many bytes of a name come before the first zero.
fn length_of_name(field: &[u8]) -> usize
    ensures { result ≡ name_length field.now }
{
    field.iter().take_while(|b| **b != 0).count()
}
