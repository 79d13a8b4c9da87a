// A set of states: their numbers, from 0 to 31.
pub use bits::set::NumberSet as StateSet;
