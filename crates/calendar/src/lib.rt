// Gregorian dates of the years 1 to 9999, their day numbers, and the scalars that are stored for them.
// No function demands anything of its caller: what is not in the calendar is an answer.
#![tactic(auto)]

pub mod civil;
pub mod date;
mod gregorian;
