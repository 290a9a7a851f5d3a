//! Moments and the calendar.
#![tactic(auto)]

mod calendar;
pub mod moment;
