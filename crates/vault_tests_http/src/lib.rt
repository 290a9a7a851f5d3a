//! Tests of HTTP exchanges that need a reader, a writer or a refused growth: requests that break off, and answers that can't
//! be written. And of both doors of a server: who hears of commands, and when.
#![tactic(auto)]

#[cfg(test)]
mod cuts;
#[cfg(test)]
mod doors;
#[cfg(test)]
mod exchange;
#[cfg(test)]
mod growths;
#[cfg(test)]
mod known_peer;
#[cfg(test)]
mod rows;
#[cfg(test)]
mod serving;
#[cfg(test)]
mod vault;
#[cfg(test)]
mod writers;
