//! Tests over tables, in memory and in files: commands from tables to tables; how many steps a read takes; how often files
//! are read; and files that fail from some call on, for each call.
#![tactic(auto)]

#[cfg(test)]
mod calls;
#[cfg(test)]
mod file_reads;
#[cfg(test)]
mod in_tables;
#[cfg(test)]
mod lookups;
#[cfg(test)]
mod stopped_days;
