//! The rows of `settings`: each version has settings at the places 1, 2, 3 ..

pub mod placed;
pub mod present;
pub mod second_look;
