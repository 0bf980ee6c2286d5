//! The words of the command line: what a command asks for, if they are in its grammar, and whether they ask for help.
#![tactic(auto)]

mod help;
mod pages;
mod request;
#[cfg(test)]
mod tests;
mod words;

pub use help::{Command, Help, help_of};
pub use request::{Kind, Request, Task};
pub use words::{mine_request_of, request_of};
