//! The command line of the program: its arguments and its help, and what a command line asks for.
#![tactic(auto)]

mod arguments;
mod command_line;
mod help;
mod importing;
mod profiles;
mod requests;
mod searching;
mod several;
mod together;

pub use command_line::{Request, parse};
