//! When it is said how much of a long run is done, where that is counted and not read as a stream.

use crate::progress::{ELSEWHERE, QUIET, after, is_over, say};
use std::fmt::Display;
use std::io::Write;
use std::time::{Clock, Instant};

/// When a line is due that says how far a run is: after two seconds, and after every ten seconds more.
#[derive(Clone, Copy)]
pub struct Pace {
    due: Option<Instant>,
}

impl Pace {
    /// The run begins. Nothing is ever due unless lines are asked for.
    pub fn new<R: Clock>(rt: &R, is_asked: bool) -> Pace {
        Pace {
            due: if is_asked { after(rt, QUIET) } else { None },
        }
    }

    /// Writes this line if one is due.
    pub fn tell<R: Clock, E: Write, D: Display + Drop>(&mut self, rt: &R, errors: &mut E, line: D) {
        let Some(due) = self.due else {
            drop(line);
            return;
        };
        if is_over(rt, due) {
            say(errors, line);
            self.due = after(rt, ELSEWHERE);
        } else {
            drop(line);
        }
    }
}
