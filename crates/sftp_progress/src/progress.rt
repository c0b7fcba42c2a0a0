//! Where it is said how far a run is, and when.

use crate::reaches::{Reach, Task};
use std::fmt::Display;
use std::fs::Files;
use std::io::{IsTerminal, Write};
use std::time::{Clock, Duration, Instant};
use std::{fs, io};

/// How many milliseconds nothing is said.
pub(crate) const QUIET: u64 = 2_000;

/// How many milliseconds a line stays on a terminal before the next one takes its place.
const ON_TERMINAL: u64 = 500;

/// How many milliseconds it is from one line to the next elsewhere.
pub(crate) const ELSEWHERE: u64 = 10_000;

/// More spaces than a line has characters.
const SPACES: &str =
    "                                                                                                ";

/// Standard error, and whether a run says there how far it is also where that is no terminal.
#[derive(Drop)]
pub struct Console<'c, E> {
    pub errors: &'c mut E,
    pub says_progress: bool,
}

/// Where lines go that say how far a run is.
#[derive(Clone, Copy)]
enum Place {
    /// To a terminal, on which so many characters of the line are taken.
    Terminal(usize),
    /// To a file or a pipe.
    Elsewhere,
    /// Nowhere.
    Nowhere,
}

/// How far a task is, and when that is said next.
#[derive(Drop)]
pub struct Progress<'p, R, E> {
    rt: &'p R,
    errors: &'p mut E,
    place: Place,
    /// When the next line is due; not at all, if the clock does not say it.
    due: Option<Instant>,
    reach: Reach,
}

impl<'p, R: Files + AllocGlobal + Clock, E: Write + IsTerminal> Progress<'p, R, E> {
    /// The task begins. How far it is, is said on a terminal, and elsewhere if that is asked for. If the file has a
    /// size that it reads, that is the total.
    pub fn new(
        rt: &'p R,
        errors: &'p mut E,
        is_asked: bool,
        task: Task,
        file: Option<&str>,
    ) -> Progress<'p, R, E> {
        let place = if errors.is_terminal() {
            Place::Terminal(0)
        } else if is_asked {
            Place::Elsewhere
        } else {
            Place::Nowhere
        };
        let due = match place {
            Place::Nowhere => None,
            _ => after(rt, QUIET),
        };
        Progress {
            rt,
            errors,
            place,
            due,
            reach: Reach {
                task,
                bytes: 0,
                total: size_of(rt, file),
                records: task.records(),
            },
        }
    }
}

/// The size of the file of this name, if it is a regular file.
fn size_of<R: Files>(rt: &R, name: Option<&str>) -> Option<u64> {
    match fs::metadata(rt, name?) {
        Ok(found) if found.is_file() => Some(found.len()),
        _ => None,
    }
}

/// When so many milliseconds are over, if the clock says it.
pub(crate) fn after<R: Clock>(rt: &R, milliseconds: u64) -> Option<Instant> {
    match Instant::now(rt) {
        Ok(now) => now.checked_add(Duration::from_millis(milliseconds)),
        Err(_) => None,
    }
}

impl<R: Files + AllocGlobal + Clock, E: Write> Progress<'_, R, E> {
    /// These bytes were read or written. Says so if a line is due.
    pub(crate) fn pass(&mut self, bytes: &[u8]) {
        if let Some(due) = self.due {
            self.reach.pass(bytes);
            if is_over(self.rt, due) {
                self.say();
            }
        }
    }

    /// Says how far the task is.
    fn say(&mut self) {
        match self.place {
            Place::Terminal(taken) => self.say_over(taken),
            Place::Elsewhere => {
                let reach = self.reach;
                say(self.errors, format_args!("{reach}\n"));
                self.due = after(self.rt, ELSEWHERE);
            }
            Place::Nowhere => self.due = None,
        }
    }

    /// The task ended, or failed. Nothing of it is left on a terminal.
    pub fn end(self) {
        if let Place::Terminal(taken) = self.place {
            let cover = spaces(taken);
            if !cover.is_empty() {
                say(self.errors, format_args!("\r{cover}\r"));
            }
        }
    }

    /// Says it over a line of so many characters, unless there is no memory for the text.
    fn say_over(&mut self, taken: usize) {
        let reach = self.reach;
        if let Ok(text) = format!(in self.rt.alloc(); "{reach}") {
            let rest = spaces(taken.saturating_sub(text.len()));
            say(self.errors, format_args!("\r{text}{rest}"));
            self.place = Place::Terminal(text.len());
            drop(text);
        }
        self.due = after(self.rt, ON_TERMINAL);
    }
}

/// Whether this moment is over.
pub(crate) fn is_over<R: Clock>(rt: &R, moment: Instant) -> bool {
    match Instant::now(rt) {
        Ok(now) => now >= moment,
        Err(_) => false,
    }
}

/// So many spaces, or as many as there are.
fn spaces(count: usize) -> &'static str {
    SPACES.get(..count).unwrap_or(SPACES)
}

/// Writes a text. Nobody misses it if the stream cannot be written.
pub(crate) fn say<E: Write, D: Display + Drop>(errors: &mut E, text: D) {
    let _ = put(errors, text);
}

fn put<E: Write, D: Display + Drop>(errors: &mut E, text: D) -> io::Result<()> {
    write!(errors, "{text}")?;
    errors.flush()?;
    Ok(())
}
