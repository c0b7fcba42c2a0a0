//! The requests that are not answered yet.

use crate::records::Recorded;
use sftp_transcript::WINDOW;
use std::alloc::{AllocError, Global};
use std::collections::VecDeque;

/// The requests from the oldest one that is not answered on, at most as many as a session may have. Those that are
/// answered leave their places empty; the first place is not empty.
#[derive(Drop)]
pub(crate) struct Flight {
    places: VecDeque<Option<Recorded>>,
}

impl Flight {
    /// No requests.
    pub(crate) fn new(alloc: Global) -> Flight {
        Flight {
            places: VecDeque::new(alloc),
        }
    }

    /// Whether there is no place for a further request.
    pub(crate) fn is_full(&self) -> bool {
        self.places.len() >= WINDOW
    }

    /// How many places there are.
    pub(crate) fn len(&self) -> usize {
        self.places.len()
    }

    /// Adds a request that was asked after all others.
    pub(crate) fn push(&mut self, asked: Recorded) -> Result<(), AllocError> {
        self.places.push_back(Some(asked))?;
        Ok(())
    }

    /// Takes the oldest request with this id.
    pub(crate) fn take(&mut self, id: u32) -> Option<Recorded> {
        let place = self.place_of(id)?;
        let taken = match self.places.get_mut(place) {
            Some(asked) => asked.take(),
            None => None,
        };
        self.drop_empty();
        taken
    }

    /// Takes the oldest request.
    pub(crate) fn take_oldest(&mut self) -> Option<Recorded> {
        let oldest = self.places.pop_front();
        self.drop_empty();
        oldest.flatten()
    }

    /// The number of the oldest request's record.
    pub(crate) fn oldest(&self) -> Option<u64> {
        match self.places.front() {
            Some(Some(asked)) => Some(asked.number),
            Some(None) => None,
            None => None,
        }
    }

    /// The place of the oldest request with this id.
    fn place_of(&self, id: u32) -> Option<usize> {
        for place in 0..self.places.len() {
            if has_id(self.places.get(place), id) {
                return Some(place);
            }
        }
        None
    }

    /// Removes the empty places in front.
    fn drop_empty(&mut self) {
        for _ in 0..self.places.len() {
            if self.oldest().is_some() {
                return;
            }
            drop(self.places.pop_front());
        }
    }
}

/// Whether a place has a request with this id.
fn has_id(place: Option<&Option<Recorded>>, id: u32) -> bool {
    match place {
        Some(Some(asked)) => match asked.request() {
            Some(request) => request.id == id,
            None => false,
        },
        Some(None) => false,
        None => false,
    }
}
