//! The listings of a session: which replies gave the names of each directory that was opened. A listing has what was
//! there when its directory was opened, so a pass takes all of it then, and nothing that is changed later matters.

use crate::exchanges::Exchange;
use crate::handles::{Handles, Opened};
use sftp_path::NoMemory;
use sftp_wire::{Answer, Ask, status};
use std::alloc::Global;
use std::collections::BTreeMap;

/// A reply that gave names: where its packet begins in the transcript, and the number of its record.
#[derive(Clone, Copy)]
pub(crate) struct Part {
    pub(crate) from: usize,
    pub(crate) replied: u64,
}

/// What a listing gave.
#[derive(Drop)]
pub(crate) struct Listed {
    pub(crate) parts: Vec<Part>,
    /// The record that told that these were all names; 0 if none did.
    pub(crate) end: u64,
}

/// The listings of a session.
#[derive(Drop)]
pub(crate) struct Listings {
    alloc: Global,
    /// By the numbers of the records of the requests that opened them.
    each: BTreeMap<u64, Listed>,
    /// What is open at the exchange at hand.
    open: Handles,
}

impl Listings {
    pub(crate) fn new(alloc: Global) -> Listings {
        Listings {
            alloc,
            each: BTreeMap::new(alloc),
            open: Handles::new(alloc),
        }
    }

    /// What the listing gave that was opened by the request with this number, if it gave anything.
    pub(crate) fn get(&self, opened: u64) -> Option<&Listed> {
        self.each.get(&opened)
    }

    /// Notes the next exchange of the session.
    pub(crate) fn note(&mut self, exchange: Exchange<'_>) -> Result<(), NoMemory> {
        match (exchange.ask, exchange.answer) {
            (Ask::Opendir { .. }, Answer::Handle(handle)) => {
                self.open(exchange, handle.as_slice(), true)
            }
            (Ask::Open { .. }, Answer::Handle(handle)) => {
                self.open(exchange, handle.as_slice(), false)
            }
            (Ask::Close { handle }, Answer::Status { code, .. }) if *code == status::OK => {
                self.open.remove(handle.as_slice());
                Ok(())
            }
            (Ask::Readdir { handle }, Answer::Name(_)) => self.add(exchange, handle.as_slice()),
            (Ask::Readdir { handle }, Answer::Status { code, .. }) if *code == status::EOF => {
                self.end(exchange, handle.as_slice())
            }
            _ => Ok(()),
        }
    }

    fn open(
        &mut self,
        exchange: Exchange<'_>,
        handle: &[u8],
        is_listing: bool,
    ) -> Result<(), NoMemory> {
        let opened = Opened {
            entry: 0,
            told: exchange.replied,
            asked: exchange.asked,
            is_listing,
            flags: 0,
        };
        self.open.insert(self.alloc, handle, opened)
    }

    /// The request that opened the listing of a handle, if it is one.
    fn opened(&self, handle: &[u8]) -> Option<u64> {
        match self.open.get(handle) {
            Some(opened) if opened.is_listing => Some(opened.asked),
            _ => None,
        }
    }

    /// Adds a reply to the listing of a handle.
    fn add(&mut self, exchange: Exchange<'_>, handle: &[u8]) -> Result<(), NoMemory> {
        let part = Part {
            from: exchange.answer_from,
            replied: exchange.replied,
        };
        if let Some(opened) = self.opened(handle) {
            self.require(opened)?;
            if let Some(listed) = self.each.get_mut(&opened) {
                listed.parts.push(part)?;
            }
        }
        Ok(())
    }

    /// Notes that the listing of a handle gave all names.
    fn end(&mut self, exchange: Exchange<'_>, handle: &[u8]) -> Result<(), NoMemory> {
        if let Some(opened) = self.opened(handle) {
            self.require(opened)?;
            if let Some(listed) = self.each.get_mut(&opened) {
                if listed.end == 0 {
                    listed.end = exchange.replied;
                }
            }
        }
        Ok(())
    }

    /// Adds a listing that gave nothing, unless it is there.
    fn require(&mut self, opened: u64) -> Result<(), NoMemory> {
        if !self.each.contains_key(&opened) {
            let parts = Vec::new(self.alloc);
            self.each.insert(opened, Listed { parts, end: 0 })?;
        }
        Ok(())
    }
}
