//! Bytes of a file that the session has: where they are in the file, and where in the transcript.

use sftp_path::NoMemory;
use std::alloc::Global;
use std::collections::{BTreeMap, btree_map};

/// Some bytes in a row.
#[derive(Clone, Copy)]
pub(crate) struct Piece {
    /// How many they are.
    pub(crate) len: u64,
    /// Where the first one is in the transcript.
    pub(crate) from: usize,
    /// The number of the record that has them.
    pub(crate) told: u64,
}

impl Piece {
    /// The same bytes without the first ones.
    pub(crate) fn without(self, count: u64) -> Piece {
        Piece {
            len: self.len.saturating_sub(count),
            from: self.from.saturating_add(count as usize),
            told: self.told,
        }
    }

    /// The first ones of these bytes.
    fn first(self, count: u64) -> Piece {
        Piece {
            len: self.len.min(count),
            from: self.from,
            told: self.told,
        }
    }
}

/// A piece as it is kept: shorter than a packet.
#[derive(Clone, Copy)]
pub(crate) struct Kept {
    len: u32,
    told: u32,
    from: usize,
}

impl Kept {
    fn of(piece: Piece) -> Kept {
        Kept {
            len: u32::try_from(piece.len).unwrap_or(u32::MAX),
            told: u32::try_from(piece.told).unwrap_or(u32::MAX),
            from: piece.from,
        }
    }

    pub(crate) fn piece(self) -> Piece {
        Piece {
            len: u64::from(self.len),
            from: self.from,
            told: u64::from(self.told),
        }
    }
}

/// Pieces of one file, no two of which overlap, by their offsets.
#[derive(Drop)]
pub(crate) struct Pieces {
    by_offset: BTreeMap<u64, Kept>,
}

/// What is known from an offset on.
#[derive(Clone, Copy)]
pub(crate) enum Known {
    /// The bytes of this piece.
    Bytes(Piece),
    /// Nothing, for so many bytes.
    Gap(u64),
}

impl Pieces {
    pub(crate) fn new(alloc: Global) -> Pieces {
        Pieces {
            by_offset: BTreeMap::new(alloc),
        }
    }

    /// How many pieces there are.
    pub(crate) fn len(&self) -> usize {
        self.by_offset.len()
    }

    /// The pieces by their offsets.
    pub(crate) fn iter(&self) -> btree_map::Iter<'_, u64, Kept> {
        self.by_offset.iter()
    }

    /// The last piece that begins at this offset or before it.
    fn before(&self, offset: u64) -> Option<(u64, Piece)> {
        match self.by_offset.range(..=offset).next_back() {
            Some((offset, kept)) => Some((*offset, kept.piece())),
            None => None,
        }
    }

    /// The first piece that begins at this offset or behind it.
    fn from(&self, offset: u64) -> Option<(u64, Piece)> {
        match self.by_offset.range(offset..).next() {
            Some((offset, kept)) => Some((*offset, kept.piece())),
            None => None,
        }
    }

    /// What is known from this offset on.
    pub(crate) fn known(&self, offset: u64) -> Known {
        if let Some((start, piece)) = self.before(offset) {
            let skipped = offset.saturating_sub(start);
            if skipped < piece.len {
                return Known::Bytes(piece.without(skipped));
            }
        }
        match self.from(offset) {
            Some((next, _)) => Known::Gap(next.saturating_sub(offset)),
            None => Known::Gap(u64::MAX),
        }
    }

    /// Puts a piece in the place of what is known there.
    pub(crate) fn put(&mut self, offset: u64, piece: Piece) -> Result<(), NoMemory> {
        if piece.len == 0 {
            return Ok(());
        }
        self.clear(offset, offset.saturating_add(piece.len))?;
        self.by_offset.insert(offset, Kept::of(piece))?;
        Ok(())
    }

    /// Forgets what is known from one offset up to another.
    pub(crate) fn clear(&mut self, start: u64, end: u64) -> Result<(), NoMemory> {
        if let Some((offset, piece)) = self.before(start) {
            self.split(offset, piece, start, end)?;
        }
        for _ in 0..self.by_offset.len() {
            match self.from(start) {
                Some((offset, piece)) if offset < end => {
                    self.by_offset.remove(&offset);
                    self.keep_behind(offset, piece, end)?;
                }
                _ => return Ok(()),
            }
        }
        Ok(())
    }

    /// Cuts the piece that begins at or before `start`, and keeps what it has outside the range.
    fn split(&mut self, offset: u64, piece: Piece, start: u64, end: u64) -> Result<(), NoMemory> {
        let kept = start.saturating_sub(offset);
        if kept >= piece.len {
            return Ok(());
        }
        if kept == 0 {
            self.by_offset.remove(&offset);
        } else {
            let front = Kept::of(piece.first(kept));
            self.by_offset.insert(offset, front)?;
        }
        self.keep_behind(offset, piece, end)
    }

    /// Keeps what a piece has behind an offset.
    fn keep_behind(&mut self, offset: u64, piece: Piece, end: u64) -> Result<(), NoMemory> {
        let rest = piece.without(end.saturating_sub(offset));
        if rest.len > 0 {
            self.by_offset.insert(end, Kept::of(rest))?;
        }
        Ok(())
    }
}
