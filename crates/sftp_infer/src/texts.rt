//! The bytes of a tree file in parts, most of which the session has.
ghost use Rattle.std.specs.Prelude.{◌≡◌, ◌++◌, ◌<◌, ◌≤◌, [], Some, false, length, take, drop, IfOk};
ghost use Rattle.sftp_infer.specs.Texts.{front, part_of, part_bytes, bytes_of, joined, left_of};

use sftp_path::NoMemory;
use sftp_streams::{Failed, Source};
use std::alloc::Global;

/// Some bytes of a tree file.
#[derive(Drop)]
enum Part {
    /// Bytes that were made.
    Made(Vec<u8>),
    /// Bytes that the session has: where they begin there, and how many they are.
    Given(usize, usize),
    /// So many zeros, at most `RUN`.
    Zeros(usize),
}

/// How many bytes have to be in a row for a part of their own: fewer are copied.
const LONG: usize = 64;

/// How many bytes a part has, about, when another one is begun for what is copied.
const FULL: usize = 4_096;

/// The zeros that are there once, for all parts of zeros.
const RUN: usize = 65_536;

/// So many bytes, or as many as there are.
fn front(bytes: &[u8], len: usize) -> &[u8]
    ensures { result.now ≡ front len bytes.now }
{
    let count = len.min(bytes.len());
    &bytes[..count]
}

/// So many bytes from a place on, as far as they are there.
fn part_of(bytes: &[u8], from: usize, len: usize) -> &[u8]
    ensures { result.now ≡ part_of bytes.now from len }
{
    let start = from.min(bytes.len());
    front(&bytes[start..], len)
}

fn part_bytes<'t>(session: &'t [u8], zeros: &'t [u8], part: &'t Part) -> &'t [u8]
    ensures { result.now ≡ part_bytes session.now zeros.now part.now }
{
    match part {
        Part::Made(bytes) => bytes.as_slice(),
        Part::Given(from, len) => part_of(session, *from, *len),
        Part::Zeros(len) => front(zeros, *len),
    }
}

/// The bytes of the first part that has some, and the parts behind it.
#[tactic(auto, unfolding(crate::specs::Texts::joined))]
fn next_part<'t>(session: &'t [u8], zeros: &'t [u8], parts: &'t [Part]) -> (&'t [u8], &'t [Part])
    ensures kept { result.0.now ++ joined session.now zeros.now result.1.now ≡ joined session.now zeros.now parts.now }
    ensures found { result.0.now ≡ [] → result.1.now ≡ [] }
{
    let mut left = parts;
    'parts: while let Some((part, behind)) = left.split_first() {
        left = behind;
        let bytes = part_bytes(session, zeros, part);
        if !bytes.is_empty() {
            return (bytes, left);
        }
    }
    (&[], left)
}

/// Copies the first bytes to the front of a buffer, as many as fit, and returns how many these are.
fn give(bytes: &[u8], buffer: &mut [u8]) -> usize
    ensures within { result ≤ length buffer.new }
    ensures some { result ≤ length bytes.now }
    ensures copied { bytes.now ≡ take result buffer.new ++ drop result bytes.now }
    ensures end { result ≡ 0 → 0 < length buffer.new → bytes.now ≡ [] }
{
    let count = bytes.len().min(buffer.len());
    buffer[..count].copy_from_slice(&bytes[..count]);
    count
}

/// The bytes of a tree file. Those of files are where the session has them.
#[derive(Drop)]
pub struct TreeText<'a> {
    alloc: Global,
    session: &'a [u8],
    zeros: Vec<u8>,
    parts: Vec<Part>,
}

impl<'a> TreeText<'a> {
    /// No bytes yet, of a tree file of which this session has bytes.
    ///
    /// # Errors
    ///
    /// `NoMemory` if memory runs out.
    pub(crate) fn new(alloc: Global, session: &'a [u8]) -> Result<TreeText<'a>, NoMemory> {
        Ok(TreeText {
            alloc,
            session,
            zeros: vec![in alloc; 0; RUN]?,
            parts: Vec::new(alloc),
        })
    }

    /// Appends bytes, which are copied.
    ///
    /// # Errors
    ///
    /// `NoMemory` if memory runs out.
    pub(crate) fn push(&mut self, bytes: &[u8]) -> Result<(), NoMemory> {
        if let Some(Part::Made(last)) = self.parts.last_mut() {
            if last.len() < FULL {
                last.extend_from_slice(bytes)?;
                return Ok(());
            }
        }
        let made = Vec::from_slice(self.alloc, bytes)?;
        self.parts.push(Part::Made(made))?;
        Ok(())
    }

    /// Appends bytes that the session has, so many from a place on.
    ///
    /// # Errors
    ///
    /// `NoMemory` if memory runs out.
    pub(crate) fn push_given(&mut self, from: usize, len: usize) -> Result<(), NoMemory> {
        if len < LONG {
            let session = self.session;
            return self.push(part_of(session, from, len));
        }
        self.parts.push(Part::Given(from, len))?;
        Ok(())
    }

    /// Appends so many zeros.
    ///
    /// # Errors
    ///
    /// `NoMemory` if memory runs out.
    pub(crate) fn push_zeros(&mut self, count: u64) -> Result<(), NoMemory> {
        let mut left = count;
        'left: while left > 0 {
            let some = left.min(RUN as u64);
            self.push_run(some as usize)?;
            left -= some;
        }
        Ok(())
    }

    /// Appends so many zeros, at most `RUN`.
    fn push_run(&mut self, count: usize) -> Result<(), NoMemory> {
        if count < LONG {
            return self.push(&[0; LONG][..count]);
        }
        self.parts.push(Part::Zeros(count))?;
        Ok(())
    }

    /// All bytes.
    ///
    /// # Errors
    ///
    /// `NoMemory` if memory runs out.
    pub fn whole(&self) -> Result<Vec<u8>, NoMemory>
        ensures { IfOk result (λ bytes. bytes.items ≡ bytes_of self.now) }
    {
        let mut bytes = Vec::new(self.alloc);
        let mut left = self.parts.as_slice();
        'parts: while let Some((part, behind)) = left.split_first() {
            left = behind;
            let some = part_bytes(self.session, self.zeros.as_slice(), part);
            bytes.extend_from_slice(some)?;
        }
        Ok(bytes)
    }

    /// The bytes as a stream.
    pub fn stream(&self) -> TextStream<'_>
        ensures { left_of result ≡ bytes_of self.now }
    {
        TextStream {
            session: self.session,
            zeros: self.zeros.as_slice(),
            rest: &[],
            parts: self.parts.as_slice(),
        }
    }
}

/// A stream of the bytes of a tree file. It never fails.
#[derive(Drop)]
pub struct TextStream<'t> {
    session: &'t [u8],
    zeros: &'t [u8],
    rest: &'t [u8],
    parts: &'t [Part],
}

impl TextStream<'_> {
    /// Goes on to the next part that has bytes, if there are none at hand.
    fn find(&mut self)
        ensures kept { left_of self.new ≡ left_of self.old }
        ensures found { self.new.rest.now ≡ [] → left_of self.new ≡ [] }
    {
        if self.rest.is_empty() {
            let (rest, parts) = next_part(self.session, self.zeros, self.parts);
            self.rest = rest;
            self.parts = parts;
        }
    }
}

impl Source for TextStream<'_> {
    ghost left = { λ stream. Some (left_of stream) };

    ghost failures = { λ stream. 0 };

    ghost may_fail = { false };

    ghost reads_left = { λ stream. length (left_of stream) };

    fn read(&mut self, buffer: &mut [u8]) -> Result<usize, Failed> {
        self.find();
        let count = give(self.rest, buffer);
        self.rest = &self.rest[count..];
        Ok(count)
    }

    fn failures(&self) -> u64 {
        0
    }
}
