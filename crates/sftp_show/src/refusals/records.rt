//! Records of a transcript with their numbers.

use crate::records::RecordLine;
use crate::refusals::ExplainError;
use sftp_wire::{Answer, Ask, Packet, Side};
use std::io::Write;

/// Writes the line of a record after a label, with a line feed.
///
/// # Errors
///
/// `Output` if the line cannot be written.
pub fn put_record<O: Write>(
    label: &str,
    record: &Record,
    output: &mut O,
) -> Result<(), ExplainError> {
    let line = record.line();
    writeln!(output, "{label}: {line}")?;
    Ok(())
}

/// A record of a transcript.
#[derive(Drop)]
pub struct Record {
    /// The records count from 1.
    pub number: u64,
    /// Who sent the packet.
    pub side: Side,
    pub packet: Packet,
    /// How many bytes the packet has, its length field included.
    pub length: usize,
}

impl Record {
    /// The record's line, as `show` prints it.
    pub fn line(&self) -> RecordLine<'_> {
        RecordLine {
            number: self.number,
            side: self.side,
            packet: &self.packet,
            length: self.length,
        }
    }

    /// The id of a request or a reply.
    pub fn id(&self) -> Option<u32> {
        id_of(&self.packet)
    }

    /// What a request asks for.
    pub fn ask(&self) -> Option<&Ask> {
        match &self.packet {
            Packet::Request(request) => Some(&request.ask),
            Packet::Reply(_) | Packet::Init { .. } | Packet::Version { .. } => None,
        }
    }

    /// What a reply answers.
    pub fn answer(&self) -> Option<&Answer> {
        match &self.packet {
            Packet::Reply(reply) => Some(&reply.answer),
            Packet::Request(_) | Packet::Init { .. } | Packet::Version { .. } => None,
        }
    }
}

/// The id of a request or a reply.
pub(crate) fn id_of(packet: &Packet) -> Option<u32> {
    match packet {
        Packet::Request(request) => Some(request.id),
        Packet::Reply(reply) => Some(reply.id),
        Packet::Init { .. } | Packet::Version { .. } => None,
    }
}
