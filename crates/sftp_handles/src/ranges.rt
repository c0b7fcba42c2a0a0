//! Which requests on one file keep to ranges of it that do not meet, and so need not be done in the order asked (draft,
//! section 6.1).
ghost use Rattle.std.specs.Prelude.{◌≡◌, Some, length};
ghost use Rattle.sftp_packets.specs.declared.requests.Ask.TheVariants.{Read, Write};
ghost use Rattle.sftp_handles.specs.Clash as ranges;
ghost use Rattle.sftp_handles.specs.Spans.{span_by, spanned, ends_of, size_in, range_now};

use crate::byte_range::{ByteRange, Span};
use crate::open_handles::goes_to_end;
use crate::opens::Open;
use crate::sessions::Session;
use crate::tables::HandleTable;
use sftp_packets::{Ask, Request, ends_within};
use sftp_tree::FileNo;

impl ByteRange {
    /// Whether both are ranges of one file and have no byte in common. An empty range has none in common with any. Does
    /// not allocate.
    pub fn is_apart(self, other: ByteRange) -> bool
        ensures { result ≡ ranges.are_apart (Some self) (Some other) }
    {
        self.number == other.number && !self.meets(other)
    }

    /// Whether both have bytes, and each starts before the other ends.
    fn meets(self, other: ByteRange) -> bool
        ensures { result ≡ ranges.meet self other }
    {
        self.start < self.end
            && other.start < other.end
            && self.start < other.end
            && other.start < self.end
    }
}

impl Span {
    /// The range of a file of this size, if it ends within that.
    pub fn within(self, file: FileNo, size: u64) -> Option<ByteRange>
        ensures { result ≡ ranges.range_within file size (ends_of (Some self)) }
    {
        if !ends_within(self.start, self.count, size) {
            return None;
        }
        Some(ByteRange {
            number: file,
            start: self.start,
            end: self.start + self.count,
        })
    }
}

impl<T: HandleTable> Session<T> {
    /// Whether two requests have to be done in the order asked, if READs and WRITEs of one file whose ranges do not
    /// meet may change places. Does not allocate.
    #[tactic(auto, unfolding(crate::specs::Clash::range_clash))]
    pub fn clash(&self, earlier: &Request, later: &Request) -> bool
        ensures { result ≡ ranges.range_clash self.now earlier.now later.now }
    {
        self.room_clash(&earlier.ask, &later.ask)
            || self.share(&earlier.ask, &later.ask)
                && !are_apart(self.range(&earlier.ask), self.range(&later.ask))
    }

    /// The range of its file that a request keeps to: its span, if that ends within the file as it is now. No request
    /// but READ and WRITE keeps to a range. Does not allocate.
    pub fn range(&self, ask: &Ask) -> Option<ByteRange>
        ensures { result ≡ ranges.range self.now ask.now }
    {
        match self.touch(ask).file() {
            Some(file) => self.range_of(file, self.span(ask)),
            None => None,
        }
    }

    /// The range of a file that a span is, if it ends within the file as it is now. Does not allocate.
    pub fn range_of(&self, file: FileNo, span: Option<Span>) -> Option<ByteRange>
        ensures { result ≡ range_now self.now (Some file) (ends_of span) }
    {
        match self.size(file) {
            Some(size) => match span {
                Some(span) => span.within(file, size),
                None => None,
            },
            None => None,
        }
    }

    /// How many bytes a file has, if there is one of this number. Does not allocate.
    pub fn size(&self, file: FileNo) -> Option<u64>
        ensures { result ≡ size_in self.now file }
    {
        if self.tree.has_file(file) {
            Some(self.tree.byte_count(file))
        } else {
            None
        }
    }

    /// The bytes of its file that a request reads or writes, whether the file has them or not: of a READ those that it
    /// asks for, up to the tree's limit of one READ; of a WRITE those that it writes, if its handle was opened without
    /// APPEND. No other request has such a span. Does not allocate.
    #[tactic(auto, unfolding(crate::specs::Spans::spanned))]
    pub fn span(&self, ask: &Ask) -> Option<Span>
        ensures { ends_of result ≡ spanned self.now ask.now }
    {
        match ask {
            Ask::Read {
                handle,
                offset,
                len,
            } => self.read_span(handle.as_slice(), *offset, *len),
            Ask::Write {
                handle,
                offset,
                bytes,
            } => self.write_span(handle.as_slice(), *offset, bytes.as_slice()),
            _ => None,
        }
    }

    /// The span of a READ.
    fn read_span(&self, handle: &[u8], offset: u64, len: u32) -> Option<Span>
        ensures { ends_of result ≡ span_by self.now (Read handle.now offset len) (Some handle.now) }
    {
        let most = self.tree.tree_limits().read_bytes;
        match self.table.find(handle) {
            Some(Open::File { .. }) => Some(Span {
                start: offset,
                count: len.min(most) as u64,
            }),
            Some(Open::Listing { .. }) => None,
            None => None,
        }
    }

    /// The span of a WRITE.
    fn write_span(&self, handle: &[u8], offset: u64, bytes: &[u8]) -> Option<Span>
        ensures { ends_of result ≡ span_by self.now (Write handle.now offset bytes.now) (Some handle.now) }
    {
        match self.table.find(handle) {
            Some(Open::File { flags, .. }) => written_span(goes_to_end(*flags), offset, bytes),
            Some(Open::Listing { .. }) => None,
            None => None,
        }
    }
}

/// The span of a WRITE, by whether each WRITE through its handle goes to the end of the file.
fn written_span(to_end: bool, offset: u64, bytes: &[u8]) -> Option<Span>
    ensures { ends_of result ≡ ranges.written_span to_end offset (length bytes.now) }
{
    if to_end {
        return None;
    }
    Some(Span {
        start: offset,
        count: bytes.len() as u64,
    })
}

/// Whether both are ranges of one file that do not meet.
fn are_apart(range: Option<ByteRange>, other: Option<ByteRange>) -> bool
    ensures { result ≡ ranges.are_apart range other }
{
    match range {
        Some(range) => match other {
            Some(other) => range.is_apart(other),
            None => false,
        },
        None => false,
    }
}
