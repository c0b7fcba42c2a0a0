//! The records of a transcript, one by one: which are shown, and when.
ghost use Rattle.std.specs.Prelude.{◌<◌, IfOk, IsTrue};
ghost use Rattle.sftp_transcript.specs.Recorded.{size_of};

use crate::clocks::Clock;
use crate::errors::ViewError;
use crate::exchanges::Pair;
use crate::figures::Figures;
use crate::flights::Flight;
use crate::following::Followed;
use crate::lines::{Form, Lines};
use crate::records::{Answered, Recorded, reply_of};
use crate::selections::Selection;
use crate::tables::{all_took, sort};
use sftp_filter::Expression;
use sftp_transcript::{Reader, Source};
use sftp_wire::Packet;
use std::alloc::{AllocError, Global};
use std::io::{Read, Write};

/// What is shown of the records that are selected.
#[derive(Clone, Copy)]
pub enum Shape {
    /// Each record.
    Records,
    /// Requests alone, each together with its reply.
    Pairs,
    /// The same on one line.
    Exchanges,
    /// Figures of them.
    Figures,
}

/// Which records are shown, and how.
#[derive(Clone, Copy)]
pub struct View<'a> {
    pub selection: Selection<'a>,
    /// What exchanges have to meet besides, if they have to; records are not shown alone then.
    pub filter: Option<&'a Expression>,
    /// The path of the file that is followed through its handles, if there is one; records are not shown alone then.
    pub followed: Option<&'a [u8]>,
    pub shape: Shape,
    pub form: Form,
}

/// Writes a line for each record or exchange that is selected, or their figures, up to the first fault of the
/// transcript or of the times, and says whether anything was selected. Neither is read yet. The memory that is taken is
/// that of the requests without a reply, of which there are at most 1,024, and of one record; of the handles of a file
/// that is followed; and for figures with times of a number for each request.
///
/// In pairs, a request is shown when its reply comes, before it; one without a reply is shown in the end.
///
/// # Errors
///
/// `Output` if the lines cannot be written; else the first fault of the transcript or of the times, or `NoMemory`.
pub fn show_records<R: Source, C: Read + Drop, O: Write>(
    alloc: Global,
    records: &mut Reader<R>,
    clock: &mut Clock<C>,
    view: &View<'_>,
    output: &mut O,
) -> Result<bool, ViewError> {
    let mut viewer = Viewer {
        alloc,
        flight: Flight::new(alloc),
        followed: Followed::new(alloc),
        figures: Figures::new(alloc),
        has_shown: false,
        lines: Lines::new(view.form, clock.has_file(), output),
    };
    let taken = viewer.take_all(view, records, clock);
    let ended = viewer.finish(view);
    let has_shown = viewer.has_shown;
    drop(viewer);
    outcome(taken, ended, has_shown)
}

/// What showing records came to. A failure to write comes before a fault.
fn outcome(
    taken: Result<(), ViewError>,
    ended: Result<(), ViewError>,
    has_shown: bool,
) -> Result<bool, ViewError> {
    match ended {
        Ok(()) => match taken {
            Ok(()) => Ok(has_shown),
            Err(error) => Err(error),
        },
        Err(error) => {
            drop(taken);
            Err(error)
        }
    }
}

/// Shows records.
#[derive(Drop)]
struct Viewer<'a, O> {
    alloc: Global,
    /// The requests that are not answered yet.
    flight: Flight,
    followed: Followed,
    figures: Figures,
    /// Whether anything was selected.
    has_shown: bool,
    lines: Lines<'a, O>,
}

impl<O: Write> Viewer<'_, O> {
    /// Takes all records.
    fn take_all<R: Source, C: Read + Drop>(
        &mut self,
        view: &View<'_>,
        records: &mut Reader<R>,
        clock: &mut Clock<C>,
    ) -> Result<(), ViewError> {
        clock.begin()?;
        let mut number: u64 = 1;
        'records: while self.take_next(view, number, records, clock)? {
            number = number.saturating_add(1);
        }
        clock.end(number)
    }

    /// Takes the next record, whose number this is, and says whether there was one. After a failure to write there is
    /// none.
    fn take_next<R: Source, C: Read + Drop>(
        &mut self,
        view: &View<'_>,
        number: u64,
        records: &mut Reader<R>,
        clock: &mut Clock<C>,
    ) -> Result<bool, ViewError>
        ensures { IfOk result (λ taken. IsTrue taken → size_of records.new.ahead < size_of records.old.ahead) }
    {
        if self.lines.has_failed() {
            return Ok(false);
        }
        match records.next_record() {
            Ok(Some((side, packet, length))) => {
                let record = Recorded {
                    number,
                    side,
                    packet,
                    length,
                    time: None,
                    is_followed: false,
                };
                self.take_timed(view, record, clock)?;
                Ok(true)
            }
            Ok(None) => Ok(false),
            Err(error) => Err(ViewError::Transcript(error)),
        }
    }

    /// Takes a record after its time is read.
    fn take_timed<C: Read + Drop>(
        &mut self,
        view: &View<'_>,
        record: Recorded,
        clock: &mut Clock<C>,
    ) -> Result<(), ViewError> {
        let mut record = record;
        match clock.next(record.number) {
            Ok(time) => {
                record.time = time;
                self.take(view, record)?;
                Ok(())
            }
            Err(error) => {
                drop(record);
                Err(error)
            }
        }
    }

    fn take(&mut self, view: &View<'_>, record: Recorded) -> Result<(), AllocError> {
        match kind_of(&record.packet) {
            RecordKind::Request => self.take_request(view, record),
            RecordKind::Reply(id) => {
                let taken = self.take_reply(view, &record, id);
                drop(record);
                taken
            }
            RecordKind::First => {
                self.take_first(view, &record);
                drop(record);
                Ok(())
            }
        }
    }

    fn take_first(&mut self, view: &View<'_>, record: &Recorded) {
        if !view.is_of_exchanges()
            && view.selection.takes_first()
            && view.selection.has_number(record.number)
        {
            self.put_record(record, None);
        }
    }

    fn put_record(&mut self, record: &Recorded, answered: Option<Answered>) {
        self.has_shown = true;
        self.lines.put(record, answered);
    }

    /// Shows a request, unless it waits for its reply, and keeps it. The oldest one is given up if there are too many.
    fn take_request(&mut self, view: &View<'_>, record: Recorded) -> Result<(), AllocError> {
        let mut record = record;
        if let Some(path) = view.followed {
            record.is_followed = self.followed.takes(path, &record);
        }
        if !view.is_of_exchanges() {
            self.show_request(view, &record);
        }
        self.figures.ask();
        self.keep(view, record)
    }

    /// Keeps a request until its reply comes.
    fn keep(&mut self, view: &View<'_>, record: Recorded) -> Result<(), AllocError> {
        if self.flight.is_full() {
            match self.give_up(view) {
                Ok(()) => {}
                Err(error) => {
                    drop(record);
                    return Err(error);
                }
            }
        }
        self.flight.push(record)
    }

    fn show_request(&mut self, view: &View<'_>, record: &Recorded) {
        if view.selection.has_number(record.number) && view.selection.takes_request(record) {
            self.put_record(record, None);
        }
    }

    /// Takes the oldest request, if there is one, as one without a reply.
    fn give_up(&mut self, view: &View<'_>) -> Result<(), AllocError> {
        let Some(asked) = self.flight.take_oldest() else {
            return Ok(());
        };
        self.figures.give_up();
        let shown = self.show_unanswered(view, &asked);
        drop(asked);
        shown
    }

    /// Shows a request without a reply, if it is not shown yet.
    fn show_unanswered(&mut self, view: &View<'_>, asked: &Recorded) -> Result<(), AllocError> {
        if view.is_of_exchanges()
            && view.selection.has_number(asked.number)
            && view.selection.takes_request(asked)
        {
            self.show_exchange(
                view,
                Pair {
                    asked: Some(asked),
                    reply: None,
                    answered: None,
                },
            )
        } else {
            Ok(())
        }
    }

    fn take_reply(
        &mut self,
        view: &View<'_>,
        record: &Recorded,
        id: u32,
    ) -> Result<(), AllocError> {
        match self.flight.take(id) {
            Some(asked) => {
                let taken = self.take_answer(view, record, &asked);
                drop(asked);
                taken
            }
            None => self.show_alone(view, record),
        }
    }

    /// Shows a reply to this request, and notes which handles are open now.
    fn take_answer(
        &mut self,
        view: &View<'_>,
        record: &Recorded,
        asked: &Recorded,
    ) -> Result<(), AllocError> {
        self.figures.answer(asked, record);
        if let Some(path) = view.followed {
            self.followed.note(self.alloc, path, asked, record)?;
        }
        self.show_reply(view, record, asked)
    }

    /// Shows a reply to this request; in pairs, after the request.
    fn show_reply(
        &mut self,
        view: &View<'_>,
        record: &Recorded,
        asked: &Recorded,
    ) -> Result<(), AllocError> {
        let number = if view.is_of_exchanges() {
            asked.number
        } else {
            record.number
        };
        if !view.selection.has_number(number) || !view.selection.takes_reply(record, Some(asked)) {
            return Ok(());
        }
        let beside = reply_of(record, asked, self.flight.oldest());
        if !view.is_of_exchanges() {
            self.put_record(record, Some(beside));
            return Ok(());
        }
        self.show_exchange(
            view,
            Pair {
                asked: Some(asked),
                reply: Some(record),
                answered: Some(beside),
            },
        )
    }

    /// Shows a reply that no request waits for.
    fn show_alone(&mut self, view: &View<'_>, record: &Recorded) -> Result<(), AllocError> {
        if !view.selection.has_number(record.number) || !view.selection.takes_reply(record, None) {
            return Ok(());
        }
        if !view.is_of_exchanges() {
            self.put_record(record, None);
            return Ok(());
        }
        self.show_exchange(
            view,
            Pair {
                asked: None,
                reply: Some(record),
                answered: None,
            },
        )
    }

    /// Shows an exchange that is selected, if it meets what exchanges have to meet besides.
    fn show_exchange(&mut self, view: &View<'_>, pair: Pair<'_>) -> Result<(), AllocError> {
        if !view.takes(pair) {
            return Ok(());
        }
        self.has_shown = true;
        match view.shape {
            Shape::Figures => self.figures.add(self.alloc, pair),
            Shape::Exchanges => {
                self.lines.put_exchange(pair);
                Ok(())
            }
            Shape::Records | Shape::Pairs => {
                self.put_pair(pair);
                Ok(())
            }
        }
    }

    /// Writes the lines of a request and of its reply.
    fn put_pair(&mut self, pair: Pair<'_>) {
        if let Some(asked) = pair.asked {
            self.lines.put(asked, None);
        }
        if let Some(reply) = pair.reply {
            self.lines.put(reply, pair.answered);
        }
    }

    /// Shows what waits for replies that did not come, or the figures, and flushes the output.
    fn finish(&mut self, view: &View<'_>) -> Result<(), ViewError> {
        let given_up = self.give_up_all(view);
        if let Shape::Figures = view.shape {
            self.put_figures()?;
        }
        match self.lines.finish() {
            Ok(()) => {
                given_up?;
                Ok(())
            }
            Err(error) => Err(ViewError::Output(error)),
        }
    }

    fn give_up_all(&mut self, view: &View<'_>) -> Result<(), AllocError> {
        for _ in 0..self.flight.len() {
            self.give_up(view)?;
        }
        Ok(())
    }

    /// Writes the figures, if there are any.
    fn put_figures(&mut self) -> Result<(), ViewError> {
        if !self.has_shown {
            return Ok(());
        }
        sort(&mut self.figures)?;
        let all = all_took(self.alloc, &self.figures)?;
        let written = self.lines.put_figures(&self.figures, all.as_slice());
        drop(all);
        match written {
            Ok(()) => Ok(()),
            Err(error) => Err(ViewError::Output(error)),
        }
    }
}

impl View<'_> {
    /// Whether requests are shown together with their replies.
    fn is_of_exchanges(&self) -> bool {
        match self.shape {
            Shape::Records => self.filter.is_some() || self.followed.is_some(),
            _ => true,
        }
    }

    /// Whether an exchange meets what exchanges have to meet besides the selection.
    fn takes(&self, pair: Pair<'_>) -> bool {
        if self.followed.is_some() && !is_followed(pair) {
            return false;
        }
        match self.filter {
            Some(filter) => filter.holds(&pair),
            None => true,
        }
    }
}

/// Whether the request of an exchange goes to the file that is followed.
fn is_followed(pair: Pair<'_>) -> bool {
    match pair.asked {
        Some(asked) => asked.is_followed,
        None => false,
    }
}

/// What a record is to a viewer.
#[derive(Clone, Copy)]
enum RecordKind {
    /// An INIT or a VERSION.
    First,
    Request,
    /// A reply with this id.
    Reply(u32),
}

fn kind_of(packet: &Packet) -> RecordKind {
    match packet {
        Packet::Init { .. } => RecordKind::First,
        Packet::Version { .. } => RecordKind::First,
        Packet::Request(_) => RecordKind::Request,
        Packet::Reply(reply) => RecordKind::Reply(reply.id),
    }
}
