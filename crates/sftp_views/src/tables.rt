//! Figures of a session, as a table or as JSON objects.

use crate::figures::{Counts, Figures, Row, Slow, Spread, spread_of};
use sftp_json::JsonLines;
use std::alloc::{AllocError, Global};
use std::io;
use std::io::Write;

/// Sorts how long requests took, as the figures are shown.
pub(crate) fn sort(figures: &mut Figures) -> Result<(), AllocError> {
    for row in &mut figures.rows {
        row.took.sort()?;
    }
    Ok(())
}

/// How long all requests took, in order.
pub(crate) fn all_took(alloc: Global, figures: &Figures) -> Result<Vec<u64>, AllocError> {
    let mut all = Vec::new(alloc);
    for row in &figures.rows {
        all.extend_from_slice(row.took.as_slice())?;
    }
    all.sort()?;
    Ok(all)
}

/// The counts of all rows together.
fn sum_of(figures: &Figures) -> Counts {
    let mut sum = Counts::none();
    for row in &figures.rows {
        sum = sum.with(row.counts);
    }
    sum
}

/// Writes the figures, whose rows are sorted, as a table, with times if there are any. `all` is how long all took.
pub(crate) fn put_table<O: Write>(
    figures: &Figures,
    all: &[u64],
    has_times: bool,
    output: &mut O,
) -> io::Result<()> {
    put_head(has_times, output)?;
    for row in &figures.rows {
        put_row(
            row.name,
            row.counts,
            spread_of(row.took.as_slice()),
            has_times,
            output,
        )?;
    }
    put_row("all", sum_of(figures), spread_of(all), has_times, output)?;
    let in_flight = figures.in_flight.most;
    let handles = figures.handles.most;
    writeln!(output, "most requests in flight: {in_flight}")?;
    writeln!(output, "most handles open: {handles}")?;
    put_slowest(figures.slowest.as_slice(), output)
}

fn put_head<O: Write>(has_times: bool, output: &mut O) -> io::Result<()> {
    output.write_all(
        b"packet          requests    refused unanswered        sent    received        data",
    )?;
    if has_times {
        output.write_all(b"       median          99%     greatest")?;
    }
    output.write_all(b"\n")
}

fn put_row<O: Write>(
    name: &str,
    counts: Counts,
    spread: Option<Spread>,
    has_times: bool,
    output: &mut O,
) -> io::Result<()> {
    let Counts {
        requests,
        refused,
        unanswered,
        sent,
        received,
        data,
    } = counts;
    write!(
        output,
        "{name:<14} {requests:>9} {refused:>10} {unanswered:>10}"
    )?;
    write!(output, " {sent:>11} {received:>11} {data:>11}")?;
    if has_times {
        put_spread(spread, output)?;
    }
    output.write_all(b"\n")
}

/// Writes how long requests took, in seconds, or that nobody knows.
fn put_spread<O: Write>(spread: Option<Spread>, output: &mut O) -> io::Result<()> {
    match spread {
        Some(spread) => {
            put_seconds(spread.median, output)?;
            put_seconds(spread.high, output)?;
            put_seconds(spread.greatest, output)
        }
        None => output.write_all(b"            -            -            -"),
    }
}

/// Writes a column with nanoseconds as seconds.
fn put_seconds<O: Write>(nanoseconds: u64, output: &mut O) -> io::Result<()> {
    let micros = nanoseconds / 1_000;
    let seconds = micros / 1_000_000;
    let micros = micros % 1_000_000;
    write!(output, " {seconds:>5}.{micros:06}")
}

fn put_slowest<O: Write>(slowest: &[Slow], output: &mut O) -> io::Result<()> {
    if !slowest.is_empty() {
        output.write_all(b"slowest:\n")?;
    }
    for slow in slowest {
        put_slow(*slow, output)?;
    }
    Ok(())
}

fn put_slow<O: Write>(slow: Slow, output: &mut O) -> io::Result<()> {
    put_seconds(slow.took, output)?;
    let name = slow.name;
    let request = slow.request;
    let reply = slow.reply;
    writeln!(
        output,
        " {name} in record {request}, reply in record {reply}"
    )
}

/// Writes the figures, whose rows are sorted, as objects: one for each kind of request, and one for the session.
pub(crate) fn put_objects<O: Write>(figures: &Figures, all: &[u64], json: &mut JsonLines<'_, O>) {
    for row in &figures.rows {
        put_row_object(row, json);
    }
    put_session(figures, all, json);
}

fn put_row_object<O: Write>(row: &Row, json: &mut JsonLines<'_, O>) {
    json.open();
    json.word("packet", row.name);
    put_counts(row.counts, spread_of(row.took.as_slice()), json);
    json.end_line();
}

fn put_session<O: Write>(figures: &Figures, all: &[u64], json: &mut JsonLines<'_, O>) {
    json.open();
    put_counts(sum_of(figures), spread_of(all), json);
    json.number("most_in_flight", figures.in_flight.most);
    json.number("most_handles", figures.handles.most);
    json.open_list("slowest");
    for slow in &figures.slowest {
        put_slow_object(*slow, json);
    }
    json.close_list();
    json.end_line();
}

fn put_counts<O: Write>(counts: Counts, spread: Option<Spread>, json: &mut JsonLines<'_, O>) {
    json.number("requests", counts.requests);
    json.number("refused", counts.refused);
    json.number("unanswered", counts.unanswered);
    json.number("sent", counts.sent);
    json.number("received", counts.received);
    json.number("data", counts.data);
    if let Some(spread) = spread {
        json.number("median_ns", spread.median);
        json.number("percent_99_ns", spread.high);
        json.number("greatest_ns", spread.greatest);
    }
}

fn put_slow_object<O: Write>(slow: Slow, json: &mut JsonLines<'_, O>) {
    json.open();
    json.number("took_ns", slow.took);
    json.word("packet", slow.name);
    json.number("record", slow.request);
    json.number("reply", slow.reply);
    json.close();
}
