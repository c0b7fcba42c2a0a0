//! Where the fault of a packet is (draft, sections 3 to 8; OpenSSH's PROTOCOL, section 4).

use crate::fields::{Fields, Spot};
use sftp_wire::{FieldKind, HANDLE_LIMIT, Layout, Tail};

/// Reads the body of a packet of this layout, which goes up to the end of the bytes. Without a layout any bytes follow
/// the id.
pub(crate) fn judge_body(layout: Option<Layout>, fields: &mut Fields<'_>) -> Result<(), Spot> {
    match layout {
        Some(layout) => judge_packet(&layout, fields)?,
        None => judge_unknown(fields)?,
    }
    if fields.rest().is_empty() {
        Ok(())
    } else {
        Err(fields.spot("the end of the fields"))
    }
}

fn judge_unknown(fields: &mut Fields<'_>) -> Result<(), Spot> {
    fields.number("id")?;
    judge_tail(Tail::Rest, fields)
}

fn judge_packet(layout: &Layout, fields: &mut Fields<'_>) -> Result<(), Spot> {
    if layout.has_id {
        fields.number("id")?;
    }
    if !layout.mark.is_empty() {
        fields.text("extended request")?;
    }
    for (name, kind) in layout.field_names.iter().zip(layout.fields) {
        judge_field(name, *kind, fields)?;
    }
    judge_tail(layout.tail, fields)
}

fn judge_field(name: &'static str, kind: FieldKind, fields: &mut Fields<'_>) -> Result<(), Spot> {
    match kind {
        FieldKind::Number | FieldKind::Flags => fields.pass(4, name),
        FieldKind::LongNumber => fields.long(name),
        FieldKind::Text => judge_text(name, fields),
        FieldKind::Handle => judge_handle(name, fields),
    }
}

fn judge_tail(tail: Tail, fields: &mut Fields<'_>) -> Result<(), Spot> {
    match tail {
        Tail::Nothing => Ok(()),
        Tail::Attributes => judge_attributes(fields),
        Tail::Pairs => judge_pairs(fields),
        Tail::Items => judge_names(fields),
        Tail::Message => judge_pair("message", "language tag", fields),
        Tail::Rest => fields.pass(fields.rest().len(), "data"),
    }
}

fn judge_text(name: &'static str, fields: &mut Fields<'_>) -> Result<(), Spot> {
    fields.text(name)?;
    Ok(())
}

/// A handle's length is judged before its bytes are looked for.
fn judge_handle(name: &'static str, fields: &mut Fields<'_>) -> Result<(), Spot> {
    let spot = fields.spot(name);
    let mut ahead = *fields;
    let length = ahead.number(name)?;
    if length as usize > HANDLE_LIMIT {
        return Err(spot);
    }
    judge_text(name, fields)
}

const SIZE: u32 = 0x1;

const OWNER: u32 = 0x2;

const PERMISSIONS: u32 = 0x4;

const TIMES: u32 = 0x8;

const EXTENDED: u32 = 0x8000_0000;

fn judge_attributes(fields: &mut Fields<'_>) -> Result<(), Spot> {
    let spot = fields.spot("attribute flags");
    let flags = fields.number("attribute flags")?;
    if flags & !(SIZE | OWNER | PERMISSIONS | TIMES | EXTENDED) != 0 {
        return Err(spot);
    }
    judge_owner(flags, fields)?;
    judge_times(flags, fields)?;
    judge_extended(flags, fields)
}

/// The size, and the user and the group.
fn judge_owner(flags: u32, fields: &mut Fields<'_>) -> Result<(), Spot> {
    if flags & SIZE != 0 {
        fields.long("size")?;
    }
    if flags & OWNER != 0 {
        fields.numbers(&["uid", "gid"])?;
    }
    Ok(())
}

/// The permissions and the times.
fn judge_times(flags: u32, fields: &mut Fields<'_>) -> Result<(), Spot> {
    if flags & PERMISSIONS != 0 {
        fields.number("permissions")?;
    }
    if flags & TIMES != 0 {
        fields.numbers(&["atime", "mtime"])?;
    }
    Ok(())
}

fn judge_extended(flags: u32, fields: &mut Fields<'_>) -> Result<(), Spot> {
    if flags & EXTENDED == 0 {
        return Ok(());
    }
    let count = fields.number("extended_count")?;
    for _ in 0..count {
        judge_pair("extended_type", "extended_data", fields)?;
    }
    Ok(())
}

fn judge_pair(name: &'static str, data: &'static str, fields: &mut Fields<'_>) -> Result<(), Spot> {
    fields.text(name)?;
    fields.text(data)?;
    Ok(())
}

/// Pairs up to the end. Each has at least eight bytes.
fn judge_pairs(fields: &mut Fields<'_>) -> Result<(), Spot> {
    for _ in 0..fields.rest().len() {
        if fields.rest().is_empty() {
            return Ok(());
        }
        judge_pair("extension name", "extension data", fields)?;
    }
    Ok(())
}

fn judge_names(fields: &mut Fields<'_>) -> Result<(), Spot> {
    let count = fields.number("count")?;
    for _ in 0..count {
        judge_pair("filename", "longname", fields)?;
        judge_attributes(fields)?;
    }
    Ok(())
}
