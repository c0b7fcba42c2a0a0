//! Exchanges, and what their fields are.

use crate::packets::name_of;
use crate::records::{Answered, Recorded};
use sftp_filter::{Exchange, Field, Value};
use sftp_tree::{new_path_of, path_of};
use sftp_wire::{Answer, Ask, Attrs, Reply, asked_handle};

/// A request with its reply. One of them may not be there.
#[derive(Clone, Copy)]
pub(crate) struct Pair<'r> {
    pub(crate) asked: Option<&'r Recorded>,
    pub(crate) reply: Option<&'r Recorded>,
    /// What is shown of the reply beside its packet, if it has a request.
    pub(crate) answered: Option<Answered>,
}

impl Exchange for Pair<'_> {
    fn asked(&self, field: Field) -> Option<Value<'_>> {
        let record = self.asked?;
        match of_record(record, field) {
            Some(value) => Some(value),
            None => of_ask(&record.request()?.ask, field),
        }
    }

    fn replied(&self, field: Field) -> Option<Value<'_>> {
        let record = self.reply?;
        if let Some(value) = of_record(record, field) {
            return Some(value);
        }
        match of_answer(record.reply()?, field) {
            Some(value) => Some(value),
            None => of_answered(self.answered?, field),
        }
    }
}

/// A field of any record.
fn of_record(record: &Recorded, field: Field) -> Option<Value<'_>> {
    match field {
        Field::Record => Some(Value::Number(record.number)),
        Field::Time => number(record.time),
        Field::PacketLength => Some(Value::Number(record.length as u64)),
        Field::Packet => Some(Value::Packet(name_of(&record.packet), code_of(record))),
        Field::Id => Some(Value::Number(u64::from(id_of(record)?))),
        _ => None,
    }
}

/// The code of a STATUS.
fn code_of(record: &Recorded) -> Option<u32> {
    match &record.reply()?.answer {
        Answer::Status { code, .. } => Some(*code),
        _ => None,
    }
}

fn id_of(record: &Recorded) -> Option<u32> {
    match record.request() {
        Some(request) => Some(request.id),
        None => Some(record.reply()?.id),
    }
}

/// A field that a reply has by its request.
fn of_answered<'a>(answered: Answered, field: Field) -> Option<Value<'a>> {
    match field {
        Field::Took => number(answered.took),
        Field::Overtook => number(answered.overtook),
        _ => None,
    }
}

fn number<'a>(number: Option<u64>) -> Option<Value<'a>> {
    Some(Value::Number(number?))
}

/// A field of a request.
fn of_ask(ask: &Ask, field: Field) -> Option<Value<'_>> {
    if let Some(text) = text_of_ask(ask, field) {
        return Some(Value::Text(text));
    }
    match (ask, field) {
        (Ask::Read { offset, .. } | Ask::Write { offset, .. }, Field::Offset) => {
            Some(Value::Number(*offset))
        }
        (Ask::Read { len, .. }, Field::Length) => Some(Value::Number(u64::from(*len))),
        (Ask::Open { pflags, .. }, Field::Flags) => Some(Value::Flags(*pflags)),
        (Ask::Open { pflags, .. }, Field::FlagBits) => Some(Value::Number(u64::from(*pflags))),
        _ => of_attrs(attrs_of(ask)?, field),
    }
}

/// A field of a request that is a text.
fn text_of_ask(ask: &Ask, field: Field) -> Option<&[u8]> {
    match field {
        Field::Handle => asked_handle(ask),
        Field::NewPath => new_path_of(ask),
        Field::OldPath if new_path_of(ask).is_some() => path_of(ask),
        Field::Path if new_path_of(ask).is_none() => path_of(ask),
        _ => own_text_of(ask, field),
    }
}

/// A text that only one kind of request has.
fn own_text_of(ask: &Ask, field: Field) -> Option<&[u8]> {
    match (ask, field) {
        (Ask::Write { bytes, .. }, Field::Data) => Some(bytes.as_slice()),
        (Ask::Symlink { targetpath, .. }, Field::Target) => Some(targetpath.as_slice()),
        (Ask::Unknown { name, .. }, Field::Name) => Some(name.as_slice()),
        (Ask::Unknown { rest, .. }, Field::Rest) => Some(rest.as_slice()),
        _ => None,
    }
}

/// The attributes of a request that has some.
fn attrs_of(ask: &Ask) -> Option<&Attrs> {
    match ask {
        Ask::Open { attrs, .. } => Some(attrs),
        Ask::Mkdir { attrs, .. } => Some(attrs),
        Ask::Setstat { attrs, .. } => Some(attrs),
        Ask::Fsetstat { attrs, .. } => Some(attrs),
        _ => None,
    }
}

/// A field of attributes that is there.
fn of_attrs<'a>(attrs: &Attrs, field: Field) -> Option<Value<'a>> {
    let value = match field {
        Field::Size => attrs.size?,
        Field::Uid => u64::from(attrs.owner?.0),
        Field::Gid => u64::from(attrs.owner?.1),
        Field::Permissions => u64::from(attrs.permissions?),
        Field::Access => u64::from(attrs.times?.0),
        Field::Modification => u64::from(attrs.times?.1),
        _ => return None,
    };
    Some(Value::Number(value))
}

/// A field of a reply.
fn of_answer(reply: &Reply, field: Field) -> Option<Value<'_>> {
    match (&reply.answer, field) {
        (Answer::Status { code, .. }, Field::Code) => Some(Value::Number(u64::from(*code))),
        (Answer::Status { message, .. }, Field::Message) => Some(Value::Text(message.as_slice())),
        (Answer::Status { language, .. }, Field::Language) => {
            Some(Value::Text(language.as_slice()))
        }
        (Answer::Handle(handle), Field::Handle) => Some(Value::Text(handle.as_slice())),
        (Answer::Data(bytes), Field::Data) => Some(Value::Text(bytes.as_slice())),
        (Answer::Extended(rest), Field::Rest) => Some(Value::Text(rest.as_slice())),
        (Answer::Name(names), Field::Items) => {
            Some(Value::Number(names.as_slice().len() as u64))
        }
        (Answer::Attrs(attrs), field) => of_attrs(attrs, field),
        _ => None,
    }
}
