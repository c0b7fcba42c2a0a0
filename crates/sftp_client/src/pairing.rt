//! A client's session with a server: which requests have no reply yet, by their ids.
ghost use Rattle.std.specs.Prelude.{◌≡◌, ◌≢◌, ◌∷◌, [], Some, None, IfOk, IfErr, OnOk, OnErr};
ghost use Rattle.sftp_client.specs.declared.errors.ClientError.TheVariants.{NoMemory, BadVersion};
ghost use Rattle.sftp_client.specs.Client.{Client, new_client, version_error, send_error, reply_error};
ghost use Rattle.sftp_client.specs.Client.{IsStarted, IsSent, IsPaired};
ghost use Rattle.sftp_packets.specs.declared.packets.Packet.TheVariants.{Init};

use crate::announced::{Announced, PROTOCOL_VERSION, announced_by};
use crate::errors::ClientError;
use crate::ids::first_free;
use indexmap::IndexMap;
use sftp_wire::{Ask, Packet, Pairs, Reply, Request, may_get};
use std::alloc::Global;
use std::marker::Model;

/// The most requests without a reply. This profile's own.
pub const OPEN_LIMIT: usize = 1_024;

/// The client's side of a session: it gives each request an id, and pairs each reply with its request.
#[derive(Drop)]
pub struct Pairing {
    /// What the server's VERSION announced, once it came.
    announced: Option<Announced>,
    /// The id from which on a free one is looked for.
    next: u32,
    /// The requests without a reply by their ids, in the order sent.
    open_requests: IndexMap<u32, Ask>,
}

impl Model for Pairing {
    ghost use Rattle.sftp_client.specs.Client.{Client, session_with, IsKept};

    ghost Value = { Client };

    ghost view = { λ p. session_with p.announced p.next p.open_requests.entries };

    ghost invariant = { λ p. IsKept (session_with p.announced p.next p.open_requests.entries) };
}

impl Pairing {
    /// A session before the server's VERSION. It takes the memory for `OPEN_LIMIT` open requests, but for their paths
    /// and data.
    ///
    /// # Errors
    ///
    /// `NoMemory` if memory runs out.
    pub fn new(alloc: Global) -> Result<Pairing, ClientError>
        ensures new { IfOk result (λ pairing. pairing ≡ new_client) }
        ensures refused { IfErr result (λ e. e ≡ NoMemory) }
    {
        Ok(Pairing {
            announced: None,
            next: 0,
            open_requests: IndexMap::with_capacity(alloc, OPEN_LIMIT)?,
        })
    }

    /// The client's first packet: INIT of version 3, without extensions (draft, section 4). Does not allocate.
    pub fn start(&self) -> Packet
        ensures { result ≡ Init 3 [] }
    {
        Packet::Init {
            version: PROTOCOL_VERSION,
            extensions: Pairs::new(Vec::new(*self.open_requests.allocator())),
        }
    }

    /// Takes the server's first packet, which is to be VERSION 3 with any extensions (draft, section 4). It takes no
    /// memory.
    ///
    /// # Errors
    ///
    /// `BadVersion` if the packet is no VERSION or not of version 3, or if VERSION has come before. On error the
    /// session is unchanged.
    pub fn on_version(&mut self, packet: &Packet) -> Result<(), ClientError>
        ensures started { OnOk result (IsStarted self.old packet.now self.new) }
        ensures refused { IfErr result (λ e. version_error self.old packet.now ≡ Some e) }
        ensures kept { OnErr result (self.new ≡ self.old) }
    {
        if self.announced.is_some() {
            return Err(ClientError::BadVersion);
        }
        let Some(announced) = announced_by(packet) else {
            return Err(ClientError::BadVersion);
        };
        self.announced = Some(announced);
        Ok(())
    }

    /// Gives a request its id. The first request gets 0; each further one gets the first id after that of the request
    /// before it, modulo 2^32, that no open request has. The request is then open until its reply comes. The caller
    /// encodes and sends what is returned.
    ///
    /// # Errors
    ///
    /// - `NotStarted` if the server's VERSION has not come;
    /// - `Full` if `OPEN_LIMIT` requests are open;
    /// - `NotAnnounced` if it is an extension with a request of its own that VERSION did not name;
    /// - `NoMemory` if memory runs out.
    ///
    /// On error the session is unchanged, and the request is dropped.
    pub fn send(&mut self, ask: Ask) -> Result<Request, ClientError>
        ensures sent { IfOk result (λ request. IsSent self.old request self.new) }
        ensures asked { IfOk result (λ request. request.ask ≡ ask) }
        ensures refused { IfErr result (λ e. e ≢ NoMemory → send_error self.old ask ≡ Some e) }
        ensures no_memory { IfErr result (λ e. e ≡ NoMemory → send_error self.old ask ≡ None) }
        ensures kept { OnErr result (self.new ≡ self.old) }
    {
        match self.enter(&ask) {
            Ok(id) => Ok(Request { id, ask }),
            Err(error) => {
                drop(ask);
                Err(error)
            }
        }
    }

    /// Notes a copy of a request as open, and returns its id.
    fn enter(&mut self, ask: &Ask) -> Result<u32, ClientError>
        ensures entered { IfOk result (λ id. IsSent self.old (record { id = id; ask = ask.now }) self.new) }
        ensures refused { IfErr result (λ e. e ≢ NoMemory → send_error self.old ask.now ≡ Some e) }
        ensures no_memory { IfErr result (λ e. e ≡ NoMemory → send_error self.old ask.now ≡ None) }
        ensures kept { OnErr result (self.new ≡ self.old) }
    {
        let Some(announced) = &self.announced else {
            return Err(ClientError::NotStarted);
        };
        if self.open_requests.len() >= OPEN_LIMIT {
            return Err(ClientError::Full);
        }
        if !announced.may_be_sent(ask) {
            return Err(ClientError::NotAnnounced);
        }
        let id = first_free(&self.open_requests, self.next);
        drop(self.open_requests.insert(id, ask.clone()?)?);
        self.next = id.wrapping_add(1);
        Ok(id)
    }

    /// Pairs a reply with the open request of its id, which is then no longer open. Does not allocate.
    ///
    /// # Errors
    ///
    /// - `NotStarted` if the server's VERSION has not come;
    /// - `UnknownId` if no open request has the reply's id;
    /// - `WrongReply` if that request may not get a reply of this kind.
    ///
    /// On error the session is unchanged, and the reply is dropped.
    pub fn on_reply(&mut self, reply: Reply) -> Result<(Request, Reply), ClientError>
        ensures paired { IfOk result (λ pair. IsPaired self.old pair.0 pair.1 self.new) }
        ensures same { IfOk result (λ pair. pair.1 ≡ reply) }
        ensures refused { IfErr result (λ e. reply_error self.old reply ≡ Some e) }
        ensures kept { OnErr result (self.new ≡ self.old) }
    {
        let request = self.take(&reply)?;
        Ok((request, reply))
    }

    /// Takes out the open request that a reply answers.
    fn take(&mut self, reply: &Reply) -> Result<Request, ClientError>
        ensures paired { IfOk result (λ request. IsPaired self.old request reply.now self.new) }
        ensures refused { IfErr result (λ e. reply_error self.old reply.now ≡ Some e) }
        ensures kept { OnErr result (self.new ≡ self.old) }
    {
        if self.announced.is_none() {
            return Err(ClientError::NotStarted);
        }
        if self
            .open_requests
            .get(&reply.id)
            .is_some_and(|ask| !may_get(ask, &reply.answer))
        {
            return Err(ClientError::WrongReply);
        }
        match self.open_requests.shift_remove(&reply.id) {
            Some(ask) => Ok(Request { id: reply.id, ask }),
            None => Err(ClientError::UnknownId),
        }
    }
}
