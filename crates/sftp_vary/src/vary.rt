//! Proposals of replies that vary.
use crate::dice::Dice;
use crate::freedoms::{Freedom, Freedoms, Variation};
use crate::handles::{any_handle, plain_handle};
use crate::listings::{Order, any_most};
use crate::proposed::Proposer;
use crate::texts::{any_pairs, any_times, dummy, longname, message, tag};
use sftp_handles::{GivenTable, Listing, Session};
use sftp_path::Name;
use sftp_tree::{Causes, EVERY_CAUSE, NoMemory};
use sftp_wire::status::{EOF, OK};
use sftp_wire::{Answer, Ask, Attrs, ByteString, NameItem, Names, Request};
use std::alloc::Global;

/// How many names a reply to READDIR has at most, unless listings are free.
const PLAIN_MOST: usize = 32;

/// The lowest code of a refusal (draft, section 7); there are seven.
const FIRST_REFUSAL: u32 = 2;

/// How many bytes the names of a reply have about at most.
const LONG: usize = 131_072;

/// Proposes answers that differ from those of this program's own sessions in what is free, pseudorandomly: a seed fixes
/// the choices.
///
/// Each freedom has a source of choices of its own, so that the choices of one do not depend on which others are used.
#[derive(Drop)]
pub struct Vary {
    freedoms: Freedoms,
    handles: Dice,
    listings: Dice,
    longnames: Dice,
    times: Dice,
    pairs: Dice,
    attributes: Dice,
    codes: Dice,
    texts: Dice,
    /// How many handles were proposed.
    opened: u32,
}

impl Proposer for Vary {
    fn propose(
        &mut self,
        session: &Session<GivenTable>,
        request: &Request,
    ) -> Result<Option<Answer>, NoMemory> {
        self.proposal(session, &request.ask)
    }
}

impl Vary {
    /// Proposes answers that are varied so.
    pub fn new(variation: Variation) -> Vary {
        let seed = variation.seed;
        Vary {
            freedoms: variation.freedoms,
            handles: Dice::new(seed, Freedom::Handles.number()),
            listings: Dice::new(seed, Freedom::Listings.number()),
            longnames: Dice::new(seed, Freedom::Longnames.number()),
            times: Dice::new(seed, Freedom::Times.number()),
            pairs: Dice::new(seed, Freedom::Pairs.number()),
            attributes: Dice::new(seed, Freedom::Attributes.number()),
            codes: Dice::new(seed, Freedom::Codes.number()),
            texts: Dice::new(seed, Freedom::Texts.number()),
            opened: 0,
        }
    }

    /// What the answer to a request could be. `None` leaves it to the session.
    fn proposal(
        &mut self,
        session: &Session<GivenTable>,
        ask: &Ask,
    ) -> Result<Option<Answer>, NoMemory> {
        let alloc = session.tree().allocator();
        let causes = session.causes(ask)?;
        if causes.has_any() {
            return self.refusal(causes, alloc);
        }
        match ask {
            Ask::Open { .. } | Ask::Opendir { .. } => self.handle(alloc),
            Ask::Readdir { handle } => match session.listing(handle.as_slice()) {
                Some(left) => self.names(left, alloc),
                None => Ok(None),
            },
            _ => self.done(session, ask, alloc),
        }
    }

    /// A refusal for one of these causes, if its code or its texts are free.
    fn refusal(&mut self, causes: Causes, alloc: Global) -> Result<Option<Answer>, NoMemory> {
        let code = if self.freedoms.has(Freedom::Codes) {
            any_code(&mut self.codes, causes)
        } else {
            first_code(causes)
        };
        match code {
            Some(code) => self.status(code, alloc),
            None => Ok(None),
        }
    }

    /// A STATUS of this code, if its code or its texts are free.
    fn status(&mut self, code: u32, alloc: Global) -> Result<Option<Answer>, NoMemory> {
        if !self.freedoms.has(Freedom::Texts) {
            return Ok(Some(Answer::Status {
                code,
                message: ByteString::new(Vec::new(alloc)),
                language: ByteString::new(Vec::new(alloc)),
            }));
        }
        let wild = self.freedoms.is_wild();
        let message = message(&mut self.texts, wild, alloc)?;
        match tag(&mut self.texts, wild, alloc) {
            Ok(language) => Ok(Some(Answer::Status {
                code,
                message,
                language,
            })),
            Err(error) => Err(error),
        }
    }

    /// A new handle.
    fn handle(&mut self, alloc: Global) -> Result<Option<Answer>, NoMemory> {
        let number = self.opened;
        self.opened = number.wrapping_add(1);
        let name = if self.freedoms.has(Freedom::Handles) {
            any_handle(&mut self.handles, alloc)?
        } else {
            plain_handle(number, alloc)?
        };
        Ok(Some(Answer::Handle(ByteString::new(name))))
    }

    /// What the reply says to a request that no cause refuses, and that neither opens anything nor takes names.
    fn done(
        &mut self,
        session: &Session<GivenTable>,
        ask: &Ask,
        alloc: Global,
    ) -> Result<Option<Answer>, NoMemory> {
        match session.unchanging_answer(ask) {
            Some(Ok(answer)) => self.dressed(answer, alloc),
            Some(Err(_)) => Ok(None),
            None => self.status(OK, alloc),
        }
    }

    /// The answer to a query, with other values where they are free.
    fn dressed(&mut self, answer: Answer, alloc: Global) -> Result<Option<Answer>, NoMemory> {
        match answer {
            Answer::Attrs(attrs) => match self.with_free(&attrs, alloc) {
                Ok(attrs) => Ok(Some(Answer::Attrs(attrs))),
                Err(error) => Err(error),
            },
            Answer::Name(names) => {
                let named = self.only_name(&names, alloc);
                drop(names);
                named
            }
            Answer::Status { code, .. } => self.status(code, alloc),
            Answer::Data(bytes) => Ok(Some(Answer::Data(bytes))),
            Answer::Extended(bytes) => Ok(Some(Answer::Extended(bytes))),
            Answer::Handle(name) => Ok(Some(Answer::Handle(name))),
        }
    }

    /// The only name of REALPATH or READLINK.
    fn only_name(&mut self, names: &Names, alloc: Global) -> Result<Option<Answer>, NoMemory> {
        match names.as_slice() {
            [item] => {
                let shown = if self.freedoms.has(Freedom::Attributes) {
                    dummy(&mut self.attributes)
                } else {
                    empty()
                };
                let item = self.item(item.filename.as_slice(), &shown, alloc);
                drop(shown);
                name_alone(item, alloc)
            }
            _ => Ok(None),
        }
    }

    /// Names of a listing; or that there are no more.
    fn names(&mut self, left: &Listing, alloc: Global) -> Result<Option<Answer>, NoMemory> {
        let is_free = self.freedoms.has(Freedom::Listings);
        let (most, order) = if is_free {
            (any_most(&mut self.listings), Order::any(&mut self.listings))
        } else {
            (PLAIN_MOST, Order::Rising)
        };
        let names = left.first_names(alloc, most)?;
        if names.is_empty() {
            return self.status(EOF, alloc);
        }
        let count = if is_free {
            self.listings.below(names.len()) + 1
        } else {
            names.len()
        };
        let items = self.items(left, names, order, count, alloc)?;
        Ok(Some(Answer::Name(Names::new(items))))
    }

    /// The items of this many of the names, taken in this order; fewer, if they are long.
    fn items(
        &mut self,
        left: &Listing,
        names: Vec<ByteString>,
        order: Order,
        count: usize,
        alloc: Global,
    ) -> Result<Vec<NameItem>, NoMemory> {
        let mut names = names;
        let mut items = Vec::new(alloc);
        let mut long = 0usize;
        for _ in 0..count {
            let Some(name) = order.take(&mut self.listings, &mut names) else {
                break;
            };
            let item = self.listed(left, &name, alloc)?;
            long = long.saturating_add(length_of(&item));
            items.push(item)?;
            if long > LONG {
                break;
            }
        }
        Ok(items)
    }

    /// The item of a name that is left.
    fn listed(
        &mut self,
        left: &Listing,
        name: &ByteString,
        alloc: Global,
    ) -> Result<NameItem, NoMemory> {
        match Name::from_slice(alloc, name.as_slice())? {
            Some(found) => match left.find(&found) {
                Some(shown) => self.item(name.as_slice(), shown, alloc),
                None => self.item(name.as_slice(), &empty(), alloc),
            },
            None => self.item(name.as_slice(), &empty(), alloc),
        }
    }

    /// An item of this name, with these attributes and what is free of them and of its long name.
    fn item(&mut self, name: &[u8], shown: &Attrs, alloc: Global) -> Result<NameItem, NoMemory> {
        let filename = ByteString::from_slice(alloc, name)?;
        let longname = if self.freedoms.has(Freedom::Longnames) {
            longname(&mut self.longnames, self.freedoms.is_wild(), alloc, name)?
        } else {
            ByteString::from_slice(alloc, name)?
        };
        let attrs = self.with_free(shown, alloc)?;
        Ok(NameItem {
            filename,
            longname,
            attrs,
        })
    }

    /// Attributes, with times and pairs as they are free.
    fn with_free(&mut self, shown: &Attrs, alloc: Global) -> Result<Attrs, NoMemory> {
        let extended = if self.freedoms.has(Freedom::Pairs) {
            any_pairs(&mut self.pairs, alloc)?
        } else {
            None
        };
        let times = if self.freedoms.has(Freedom::Times) {
            any_times(&mut self.times)
        } else {
            None
        };
        Ok(Attrs {
            size: shown.size,
            owner: shown.owner,
            permissions: shown.permissions,
            times,
            extended,
        })
    }
}

/// The answer with this name alone.
fn name_alone(item: Result<NameItem, NoMemory>, alloc: Global) -> Result<Option<Answer>, NoMemory> {
    match item {
        Ok(item) => {
            let mut items = Vec::new(alloc);
            items.push(item)?;
            Ok(Some(Answer::Name(Names::new(items))))
        }
        Err(error) => Err(error),
    }
}

/// A code that some of the causes allows: any.
fn any_code(dice: &mut Dice, causes: Causes) -> Option<u32> {
    let start = dice.below(7) as u32;
    for step in 0..7u32 {
        let code = FIRST_REFUSAL + (start + step) % 7;
        if causes.allow(code) {
            return Some(code);
        }
    }
    None
}

/// The code of the first of the causes.
fn first_code(causes: Causes) -> Option<u32> {
    for cause in EVERY_CAUSE {
        if causes.holds(cause) {
            return Some(cause.code());
        }
    }
    None
}

/// About how many bytes an item takes, its pairs aside.
fn length_of(item: &NameItem) -> usize {
    item.filename
        .as_slice()
        .len()
        .saturating_add(item.longname.as_slice().len())
        .saturating_add(100)
}

/// Attributes without any field.
fn empty() -> Attrs {
    Attrs {
        size: None,
        owner: None,
        permissions: None,
        times: None,
        extended: None,
    }
}
