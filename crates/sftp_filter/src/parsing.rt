//! Expressions, read from their texts: `||` joins what `&&` joins, which are conditions, of which `!` and parentheses
//! make others.

use crate::errors::{Fault, Mistake};
use crate::expressions::{Comparison, Expression, FieldName, Test, Wanted};
use crate::fields::{ASKED, Name, REPLY, close_to, name_of};
use crate::groups::{Group, negated_if};
use crate::scanning::{Placed, tokens_of};
use crate::tokens::{Operator, Sign, Token};
use crate::wanted::{check_operator, unknown, wanted_by};
use crate::words;
use std::alloc::Global;

/// How many parentheses may be open at a time.
pub const DEEPEST: usize = 64;

/// The expression that a text is. It takes memory for each part of the text.
///
/// # Errors
///
/// The first mistake of the text, or that memory ran out.
pub fn parse<'t>(alloc: Global, text: &'t str) -> Result<Expression, Mistake<'t>> {
    match parsed(alloc, text) {
        Ok(expression) => Ok(expression),
        Err((place, fault)) => Err(Mistake {
            place,
            column: column_at(text, place),
            fault,
        }),
    }
}

/// The column of a byte, in characters from 1.
fn column_at(text: &str, place: usize) -> usize {
    let before = text.as_bytes().get(..place).unwrap_or(text.as_bytes());
    let mut column = 1_usize;
    for byte in before {
        if byte & 0xc0 != 0x80 {
            column = column.saturating_add(1);
        }
    }
    column
}

fn parsed<'t>(alloc: Global, text: &'t str) -> Result<Expression, Placed<'t>> {
    let tokens = tokens_of(alloc, text)?;
    let mut parser = Parser {
        alloc,
        outer: Vec::new(alloc),
        group: Group::new(alloc, 0, false),
        is_negated: false,
        state: State::Before,
    };
    let taken = parser.take_all(tokens.as_slice());
    drop(tokens);
    match taken {
        Ok(()) => parser.finish(text.len()),
        Err(placed) => {
            drop(parser);
            Err(placed)
        }
    }
}

/// Where in an expression a text is.
#[derive(Clone, Copy)]
enum State {
    /// A condition comes next.
    Before,
    /// A field is named.
    Named(Name),
    /// A field is named, and how it is compared.
    Compared(Name, Operator),
    /// A condition ends.
    Behind,
}

/// Reads an expression.
#[derive(Drop)]
struct Parser {
    alloc: Global,
    /// The groups that are open around the innermost one.
    outer: Vec<Group>,
    /// The innermost group that is open.
    group: Group,
    /// Whether a `!` stands before the next condition.
    is_negated: bool,
    state: State,
}

impl Parser {
    /// Takes all parts of a text.
    fn take_all<'t>(&mut self, tokens: &[Token<'t>]) -> Result<(), Placed<'t>> {
        for token in tokens {
            if let Err(fault) = self.take(*token) {
                return Err((token.place, fault));
            }
        }
        Ok(())
    }

    /// Takes the next part.
    fn take<'t>(&mut self, token: Token<'t>) -> Result<(), Fault<'t>> {
        match self.state {
            State::Before => self.begin(token),
            State::Named(name) => self.take_behind_name(name, token),
            State::Compared(name, operator) => self.take_value(name, operator, token.sign),
            State::Behind => self.join(token.sign),
        }
    }

    /// Takes what a condition begins with.
    fn begin<'t>(&mut self, token: Token<'t>) -> Result<(), Fault<'t>> {
        match token.sign {
            Sign::Not => {
                self.is_negated = !self.is_negated;
                Ok(())
            }
            Sign::Opening => self.open(token.place),
            Sign::Word(word) if is_name(word) => { self.add(test_of(word)?) }
            Sign::Word(word) => self.take_field(word),
            _ => Err(Fault::Condition),
        }
    }

    /// Takes the name of a field.
    fn take_field<'t>(&mut self, word: &'t str) -> Result<(), Fault<'t>> {
        match name_of(word) {
            Some(name) => {
                self.state = State::Named(name);
                Ok(())
            }
            None => Err(Fault::Field(word, close_to(word))),
        }
    }

    /// Takes what follows the name of a field: how it is compared, or what ends a condition.
    fn take_behind_name<'t>(&mut self, name: Name, token: Token<'t>) -> Result<(), Fault<'t>> {
        match token.sign {
            Sign::Operator(operator) => {
                check_operator(name.kind, operator)?;
                self.state = State::Compared(name, operator);
                Ok(())
            }
            sign => {
                self.add(Test::Has(FieldName(name)))?;
                self.join(sign)
            }
        }
    }

    /// Takes what a field is compared with.
    fn take_value<'t>(
        &mut self,
        name: Name,
        operator: Operator,
        sign: Sign<'t>,
    ) -> Result<(), Fault<'t>> {
        let wanted = wanted_by(self.alloc, name.kind, sign)?;
        self.add(Test::Compares(FieldName(name), Comparison { operator, wanted }))
    }

    /// Takes what joins two conditions, or ends a group.
    fn join<'t>(&mut self, sign: Sign<'t>) -> Result<(), Fault<'t>> {
        match sign {
            Sign::And => {
                self.state = State::Before;
                Ok(())
            }
            Sign::Or => {
                self.group.turn(self.alloc)?;
                self.state = State::Before;
                Ok(())
            }
            Sign::Closing => self.close(),
            _ => Err(Fault::Joint),
        }
    }

    /// Adds a condition on one field.
    fn add<'t>(&mut self, test: Test) -> Result<(), Fault<'t>> {
        let condition = negated_if(self.alloc, self.is_negated, Expression::Test(test))?;
        self.group.add(condition)?;
        self.is_negated = false;
        self.state = State::Behind;
        Ok(())
    }

    /// Opens a group, whose parenthesis is at this byte.
    fn open<'t>(&mut self, place: usize) -> Result<(), Fault<'t>> {
        if self.outer.len() >= DEEPEST {
            return Err(Fault::Depth);
        }
        let inner = Group::new(self.alloc, place, self.is_negated);
        let outer = std::mem::replace(&mut self.group, inner);
        self.is_negated = false;
        match self.outer.push(outer) {
            Ok(()) => Ok(()),
            Err(_no_memory) => Err(Fault::NoMemory),
        }
    }

    /// Closes the innermost group, which is a condition of the one around it.
    fn close<'t>(&mut self) -> Result<(), Fault<'t>> {
        let Some(outer) = self.outer.pop() else {
            return Err(Fault::Unopened);
        };
        let inner = std::mem::replace(&mut self.group, outer);
        let condition = inner.finish(self.alloc)?;
        self.group.add(condition)?;
        self.state = State::Behind;
        Ok(())
    }

    /// The expression, whose text ends at this byte.
    fn finish<'t>(mut self, end: usize) -> Result<Expression, Placed<'t>> {
        match self.end() {
            Ok(()) => self.whole(end),
            Err(fault) => Err((end, fault)),
        }
    }

    /// Takes the end of the text.
    fn end<'t>(&mut self) -> Result<(), Fault<'t>> {
        match self.state {
            State::Before => Err(Fault::Condition),
            State::Named(name) => self.add(Test::Has(FieldName(name))),
            State::Compared(name, _) => Err(missing(name)),
            State::Behind => Ok(()),
        }
    }

    /// The expression, if no group is open.
    fn whole<'t>(self, end: usize) -> Result<Expression, Placed<'t>> {
        if !self.outer.is_empty() {
            return Err((self.group.place, Fault::Unclosed));
        }
        match self.group.finish(self.alloc) {
            Ok(expression) => Ok(expression),
            Err(_no_memory) => Err((end, Fault::NoMemory)),
        }
    }
}

/// That what a field is compared with is missing.
fn missing<'t>(name: Name) -> Fault<'t> {
    Fault::Wanted(crate::wanted::wanted_at(name.kind))
}

/// The condition that the name of a packet or of a code is: that of the request or of the reply.
fn test_of(word: &str) -> Result<Test, Fault<'_>> {
    if let Some(kind) = words::request_named(word) {
        return Ok(is_packet(ASKED, Wanted::Packet(kind)));
    }
    if let Some(kind) = words::reply_named(word) {
        return Ok(is_packet(REPLY, Wanted::Packet(kind)));
    }
    match words::code_named(word) {
        Some(code) => Ok(is_packet(REPLY, Wanted::Code(code))),
        None => Err(unknown(word)),
    }
}

/// The condition that a packet is this one.
fn is_packet(name: Name, wanted: Wanted) -> Test {
    Test::Compares(
        FieldName(name),
        Comparison {
            operator: Operator::Equal,
            wanted,
        },
    )
}

/// Whether a word is to be the name of a packet or of a code: those begin with a capital letter.
fn is_name(word: &str) -> bool {
    match word.as_bytes() {
        [first, ..] => first.is_ascii_uppercase(),
        [] => false,
    }
}
