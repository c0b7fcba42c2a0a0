//! What expressions are written with.

/// A part of an expression's text.
#[derive(Clone, Copy)]
pub(crate) struct Token<'t> {
    pub(crate) sign: Sign<'t>,
    /// At which byte of the text it begins, from 0.
    pub(crate) place: usize,
}

/// What a part of the text is.
#[derive(Clone, Copy)]
pub(crate) enum Sign<'t> {
    /// `(`
    Opening,
    /// `)`
    Closing,
    /// `&&`
    And,
    /// `||`
    Or,
    /// `!`
    Not,
    Operator(Operator),
    /// The name of a field, a packet, a code or a flag.
    Word(&'t str),
    Number(u64),
    /// A text, as it stands between its quotes.
    Text(&'t str),
}

/// How values are compared.
#[derive(Clone, Copy)]
pub enum Operator {
    Equal,
    Unequal,
    Below,
    AtMost,
    Above,
    AtLeast,
    /// A text is in the other one, or a flag among those that are set.
    Contains,
}

impl Operator {
    /// Whether two numbers compare so.
    pub(crate) fn orders(self, left: u64, right: u64) -> bool {
        match self {
            Operator::Equal => left == right,
            Operator::Unequal => left != right,
            Operator::Below => left < right,
            Operator::AtMost => left <= right,
            Operator::Above => left > right,
            Operator::AtLeast => left >= right,
            Operator::Contains => false,
        }
    }

    /// Whether two values compare so of which it is known whether they are the same.
    pub(crate) fn suits(self, are_same: bool) -> bool {
        match self {
            Operator::Equal => are_same,
            Operator::Unequal => !are_same,
            _ => false,
        }
    }
}
