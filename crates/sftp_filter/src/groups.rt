//! Groups of conditions: the whole expression, and what is in parentheses.

use crate::expressions::Expression;
use std::alloc::{AllocError, Global};

/// A group of conditions that is being read.
#[derive(Drop)]
pub(crate) struct Group {
    /// At which byte of the text its parenthesis is.
    pub(crate) place: usize,
    /// Whether a `!` stands before it.
    is_negated: bool,
    /// What `||` joins, but for the last part.
    parts: Vec<Expression>,
    /// What `&&` joins in the last part.
    conditions: Vec<Expression>,
}

impl Group {
    /// A group of which nothing is read yet.
    pub(crate) fn new(alloc: Global, place: usize, is_negated: bool) -> Group {
        Group {
            place,
            is_negated,
            parts: Vec::new(alloc),
            conditions: Vec::new(alloc),
        }
    }

    /// Adds a condition.
    pub(crate) fn add(&mut self, condition: Expression) -> Result<(), AllocError> {
        self.conditions.push(condition)?;
        Ok(())
    }

    /// Ends a part: what is read next is another one.
    pub(crate) fn turn(&mut self, alloc: Global) -> Result<(), AllocError> {
        let conditions = std::mem::replace(&mut self.conditions, Vec::new(alloc));
        self.parts.push(all_of(conditions))?;
        Ok(())
    }

    /// The condition that the group is.
    pub(crate) fn finish(mut self, alloc: Global) -> Result<Expression, AllocError> {
        self.turn(alloc)?;
        let is_negated = self.is_negated;
        negated_if(alloc, is_negated, any_of(self.parts))
    }
}

/// What holds where all of these do.
fn all_of(conditions: Vec<Expression>) -> Expression {
    let mut conditions = conditions;
    if conditions.len() == 1 {
        if let Some(only) = conditions.pop() {
            return only;
        }
    }
    Expression::All(conditions)
}

/// What holds where one of these does.
fn any_of(parts: Vec<Expression>) -> Expression {
    let mut parts = parts;
    if parts.len() == 1 {
        if let Some(only) = parts.pop() {
            return only;
        }
    }
    Expression::Any(parts)
}

/// The condition, or what holds where it does not.
pub(crate) fn negated_if(
    alloc: Global,
    is_negated: bool,
    condition: Expression,
) -> Result<Expression, AllocError> {
    if is_negated {
        Ok(Expression::Not(Box::new(alloc, condition)?))
    } else {
        Ok(condition)
    }
}
