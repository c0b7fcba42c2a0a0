//! Which names a reply to READDIR gives, and in which order.
use crate::dice::Dice;
use sftp_wire::ByteString;

/// How many of the first names that are left are looked at: mostly few, at times as many as make a long reply.
pub(crate) fn any_most(dice: &mut Dice) -> usize {
    match dice.below(8) {
        0 | 1 => 1,
        2 | 3 => dice.below(4) + 1,
        4 | 5 => dice.below(32) + 1,
        6 => dice.below(100) + 33,
        _ => 400,
    }
}

/// The order in which names are taken.
#[derive(Clone, Copy)]
pub(crate) enum Order {
    /// As they stand.
    Rising,
    /// The last first.
    Falling,
    /// Any.
    Any,
}

impl Order {
    /// Any order.
    pub(crate) fn any(dice: &mut Dice) -> Order {
        match dice.below(3) {
            0 => Order::Rising,
            1 => Order::Falling,
            _ => Order::Any,
        }
    }

    /// Takes the next name in this order.
    pub(crate) fn take(self, dice: &mut Dice, names: &mut Vec<ByteString>) -> Option<ByteString> {
        if names.is_empty() {
            return None;
        }
        match self {
            Order::Rising => Some(names.remove(0)),
            Order::Falling => names.pop(),
            Order::Any => {
                let place = dice.below(names.len());
                Some(names.swap_remove(place))
            }
        }
    }
}
