//! A theorem about files of orders, as the contract of a function with an empty body.
ghost use Rattle.std.specs.Prelude.{◌≡◌, ◌<◌, ◌^◌, None, List, ℕ, Ok, length};
ghost use Rattle.sftp_orders.specs.Orders.{AreNames, ArePlaces, spelled, order_at};

/// What is written is read back: a file of an order of whole requests is read as the names and the places that it was
/// written from, whatever it says of pieces.
pub fn orders_are_read()
    ensures { (names : List (List ℕ)) (piece : ℕ) (places : List ℕ) → length names < 2 ^ 32 → piece < 2 ^ 32
        → AreNames None names → ArePlaces (length names) places
        → order_at (spelled names piece places) ≡ Ok (names, places) }
{}
