//! A theorem about files of times, as the contract of a function with an empty body.
ghost use Rattle.std.specs.Prelude.{◌≡◌, ◌<◌, ◌^◌, List, ℕ, Ok};
ghost use Rattle.std.specs.List.{AllByRecursion};
ghost use Rattle.sftp_times.specs.Times.{Fits, Rises, spelled, times_at};
ghost use Rattle.sftp_times.specs.declared.entries.Beginning.{Beginning};

/// What is written is read back: a file of times is read as the beginning and the times that it was written from.
pub fn times_are_read()
    ensures { (beginning : Beginning) (times : List ℕ) → Fits beginning → AllByRecursion (λ time. time < 2 ^ 64) times
        → Rises 0 times → times_at (spelled beginning times) ≡ Ok (beginning, times) }
{}
