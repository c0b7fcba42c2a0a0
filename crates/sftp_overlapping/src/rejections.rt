//! Why a set is not accepted.
ghost use Rattle.std.specs.Prelude.{◌≡◌};

use sftp_audit::Refusal;
use sftp_files::Failure;
use sftp_together::OrderFault;
use std::alloc::AllocError;

/// Why a set is refused.
#[derive(Clone, Copy)]
pub(crate) enum Cause {
    /// The session of this number is none, whatever the order.
    Session { session: usize, refusal: Refusal },
    /// The order is none.
    Order(OrderFault),
}

/// Why a set is not accepted.
#[derive(Drop)]
pub(crate) enum Rejection<'a> {
    /// It is refused.
    Refused(Cause),
    /// The run failed.
    Failed(Failure<'a>),
}

impl<'a> From<Failure<'a>> for Rejection<'a> {
    ghost use Rattle.sftp_overlapping.specs.declared.rejections.Rejection.TheVariants.{Failed as failed};

    ghost from_gives = { λ failure rejection. rejection ≡ failed failure };

    fn from(failure: Failure<'a>) -> Rejection<'a> {
        Rejection::Failed(failure)
    }
}

impl From<AllocError> for Rejection<'_> {
    ghost use Rattle.sftp_files.specs.declared.messages.Failure.TheVariants.{OutOfMemory as out_of_memory};
    ghost use Rattle.sftp_overlapping.specs.declared.rejections.Rejection.TheVariants.{Failed as failed};

    ghost from_gives = { λ _ rejection. rejection ≡ failed out_of_memory };

    fn from(_error: AllocError) -> Self {
        Rejection::Failed(Failure::OutOfMemory)
    }
}
