//! A session under a profile as a judge.
ghost use Rattle.sftp_handles.specs.State.{closed_tree};
ghost use Rattle.sftp_profile.specs.State.{begun};
ghost use Rattle.sftp_profile.specs.Permitted.{Permitted, follows_in};
ghost use Rattle.sftp_profile.specs.Permitted.{permitted-one_end};

use crate::judges::Judge;
use crate::profiles::Profile;
use sftp_judges::Judges;
use sftp_tree::{NoMemory, Tree};
use sftp_wire::{Reply, Request};

/// It allows what the profile permits.
impl Judges for Judge {
    type By = Profile;

    ghost allowed = { Permitted };

    ghost follows = { λ s request reply. follows_in s request.ask reply.answer };

    ghost begun = { begun };

    ghost closed = { λ s. closed_tree s.session };

    fn begin(by: Profile, tree: Tree) -> Result<Self, NoMemory> {
        Judge::new(by, tree)
    }

    #[inline(always)]
    fn accept(&mut self, request: &Request, reply: &Reply) -> Result<bool, NoMemory> {
        Judge::accept(self, request, reply)
    }

    fn follows(&self, request: &Request, reply: &Reply) -> Result<bool, NoMemory> {
        self.is_modelled(request, reply)
    }

    fn into_tree(self) -> Tree {
        Judge::into_tree(self)
    }

    ghost one_end = { permitted-one_end };
}
