//! What an auditor asks of a judge.
ghost use Rattle.std.specs.Prelude.{◌≡◌, Bool, true, false, IsTrue, IfOk};
ghost use Rattle.sftp_packets.specs.declared.packets.Request.{Request as Asked};
ghost use Rattle.sftp_packets.specs.declared.packets.Reply.{Reply as Replied};
ghost use Rattle.sftp_tree.specs.Tree as values;
ghost use Rattle.sftp_handles.specs.State.{started, closed_tree};
ghost use Rattle.sftp_handles.specs.Allowed.{Allowed};
ghost use Rattle.sftp_handles.proofs.Judged.{allowed-one_end};

use sftp_handles::{GivenTable, Session};
use sftp_packets::{Reply, Request};
use sftp_tree::{NoMemory, Tree};

/// A judge of a session: the state of the session so far, and which reply to the next request leads to which state.
pub trait Judges: Sized + Drop {
    /// What it judges by, beside the tree.
    type By: Copy;

    /// The reply to the request is allowed in the first state, and leads to the second one.
    ghost allowed: { Self → Asked → Replied → Self → Type 0 };

    /// Whether the judge follows the request with this reply. If not, what was asked for is beyond its model.
    ghost follows: { Self → Asked → Replied → Bool };

    /// The state in which a session begins on a tree, with nothing open.
    ghost begun: { Self.By → values.Tree → Self };

    /// The tree of a state, once nothing is open.
    ghost closed: { Self → values.Tree };

    /// A judge of a session that begins on this tree, with nothing open. The pins that the tree came with are taken
    /// away.
    ///
    /// # Errors
    ///
    /// `NoMemory` if memory runs out.
    fn begin(by: Self::By, tree: Tree) -> Result<Self, NoMemory>
        ensures { IfOk result (λ judge. judge ≡ begun by tree) };

    /// Whether the reply to a request is allowed. If so, the session takes the step; if not, it is unchanged.
    ///
    /// # Errors
    ///
    /// `NoMemory` if memory runs out. The session may then have changed.
    fn accept(&mut self, request: &Request, reply: &Reply) -> Result<bool, NoMemory>
        ensures allowed { IfOk result (λ ok. IsTrue ok → allowed self.old request.now reply.now self.new) }
        ensures refused { IfOk result
            (λ ok. ok ≡ false → (end : Self) → allowed self.old request.now reply.now end → ⊥) }
        ensures kept { IfOk result (λ ok. ok ≡ false → self.new ≡ self.old) };

    /// Whether the judge follows a request with this reply.
    ///
    /// # Errors
    ///
    /// `NoMemory` if memory runs out.
    fn follows(&self, request: &Request, reply: &Reply) -> Result<bool, NoMemory>
        ensures { IfOk result (λ ok. ok ≡ follows self.now request.now reply.now) };

    /// The tree where the session ends, as if what is still open were closed. Does not allocate.
    fn into_tree(self) -> Tree
        ensures { result ≡ closed self };

    /// A state, a request and its reply fix the state after them.
    ghost one_end: { (s : Self) (request : Asked) (reply : Replied) (a b : Self) →
        allowed s request reply a → allowed s request reply b → a ≡ b };
}

/// The strict judge: a session, which allows what the draft does, and follows each request.
impl Judges for Session<GivenTable> {
    type By = ();

    ghost allowed = { Allowed };

    ghost follows = { λ s request reply. true };

    ghost begun = { λ by tree. started tree };

    ghost closed = { closed_tree };

    fn begin(_by: (), tree: Tree) -> Result<Self, NoMemory> {
        Session::new(tree)
    }

    fn accept(&mut self, request: &Request, reply: &Reply) -> Result<bool, NoMemory> {
        Session::accept(self, request, reply)
    }

    fn follows(&self, _request: &Request, _reply: &Reply) -> Result<bool, NoMemory> {
        Ok(true)
    }

    fn into_tree(self) -> Tree {
        Session::into_tree(self)
    }

    ghost one_end = { allowed-one_end };
}
