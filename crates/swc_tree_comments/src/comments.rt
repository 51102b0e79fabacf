//! Comments, as far as passes move them.
use swc_tree_marks::{BytePos, NoMemory};

/// The comments of a source text, which a pass moves along with the nodes that they stand at.
///
/// Leading comments stand at the start of what they lead, trailing ones at the end of what they trail.
pub trait Comments {
    ghost use Rattle.std.specs.Prelude.{◌≡◌, OnOk, OnErr};
    ghost use Rattle.swc_tree_comments.specs.declared.moves.Move.{Move};
    ghost use Rattle.swc_tree_comments.specs.declared.moves.Move.TheVariants as move;

    /// What a move may lead to.
    ghost moved: { Self → Move → Self → Type 0 };

    /// Moves the leading comments at `from` to `to`. A move that is refused changes nothing.
    fn move_leading(&mut self, from: BytePos, to: BytePos) -> Result<(), NoMemory>
        ensures made { OnOk result (moved self.old (move.Leading from to) self.new) }
        ensures refused { OnErr result (self.new ≡ self.old) };

    /// Moves the trailing comments at `from` to `to`. A move that is refused changes nothing.
    fn move_trailing(&mut self, from: BytePos, to: BytePos) -> Result<(), NoMemory>
        ensures made { OnOk result (moved self.old (move.Trailing from to) self.new) }
        ensures refused { OnErr result (self.new ≡ self.old) };
}

/// No comments: a move does nothing.
#[derive(Clone, Copy, Debug, Default)]
pub struct NoComments;

impl Comments for NoComments {
    ghost use Rattle.std.specs.Prelude.{◌≡◌, IsOk, OnOk, OnErr};

    ghost moved = { λ old _ new. new ≡ old };

    fn move_leading(&mut self, _from: BytePos, _to: BytePos) -> Result<(), NoMemory>
        ensures made { OnOk result (self.new ≡ self.old) }
        ensures refused { OnErr result (self.new ≡ self.old) }
        ensures succeeds { IsOk result }
    {
        Ok(())
    }

    fn move_trailing(&mut self, _from: BytePos, _to: BytePos) -> Result<(), NoMemory>
        ensures made { OnOk result (self.new ≡ self.old) }
        ensures refused { OnErr result (self.new ≡ self.old) }
        ensures succeeds { IsOk result }
    {
        Ok(())
    }
}
