// Which body is above which, and what a dof moves.
ghost use Rattle.std.specs.Prelude.{◌≡◌, ◌<◌, ◌≤◌, length};
ghost use Rattle.mj_tree.specs.Tree.{at_or_above, moves, above};
ghost use Rattle.mj_types.specs.Parts.{parent_of, body_of};

use crate::model::Model;

impl Model {
    /// Whether body `a` is body `b` or a body above it, by their numbers.
    pub fn is_at_or_above(&self, a: usize, b: usize) -> bool
        requires { b ≤ length self.now.bodies }
        ensures { result ≡ at_or_above (parent_of self.now.bodies) a b }
    {
        let mut at = b;
        while a < at {
            at = self.bodies.entry(at - 1).parent;
        }
        at == a
    }

    /// Whether the dof at a place moves a body: its joint is on that body or on a body above it.
    pub fn moves(&self, dof: usize, body: usize) -> bool
        requires dof { dof < self.now.nv }
        requires body { body ≤ length self.now.bodies }
        ensures { result ≡ moves (parent_of self.now.bodies) (body_of self.now.dofs) dof body }
    {
        self.is_at_or_above(self.dofs.at(dof).body, body)
    }

    /// Whether the dof at a place is above another: it comes earlier and moves the other's body.
    pub fn is_above(&self, i: usize, k: usize) -> bool
        requires first { i < self.now.nv }
        requires second { k < self.now.nv }
        ensures { result ≡ above (parent_of self.now.bodies) (body_of self.now.dofs) i k }
    {
        i < k && self.moves(i, self.dofs.at(k).body)
    }
}
