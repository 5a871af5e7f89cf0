//! A tree and a policy for it, with the total of the weights at each history.
ghost use Rattle.std.specs.Prelude.{◌≡◌, ◌<◌, length};
ghost use Rattle.spiel_tree.specs.Flat.{row_at};
ghost use Rattle.spiel_response.specs.Reach.{total_of};
ghost use Rattle.spiel_response.specs.Weighed.{IsJudgeable};

use crate::factors::total_at;
use spiel_policy::Policy;
use spiel_tree::Tree;
use std::marker::Model;

/// A tree and a policy for it.
#[derive(Drop)]
pub(crate) struct WeighedTree<'a> {
    pub tree: &'a Tree,
    pub policy: &'a Policy,
}

impl<'a> Model for WeighedTree<'a> {
    ghost use Rattle.spiel_response.specs.Values.{Judged};
    ghost use Rattle.spiel_response.specs.Weighed.{IsJudgeable};

    ghost Value = { Judged };

    ghost view = { λ w. record { tree = w.tree.now; profile = w.policy.now } };

    ghost invariant = { λ w. IsJudgeable (record { tree = w.tree.now; profile = w.policy.now }) };
}

impl<'a> WeighedTree<'a> {
    /// A tree and a policy for it.
    pub fn new(tree: &'a Tree, policy: &'a Policy) -> WeighedTree<'a>
        requires { IsJudgeable (record { tree = tree.now; profile = policy.now }) }
        ensures judged { result ≡ record { tree = tree.now; profile = policy.now } }
        ensures judgeable { IsJudgeable result }
    {
        WeighedTree { tree, policy }
    }

    /// What the weights at a history sum to.
    pub fn total(&self, row: u32) -> u128
        requires { row < length self.now.tree.rows }
        ensures { result ≡ total_of self.now.tree.rows self.now.profile (row_at self.now.tree.rows row).here }
    {
        total_at(self.tree, self.policy, row)
    }
}
