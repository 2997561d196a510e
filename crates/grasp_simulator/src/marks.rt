//! Streams whose dial is queued and that arrive nowhere: the node to which they go has begun anew.

ghost use Rattle.std.specs.Prelude.{◌≡◌};
ghost use Rattle.grasp_model_network.specs.World.{end_of};
ghost use Rattle.grasp_simulator.specs.Marking.{is_marked, matches};

use crate::opening::listener;
use grasp_types::Locator;

/// A node had begun anew when so many streams were dialled in this life: those of them that go to the node and whose dial is
/// sent later arrive nowhere.
#[derive(Clone, Copy, Debug, PartialEq, Eq)]
pub(crate) struct Mark {
    /// The life that dials.
    pub(crate) life: u64,
    /// The node that has begun anew.
    pub(crate) node: u8,
    /// How many streams were dialled.
    pub(crate) dialled: u64,
}

impl Mark {
    /// Whether it says so of the stream of this number in this life, which goes there, among so many nodes.
    fn matches(&self, life: u64, number: u64, nodes: u8, to: &Locator) -> bool
        ensures { result ≡ matches (end_of life number) nodes to.now self.now }
    {
        self.life == life && number / 2 < self.dialled && listener(nodes, to) == Some(self.node)
    }
}

/// Whether one of these marks says so of the stream of this number in this life, which goes there, among so many nodes.
pub(crate) fn is_marked(marks: &[Mark], life: u64, number: u64, nodes: u8, to: &Locator) -> bool
    ensures { result ≡ is_marked marks.now nodes (end_of life number) to.now }
{
    marks
        .iter()
        .any(|mark| mark.matches(life, number, nodes, to))
}
