//! What is done in a network, by the words of a line.

ghost use Rattle.std.specs.Prelude.{◌↔◌, IfSome, IsTrue};
ghost use Rattle.grasp_model_network.specs.Plans.{IsNode};
ghost use Rattle.grasp_tests_turns.specs.Benches.{IsStepFit};

/// What is done. Nodes are 1 or 2.
#[derive(Clone, Copy)]
pub enum Step {
    /// The node is to get a prefix of 64 bits from the other one.
    Want(u8),
    /// The node's agent makes its next call, and its outputs are sent or held.
    Agent(u8, bool),
    /// Another agent of the node registers.
    Register(u8),
    /// It looks for an objective.
    Discover(u8),
    /// The datagram of this number is delivered.
    Datagram(u64),
    /// The stream of this number is opened.
    Arrive(u64),
    /// What was sent on the stream of this number is delivered to a side.
    Bytes(u64, bool),
    /// The node's outputs are sent.
    Drain(u8),
    /// The node begins anew with what it has.
    Restart(u8),
    /// It is to begin anew with nothing.
    Empty(u8),
    /// It is to begin anew with the first prefix free.
    Greedy(u8),
    /// The first prefix is settled at the node, where it may be.
    Settle(u8),
    /// Whether it may be settled.
    Dead(u8),
    /// What the node has of it.
    Tell(u8),
}

/// The step of a line: a word and a number, and perhaps another word.
pub fn step_of(line: &str) -> Option<Step>
    ensures { IfSome result IsStepFit }
{
    let (word, rest) = line.split_once(' ')?;
    let (digits, last) = match rest.split_once(' ') {
        Some((digits, last)) => (digits, last),
        None => (rest, ""),
    };
    let number = digits.parse::<u64>().ok()?;
    match word {
        "datagram" => Some(Step::Datagram(number)),
        "arrive" => Some(Step::Arrive(number)),
        "bytes" => Some(Step::Bytes(number, last == "far")),
        _ => node_step(word, u8::try_from(number).ok()?, last == "held"),
    }
}

/// The step of a node.
fn node_step(word: &str, node: u8, held: bool) -> Option<Step>
    ensures { IfSome result IsStepFit }
{
    if !is_node(node) {
        return None;
    }
    match word {
        "want" => Some(Step::Want(node)),
        "agent" => Some(Step::Agent(node, held)),
        "register" => Some(Step::Register(node)),
        "discover" => Some(Step::Discover(node)),
        "drain" => Some(Step::Drain(node)),
        "restart" => Some(Step::Restart(node)),
        "empty" => Some(Step::Empty(node)),
        "greedy" => Some(Step::Greedy(node)),
        "settle" => Some(Step::Settle(node)),
        "dead" => Some(Step::Dead(node)),
        "tell" => Some(Step::Tell(node)),
        _ => None,
    }
}

/// Whether it is one of the two nodes.
fn is_node(node: u8) -> bool
    ensures { IsTrue result ↔ IsNode 2 node }
{
    1 <= node && node <= 2
}
