//! What stands at a history of a game that is given as a table.
ghost use Rattle.std.specs.Prelude.{◌≡◌, ◌≤◌, length, sum};
ghost use Rattle.std.specs.List.{list_all};
ghost use Rattle.spiel_test_games.specs.Node.{are_outcomes, are_pays, entry_after, is_decision, is_node, is_printable, is_printed, is_total, weights_in};

/// What stands at a history: who is next, and to which nodes of the table the numbers lead, which are
/// 0 and on. Where a number leads to no node of the table, the play is over, and nobody gets anything.
#[derive(Clone, Copy, Debug)]
pub enum Node {
    /// Chance draws one of these outcomes, each with its weight and the node to which it leads.
    Chance(&'static [(u64, u32)]),
    /// The player moves, who sees this text and has one number for each of these nodes.
    Decision(u32, &'static [u8], &'static [u32]),
    /// The play is over, and each player gets this, in parts of 1/unit: 0 where nothing is given.
    Terminal(&'static [i64]),
}

/// The greatest size of a return, the greatest unit, and the greatest sum of weights: 2^62.
pub(crate) const CAP: u64 = 0x4000_0000_0000_0000;

/// Where in the table a number leads.
pub(crate) fn entry_after(node: Node, number: u32) -> Option<u32>
    ensures { result ≡ entry_after node number }
{
    match node {
        Node::Chance(outcomes) => match outcomes.get(number as usize) {
            Some((_, entry)) => Some(*entry),
            None => None,
        },
        Node::Decision(_, _, entries) => entries.get(number as usize).copied(),
        Node::Terminal(_) => None,
    }
}

/// Whether these are nodes that a game of so many players may have.
pub(crate) fn are_nodes(players: u32, nodes: &[Node]) -> bool
    ensures { result ≡ list_all (λ node. is_node players node) nodes.now }
{
    nodes.iter().all(|node| is_node(players, node))
}

fn is_node(players: u32, node: &Node) -> bool
    ensures { result ≡ is_node players node.now }
{
    match *node {
        Node::Chance(outcomes) => are_outcomes(outcomes),
        Node::Decision(mover, seen, entries) => is_decision(players, mover, seen, entries),
        Node::Terminal(pays) => are_pays(pays),
    }
}

fn are_outcomes(outcomes: &[(u64, u32)]) -> bool
    ensures { result ≡ are_outcomes outcomes.now }
{
    outcomes.len() <= 1048576 && is_total(total(outcomes))
}

fn is_total(total: u128) -> bool
    ensures { result ≡ is_total total }
{
    1 <= total && total <= u128::from(CAP)
}

/// The sum of the weights.
fn total(outcomes: &[(u64, u32)]) -> u128
    requires { length outcomes.now ≤ 1048576 }
    ensures { result ≡ sum (weights_in outcomes.now) }
{
    let mut total = 0u128;
    for (weight, _) in outcomes {
        total += u128::from(*weight);
    }
    total
}

fn is_decision(players: u32, mover: u32, seen: &[u8], entries: &[u32]) -> bool
    ensures { result ≡ is_decision players mover seen.now entries.now }
{
    mover < players && is_printable(seen) && 1 <= entries.len() && entries.len() <= 1048576
}

/// Whether this is a text of at most 32,768 printable ASCII characters.
fn is_printable(text: &[u8]) -> bool
    ensures { result ≡ is_printable text.now }
{
    text.len() <= 32768 && are_printed(text)
}

/// Whether all bytes are printable ASCII.
fn are_printed(text: &[u8]) -> bool
    ensures { result ≡ list_all is_printed text.now }
{
    text.iter().all(|&byte| is_printed(byte))
}

fn is_printed(byte: u8) -> bool
    ensures { result ≡ is_printed byte }
{
    32 <= byte && byte <= 126
}

fn are_pays(pays: &[i64]) -> bool
    ensures { result ≡ are_pays pays.now }
{
    pays.iter().all(|&pay| pay.unsigned_abs() <= CAP)
}
