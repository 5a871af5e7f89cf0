//! What is wrong with a file, and what each fault says.
ghost use Rattle.std.specs.Prelude.{Some};
ghost use Rattle.spiel_efg.specs.Faults.{fault_text};

use spiel_frac::NoMemory;
use std::alloc::AllocError;
use std::error::Error;
use std::fmt;

/// What is wrong with an `.efg` file. `Token` comes before all else. The tokens are read from left to
/// right, and the first fault that is met is the one that is answered. Bytes, tokens and nodes are
/// counted from 0.
#[derive(Clone, Copy, Debug, PartialEq, Eq)]
pub enum EfgFault {
    /// A text isn't closed. It is opened by the quote at this byte.
    Token { at: u32 },
    /// The first token that can't follow, or the number of tokens where the file ends too early.
    Grammar { token: u32 },
    /// There are no players, or more than 64.
    Players,
    /// The node mentions a set first without actions, or later with others.
    SetClash { node: u32 },
    /// A probability is negative, or the sum of the probabilities isn't 1.
    ChanceSum { node: u32 },
    /// The least common denominator of the probabilities passes 2^62.
    ChanceTooFine { node: u32 },
    /// The node mentions an outcome first without payoffs, or later with others, or it gives payoffs
    /// to outcome 0.
    OutcomeClash { node: u32 },
    /// There are more than 1,048,576 nodes, or more than 1,024 moves above one.
    TooLarge,
    /// The least common denominator of the payoffs passes 2^62, or in that unit a payoff does in
    /// size, or the sum of a player along a path to a leaf.
    PayTooFine,
    /// Memory ran out.
    NoMemory,
}

impl fmt::Display for EfgFault {
    ghost output = { λ fault. Some (fault_text fault) };

    fn fmt<W: fmt::Write>(&self, f: &mut fmt::Formatter<W>) -> fmt::Result {
        match self {
            EfgFault::Token { at } => write!(f, "efg: unclosed text at {at}"),
            EfgFault::Grammar { token } => write!(f, "efg: grammar at token {token}"),
            EfgFault::Players => write!(f, "efg: bad number of players"),
            EfgFault::SetClash { node } => write!(f, "efg: set clash at node {node}"),
            EfgFault::ChanceSum { node } => write!(f, "efg: chance sum at node {node}"),
            EfgFault::ChanceTooFine { node } => write!(f, "efg: chance too fine at node {node}"),
            EfgFault::OutcomeClash { node } => write!(f, "efg: outcome clash at node {node}"),
            EfgFault::TooLarge => write!(f, "efg: too large"),
            EfgFault::PayTooFine => write!(f, "efg: payoffs too fine"),
            EfgFault::NoMemory => write!(f, "no memory"),
        }
    }
}

impl Error for EfgFault {}

impl From<NoMemory> for EfgFault {
    ghost use Rattle.std.specs.Prelude.{◌≡◌};
    ghost use Rattle.spiel_efg.specs.declared.read_fault.EfgFault.TheVariants.{NoMemory as EfgNoMemory};

    ghost from_gives = { λ _ fault. fault ≡ EfgNoMemory };

    fn from(_error: NoMemory) -> EfgFault {
        EfgFault::NoMemory
    }
}

impl From<AllocError> for EfgFault {
    ghost use Rattle.std.specs.Prelude.{◌≡◌};
    ghost use Rattle.spiel_efg.specs.declared.read_fault.EfgFault.TheVariants.{NoMemory as EfgNoMemory};

    ghost from_gives = { λ _ fault. fault ≡ EfgNoMemory };

    fn from(_error: AllocError) -> EfgFault {
        EfgFault::NoMemory
    }
}
