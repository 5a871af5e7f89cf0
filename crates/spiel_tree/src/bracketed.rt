//! How faults show histories.
ghost use Rattle.std.specs.Prelude.{Some, ◌∷◌, cond};
ghost use Rattle.std.specs.Fmt.{decimal};
ghost use Rattle.spiel_tree.specs.FaultTexts.{history_text, pair_text};

use std::fmt;

/// A history: its numbers in brackets, with commas between them.
#[derive(Clone, Copy)]
pub(crate) struct Bracketed<'a>(pub(crate) &'a [u32]);

impl fmt::Display for Bracketed<'_> {
    ghost output = { λ history. Some (history_text history.0.now) };

    fn fmt<W: fmt::Write>(&self, f: &mut fmt::Formatter<W>) -> fmt::Result {
        write!(f, "[")?;
        for (index, number) in self.0.iter().enumerate() {
            let listed = Listed {
                first: index == 0,
                number: *number,
            };
            write!(f, "{listed}")?;
        }
        write!(f, "]")
    }
}

/// A number of a list, behind a comma unless it is the first.
#[derive(Clone, Copy)]
struct Listed {
    first: bool,
    number: u32,
}

impl fmt::Display for Listed {
    ghost output = { λ listed. Some (cond listed.first (decimal listed.number) (44 ∷ decimal listed.number)) };

    fn fmt<W: fmt::Write>(&self, f: &mut fmt::Formatter<W>) -> fmt::Result {
        let number = self.number;
        if self.first {
            write!(f, "{number}")
        } else {
            write!(f, ",{number}")
        }
    }
}

/// A player, and two histories.
#[derive(Clone, Copy)]
pub(crate) struct Pair<'a> {
    pub(crate) player: u32,
    pub(crate) first: &'a [u32],
    pub(crate) second: &'a [u32],
}

impl fmt::Display for Pair<'_> {
    ghost output = { λ pair. Some (pair_text pair.player pair.first.now pair.second.now) };

    fn fmt<W: fmt::Write>(&self, f: &mut fmt::Formatter<W>) -> fmt::Result {
        let player = self.player;
        let first = Bracketed(self.first);
        let second = Bracketed(self.second);
        write!(f, "player {player}: {first} and {second}")
    }
}
