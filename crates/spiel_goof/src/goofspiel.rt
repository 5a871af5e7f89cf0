//! Goofspiel of two players (Ross 1971, "Goofspiel: the game of pure strategy").
ghost use Rattle.std.specs.Prelude.{◌≡◌, ◌<◌, ◌↔◌, ◌++◌, ◌∷◌, ◌+◌, [], IsOk, IfOk, slice_get, flat_map, codes, Some};
ghost use Rattle.std.specs.Bool.{MatchBool};
ghost use Rattle.std.specs.List.{All, Contains};
ghost use Rattle.std.specs.Fmt.{decimal};
ghost use Rattle.spiel_frac.specs.Adding.{Adds};
ghost use Rattle.spiel_api.specs.Rules.{next_of};
ghost use Rattle.spiel_goof.specs.Goofspiel.{IsCardCount, given_points, parts, other_text, outcome_text, stage_text, turn_text, goofspiel_rules};
ghost use Rattle.spiel_goof.specs.Turns.{begun};
ghost use Rattle.spiel_goof.specs.GoofspielPlays.{IsTurnOf, IsStageOf};
ghost use Rattle.spiel_goof.specs.Table.{IsTable};
ghost use Rattle.spiel_goof.specs.GoofspielState.{IsGoofspielAt, rules_of};

use crate::table::Table;
use crate::turns::{Stage, Turn};
use spiel_api::{Game, Place};
use spiel_frac::{List, NoMemory, Text, write_number};
use std::alloc::Global;
use std::error::Error;
use std::fmt;

/// The number of cards isn't 1 to 20.
#[derive(Clone, Copy, Debug, PartialEq, Eq)]
pub struct BadCards;

impl fmt::Display for BadCards {
    ghost output = { λ _. Some (codes "the number of cards isn't 1 to 20") };

    fn fmt<W: fmt::Write>(&self, f: &mut fmt::Formatter<W>) -> fmt::Result {
        write!(f, "the number of cards isn't 1 to 20")
    }
}

impl Error for BadCards {}

/// In which order the point cards come.
#[derive(Clone, Copy, Debug, PartialEq, Eq)]
pub enum PointOrder {
    /// Chance draws one of those that are left, each as likely as another.
    Random,
    /// From the lowest to the highest.
    Ascending,
    /// From the highest to the lowest.
    Descending,
}

/// What a player gets at the end.
#[derive(Clone, Copy, Debug, PartialEq, Eq)]
pub enum ReturnKind {
    /// 1 for more points than the other, -1 for fewer, and 0 for as many.
    WinLoss,
    /// The own points less those of the other.
    PointDifference,
    /// The own points.
    TotalPoints,
}

/// Goofspiel of two players (Ross 1971, "Goofspiel: the game of pure strategy"; the numbers and texts
/// are this project's own).
///
/// There are point cards from 1 on, and each player holds as many cards of the same values. In each
/// turn a point card is shown. Chance draws it from those that are left, or the point cards come
/// rising or falling. Then both players bid a card from their hands at once. The higher bid gains
/// the points of the point card, and nobody does where both bids are the same. The play is over when
/// all point cards have come.
///
/// The number of a card is the card less 1. The name of a drawn card is `point C`, and that of a bid
/// `bid C`. The information text is the point card and both bids of each complete turn, the player's
/// own bid first, and the point card that lies, as `3/1/3 2`. Where bids are hidden, `w`, `l` or `t`
/// stands for the other's bid: the player has won, lost or tied the turn.
#[derive(Clone, Copy, Debug)]
pub struct Goofspiel {
    cards: u32,
    order: PointOrder,
    returns: ReturnKind,
    hidden: bool,
}

/// A state of goofspiel: the numbers of a play, and the table.
#[derive(Drop)]
pub struct GoofspielState {
    history: List<u32>,
    table: Table,
}

impl Goofspiel {
    /// The game with so many point cards, in which the players see no bids of the other where they
    /// are hidden. `BadCards` comes exactly where there aren't 1 to 20 cards.
    pub fn new(
        cards: u32,
        order: PointOrder,
        returns: ReturnKind,
        hidden: bool,
    ) -> Result<Goofspiel, BadCards>
        ensures accepted { IsOk result ↔ IsCardCount cards }
        ensures game { IfOk result (λ game. ⟦<Goofspiel as Game>⟧.is_game game) }
        ensures rules { IfOk result (λ game. ⟦<Goofspiel as Game>⟧.rules game ≡ goofspiel_rules cards order returns hidden) }
    {
        if (1..=20).contains(&cards) {
            Ok(Goofspiel::of(cards, order, returns, hidden))
        } else {
            Err(BadCards)
        }
    }

    /// The same game, of 1 to 20 cards.
    pub fn of(cards: u32, order: PointOrder, returns: ReturnKind, hidden: bool) -> Goofspiel
        requires { IsCardCount cards }
        ensures game { ⟦<Goofspiel as Game>⟧.is_game result }
        ensures rules { ⟦<Goofspiel as Game>⟧.rules result ≡ goofspiel_rules cards order returns hidden }
    {
        Goofspiel {
            cards,
            order,
            returns,
            hidden,
        }
    }

    /// Whether chance draws the point cards.
    fn draws(&self) -> bool
        ensures { MatchBool result (self.now.order ≡ PointOrder.Random) (self.now.order ≡ PointOrder.Random → ⊥) }
    {
        matches!(self.order, PointOrder::Random)
    }

    /// What lies as a turn begins, after so many others.
    fn stage_at(&self, turn: u32) -> Stage
        ensures { result ≡ begun (slice_get (given_points self.now.order self.now.cards) turn) }
    {
        if turn >= self.cards {
            return Stage::Between;
        }
        match self.order {
            PointOrder::Random => Stage::Between,
            PointOrder::Ascending => Stage::Shown { point: turn },
            PointOrder::Descending => Stage::Shown {
                point: self.cards - 1 - turn,
            },
        }
    }

    /// The table after one number more.
    fn after(&self, state: &GoofspielState, action: u32) -> Table
        requires at { IsGoofspielAt self.now state.now }
        requires legal { Contains (next_of (rules_of self.now) state.now.history) action }
        ensures { IsTable result (parts self.now.order self.now.cards (state.now.history ++ action ∷ [])) }
    {
        let table = state.table;
        match table.stage {
            Stage::Between => table.with(Stage::Shown { point: action }),
            Stage::Shown { point } => table.with(Stage::Bid {
                point,
                first: action,
            }),
            Stage::Bid { point, first } => {
                let turn = Turn {
                    point,
                    first,
                    second: action,
                };
                table.after(turn, self.stage_at(table.count() + 1))
            }
        }
    }

    /// Adds the other's bid, or how it went where bids are hidden, and a space.
    fn push_other(&self, own: u32, other: u32, out: &mut Text) -> Result<(), NoMemory>
        requires { other < 20 }
        ensures { Adds result out.old out.new (other_text self.now.hidden own other ++ codes " ") }
    {
        if self.hidden {
            out.push(outcome(own, other))
        } else {
            push_card(other, b" ", out)
        }
    }

    /// Adds a complete turn as the player sees it, and a space.
    fn push_turn(&self, player: u32, turn: &Turn, out: &mut Text) -> Result<(), NoMemory>
        requires player { player < 2 }
        requires cards { IsTurnOf 20 turn.now }
        ensures { Adds result out.old out.new (turn_text self.now.hidden player turn.now) }
    {
        let own = turn.bid(player);
        let other = turn.bid(1 - player);
        push_card(turn.point, b"/", out)?;
        push_card(own, b"/", out)?;
        self.push_other(own, other, out)
    }

    /// Adds complete turns as the player sees them, with a space behind each.
    fn push_turns(&self, player: u32, turns: &[Turn], out: &mut Text) -> Result<(), NoMemory>
        requires player { player < 2 }
        requires cards { All (IsTurnOf 20) turns.now }
        ensures { Adds result out.old out.new (flat_map (turn_text self.now.hidden player) turns.now) }
    {
        for turn in turns {
            self.push_turn(player, turn, out)?;
        }
        Ok(())
    }
}

/// Adds a card, and the mark behind it.
fn push_card(card: u32, mark: &[u8], out: &mut Text) -> Result<(), NoMemory>
    requires { card < 20 }
    ensures { Adds result out.old out.new (decimal (card + 1) ++ mark.now) }
{
    write_number(card + 1, out)?;
    out.push(mark)
}

/// Adds the name of a card that is drawn or bid.
fn push_name(kind: &[u8], card: u32, out: &mut Text) -> Result<(), NoMemory>
    requires { card < 20 }
    ensures { Adds result out.old out.new (kind.now ++ decimal (card + 1)) }
{
    out.push(kind)?;
    write_number(card + 1, out)
}

/// Whether a bid was won, lost or tied, and a space.
fn outcome(own: u32, other: u32) -> &'static [u8]
    ensures { result.now ≡ outcome_text own other ++ codes " " }
{
    if other < own {
        b"w "
    } else if own < other {
        b"l "
    } else {
        b"t "
    }
}

/// Adds the point card that lies.
fn push_stage(stage: Stage, out: &mut Text) -> Result<(), NoMemory>
    requires { IsStageOf 20 stage }
    ensures { Adds result out.old out.new (stage_text stage) }
{
    match stage {
        Stage::Between => Ok(()),
        Stage::Shown { point } | Stage::Bid { point, .. } => write_number(point + 1, out),
    }
}

impl Game for Goofspiel {
    ghost use Rattle.std.specs.Prelude.{◌≡◌, List, ℕ};
    ghost use Rattle.spiel_goof.specs.Goofspiel.{IsCardCount};
    ghost use Rattle.spiel_goof.specs.GoofspielState.{IsGoofspielAt, rules_of};
    ghost use Rattle.spiel_goof.specs.GoofspielLaws.{goofspiel_lawful};

    type State = GoofspielState;

    ghost is_game = { λ g. IsCardCount g.cards };

    ghost rules = { λ g. rules_of g };

    ghost is_at = { λ g s. IsGoofspielAt g s };

    ghost history_of = { λ _ s. s.history };

    ghost plays = { λ g s at. at.play };

    ghost lawful = { λ g h. goofspiel_lawful g.cards g.order g.returns g.hidden h };

    ghost can_be_played = { λ g s at. at.range };

    fn players(&self) -> u32 {
        2
    }

    fn unit(&self) -> i64 {
        1
    }

    fn pay_cap(&self) -> i64 {
        match self.returns {
            ReturnKind::WinLoss => 1,
            ReturnKind::PointDifference | ReturnKind::TotalPoints => {
                i64::from(self.cards * (self.cards + 1) / 2)
            }
        }
    }

    fn one_shot(&self) -> bool {
        false
    }

    fn start(&self, alloc: Global) -> Result<GoofspielState, NoMemory> {
        Ok(GoofspielState {
            history: List::new(alloc),
            table: Table::new(self.stage_at(0)),
        })
    }

    fn place(&self, state: &GoofspielState) -> Place {
        match state.table.stage {
            Stage::Between if state.table.count() == self.cards => Place::End,
            Stage::Between => Place::Chance,
            Stage::Shown { .. } => Place::Joint(0),
            Stage::Bid { .. } => Place::Joint(1),
        }
    }

    fn legal_count(&self, state: &GoofspielState, player: u32) -> u32 {
        match self.place(state) {
            Place::End => 0,
            Place::Chance => state.table.deck.count(self.cards),
            _ => state.table.seat(player).hand.count(self.cards),
        }
    }

    fn legal_at(&self, state: &GoofspielState, player: u32, index: u32) -> u32 {
        match self.place(state) {
            Place::Chance => state.table.deck.at(self.cards, index),
            _ => state.table.seat(player).hand.at(self.cards, index),
        }
    }

    fn weight_at(&self, _state: &GoofspielState, _index: u32) -> u64 {
        1
    }

    fn pay(&self, state: &GoofspielState, player: u32) -> i64 {
        let own = state.table.seat(player).points;
        let other = state.table.seat(1 - player).points;
        match self.returns {
            ReturnKind::WinLoss if other < own => 1,
            ReturnKind::WinLoss if own < other => -1,
            ReturnKind::WinLoss => 0,
            ReturnKind::PointDifference => i64::from(own) - i64::from(other),
            ReturnKind::TotalPoints => i64::from(own),
        }
    }

    fn history<'a>(&self, state: &'a GoofspielState) -> &'a [u32] {
        state.history.items()
    }

    fn info(
        &self,
        _alloc: Global,
        state: &GoofspielState,
        player: u32,
        out: &mut Text,
    ) -> Result<(), NoMemory> {
        self.push_turns(player, state.table.turns(), out)?;
        push_stage(state.table.stage, out)
    }

    fn action_name(
        &self,
        _alloc: Global,
        state: &GoofspielState,
        _player: u32,
        action: u32,
        out: &mut Text,
    ) -> Result<(), NoMemory> {
        match self.place(state) {
            Place::Chance => push_name(b"point ", action, out),
            _ => push_name(b"bid ", action, out),
        }
    }

    fn apply(
        &self,
        _alloc: Global,
        state: &mut GoofspielState,
        action: u32,
    ) -> Result<(), NoMemory> {
        let table = self.after(state, action);
        state.history.push(action)?;
        state.table = table;
        Ok(())
    }

    fn undo(&self, state: &mut GoofspielState) {
        state.history.pop();
        match state.table.stage {
            Stage::Bid { point, .. } => state.table.stage = Stage::Shown { point },
            Stage::Shown { .. } if self.draws() => state.table.stage = Stage::Between,
            Stage::Shown { .. } => state.table.reopen(),
            Stage::Between => state.table.reopen(),
        }
    }

    fn copy(&self, alloc: Global, state: &GoofspielState) -> Result<GoofspielState, NoMemory> {
        Ok(GoofspielState {
            history: state.history.copy(alloc)?,
            table: state.table,
        })
    }
}
