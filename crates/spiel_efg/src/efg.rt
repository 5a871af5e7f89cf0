//! The game of a tree of nodes.
ghost use Rattle.std.specs.Prelude.{◌≡◌, ◌<◌, ◌≤◌, ◌-◌, [], true, length, map, reverse, slice_index, slice_index_or, codes, IfOk, MatchResult};
ghost use Rattle.spiel_efg.specs.Efg.{action_text, efg_rules, kind_after, mover_at};
ghost use Rattle.spiel_efg.specs.EfgPays.{are_pays_fine, efg_cap, efg_unit, outcome_rows, own_pay, pay_along};
ghost use Rattle.spiel_efg.specs.EfgState.{IsEfgAt, no_node};
ghost use Rattle.spiel_efg.specs.Faults.{IsRefused};
ghost use Rattle.spiel_efg.specs.Places.{children_from};
ghost use Rattle.spiel_efg.specs.Sets.{kept_weights, set_at};
ghost use Rattle.spiel_efg.specs.Sound.{has_form, is_sound};
ghost use Rattle.spiel_efg.specs.Tables.{IsForm, IsPaid, IsPayTable};
ghost use Rattle.spiel_efg.specs.Tree.{counts_of, most_nodes, subtrees};
ghost use Rattle.spiel_api.specs.Plays.{IsPlay};
ghost use Rattle.spiel_frac.specs.Adding.{Adds};

use crate::fault::PartsFault;
use crate::form::{Form, form_of};
use crate::parts::{EfgParts, NodeKind};
use crate::pays::{Paid, PayTable, paid_by, plus};
use crate::tree::{children_of, set_at};
use spiel_api::{Game, Place};
use spiel_frac::{List, NoMemory, Packed, Text, write_number};
use spiel_matrix::push_strategy;
use std::alloc::Global;

/// An extensive game: a tree of moves of chance and of players, with information sets and outcomes
/// (Kuhn 1953; Gambit's extensive form games).
///
/// The actions of a node are counted from 0. Chance weights are the probabilities over their least
/// common denominator. The information text is `set` and the number of the set. The name of an
/// action is the printed form of its name in the parts: the first 64 bytes, with a question mark in
/// place of each that isn't printable ASCII; where the name is empty, it is the action's number
/// counted from 1. A return is the sum of the payoffs of the outcomes on the path, and the unit the
/// least common denominator of all payoffs. The cap is the greatest size of a return at a leaf, or
/// 1.
#[derive(Debug, Drop)]
pub struct Efg {
    parts: EfgParts,
    weights: Packed<u64>,
    children: Packed<u32>,
    table: PayTable,
    unit: u64,
    cap: u64,
    ghost sound: { is_sound parts ≡ true },
    ghost weights_are: { weights ≡ map kept_weights parts.sets },
    ghost children_are: { children ≡ reverse (children_from 0 (counts_of parts.sets parts.nodes)) },
    ghost table_is: { IsPayTable parts table },
    ghost unit_is: { unit ≡ efg_unit parts },
    ghost cap_is: { cap ≡ efg_cap parts },
}

/// What is kept of one play: its history, the places of the nodes above the one to which it leads, and
/// the place of that.
#[derive(Debug, Drop)]
pub struct EfgState {
    history: List<u32>,
    above: List<usize>,
    place: usize,
}

impl Efg {
    /// The game of these parts.
    ///
    /// `Bad` comes exactly where the parts aren't sound. They are sound where all of these hold:
    ///
    /// - There are 1 to 64 players.
    /// - The nodes are, in preorder, exactly one tree, in which a node of chance or of a player has
    ///   as many subtrees as its set has actions. It has at most 1,048,576 nodes, and at most 1,024
    ///   moves on a path.
    /// - Every set and every outcome is mentioned by a node, and they stand in the order of first
    ///   mention. No two chance sets, no two sets of one player and no two outcomes have the same
    ///   number.
    /// - The set of a chance node is one of chance, and that of a personal node one of a player.
    /// - Every set has an action. A player's actions have weight 0. The weights of a chance set
    ///   aren't negative, their least common denominator is at most 2^62, and their sum is 1.
    /// - An outcome's number isn't 0, and it has one payoff for each player. A node's outcome is 0
    ///   or the number of an outcome.
    /// - The least common denominator of all payoffs is at most 2^62. In parts of it neither a
    ///   payoff nor a player's sum along a path to a leaf passes 2^62 in size.
    ///
    /// After a fault the parts are dropped.
    pub fn of(alloc: Global, parts: EfgParts) -> Result<Efg, PartsFault>
        ensures parts { IfOk result (λ game. game.parts ≡ parts) }
        ensures rules { IfOk result (λ game. ⟦<Efg as Game>⟧.rules game ≡ efg_rules parts) }
        ensures fault { MatchResult result (λ game. is_sound parts ≡ true) (IsRefused (is_sound parts)) }
    {
        match form_of(alloc, &parts) {
            Ok(form) => Efg::with_form(alloc, parts, form),
            Err(fault) => Err(fault),
        }
    }

    /// The game of parts that have the form of one.
    fn with_form(alloc: Global, parts: EfgParts, form: Form) -> Result<Efg, PartsFault>
        requires right { has_form parts ≡ true }
        requires form { IsForm parts form }
        ensures parts { IfOk result (λ game. game.parts ≡ parts) }
        ensures test { MatchResult result (λ _. are_pays_fine parts ≡ true) (IsRefused (are_pays_fine parts)) }
    {
        let Form {
            weights,
            counts,
            rows,
        } = form;
        match paid_by(alloc, &parts, counts.items(), rows) {
            Ok(paid) => Ok(Efg::with_pays(alloc, parts, weights, counts.items(), paid)?),
            Err(fault) => Err(fault),
        }
    }

    /// The game of sound parts.
    fn with_pays(
        alloc: Global,
        parts: EfgParts,
        weights: Packed<u64>,
        counts: &[usize],
        paid: Paid,
    ) -> Result<Efg, NoMemory>
        requires sound { is_sound parts ≡ true }
        requires weights { weights ≡ map kept_weights parts.sets }
        requires counts { counts.now ≡ counts_of parts.sets parts.nodes }
        requires few { length counts.now ≤ most_nodes }
        requires paid { IsPaid parts paid }
        ensures { IfOk result (λ game. game.parts ≡ parts) }
    {
        let children = children_of(alloc, counts)?;
        Ok(Efg {
            parts,
            weights,
            children,
            table: paid.table,
            unit: paid.unit,
            cap: paid.cap,
        })
    }

    /// What the game is made of.
    pub fn parts(&self) -> &EfgParts
        ensures parts { result.now ≡ self.now.parts }
        ensures sound { is_sound self.now.parts ≡ true }
    {
        &self.parts
    }

    /// The row of the outcome of the node that stands at a place.
    pub(crate) fn outcome_row(&self, place: usize) -> usize
        requires { place < length self.now.parts.nodes }
        ensures { result ≡ slice_index (outcome_rows self.now.parts) place }
    {
        self.table.row(place)
    }

    /// What happens at the node to which a play leads.
    fn kind(&self, state: &EfgState) -> NodeKind
        requires { IsEfgAt self.now.parts state.now }
        ensures { result ≡ kind_after self.now.parts state.now.history }
    {
        self.parts.nodes.items()[state.place].kind
    }

    /// Who moves at a set.
    fn mover(&self, set: u32) -> u32
        ensures { result ≡ mover_at self.now.parts.sets set }
    {
        match set_at(self.parts.sets.items(), set) {
            Some(one) => one.player.unwrap_or(0),
            None => 0,
        }
    }

    /// How many actions there are at a set.
    fn actions(&self, set: u32) -> u32
        requires { length (set_at self.now.parts.sets set).actions ≤ most_nodes }
        ensures { result ≡ length (set_at self.now.parts.sets set).actions }
    {
        match set_at(self.parts.sets.items(), set) {
            Some(one) => one.actions.items().len() as u32,
            None => 0,
        }
    }

    /// The whole weight of an action at a set.
    fn weight(&self, set: u32, index: u32) -> u64
        ensures { result ≡ slice_index (slice_index_or self.now.weights set []) index }
    {
        if (set as usize) < self.weights.len() {
            match self.weights.at(set as usize).get(index as usize) {
                Some(weight) => *weight,
                None => 0,
            }
        } else {
            0
        }
    }

    /// The place of a child of a node.
    fn child(&self, place: usize, action: u32) -> usize
        requires place { place < length self.now.parts.nodes }
        requires action { action < length (slice_index_or self.now.children (length self.now.parts.nodes - 1 - place) []) }
        ensures { result ≡ slice_index (slice_index_or self.now.children (length self.now.parts.nodes - 1 - place) []) action }
    {
        let row = self.parts.nodes.items().len() - 1 - place;
        self.children.at(row)[action as usize] as usize
    }

    /// What a player gets at a node.
    fn own(&self, place: usize, player: u32) -> i64
        requires { place < length self.now.parts.nodes }
        ensures { result ≡ own_pay self.now.parts player (slice_index_or self.now.parts.nodes place no_node) }
    {
        self.table.own(place, player as usize)
    }

    /// What a player gets along a play.
    fn pay_along(&self, history: &[u32], player: u32) -> i128
        requires { IsPlay (efg_rules self.now.parts) history.now }
        ensures { result ≡ pay_along (subtrees self.now.parts.sets) (own_pay self.now.parts player) self.now.parts.nodes history.now }
    {
        let mut place = 0usize;
        let mut sum = plus(0, self.own(0, player));
        for action in history {
            place = self.child(place, *action);
            sum = plus(sum, self.own(place, player));
        }
        sum
    }

    /// Adds the name of an action of a set.
    fn push_action(
        &self,
        alloc: Global,
        set: u32,
        action: u32,
        out: &mut Text,
    ) -> Result<(), NoMemory>
        requires few { length (set_at self.now.parts.sets set).actions ≤ most_nodes }
        requires action { action < length (set_at self.now.parts.sets set).actions }
        ensures { Adds result out.old out.new (action_text (set_at self.now.parts.sets set).actions action) }
    {
        match set_at(self.parts.sets.items(), set) {
            Some(one) => {
                let name = &one.actions.items()[action as usize].name;
                push_strategy(name.bytes(), action, out)
            }
            None => unreachable!(),
        }
    }
}

impl Game for Efg {
    ghost use Rattle.std.specs.Prelude.{⊤};
    ghost use Rattle.spiel_efg.specs.Efg.{efg_rules};
    ghost use Rattle.spiel_efg.specs.EfgLaws.{efg_lawful};
    ghost use Rattle.spiel_efg.specs.EfgState.{IsEfgAt};

    type State = EfgState;

    ghost is_game = { λ _. ⊤ };

    ghost rules = { λ g. efg_rules g.parts };

    ghost is_at = { λ g s. IsEfgAt g.parts s };

    ghost history_of = { λ _ s. s.history };

    ghost plays = { λ g s at. at.play };

    ghost lawful = { λ g h. efg_lawful g.parts g.sound };

    ghost can_be_played = { λ g s at. tt };

    fn players(&self) -> u32 {
        self.parts.players.items().len() as u32
    }

    fn unit(&self) -> i64 {
        self.unit as i64
    }

    fn pay_cap(&self) -> i64 {
        self.cap as i64
    }

    fn one_shot(&self) -> bool {
        false
    }

    fn start(&self, alloc: Global) -> Result<EfgState, NoMemory> {
        Ok(EfgState {
            history: List::new(alloc),
            above: List::new(alloc),
            place: 0,
        })
    }

    fn place(&self, state: &EfgState) -> Place {
        match self.kind(state) {
            NodeKind::Chance { set: _ } => Place::Chance,
            NodeKind::Personal { set } => Place::Move(self.mover(set)),
            NodeKind::Terminal => Place::End,
        }
    }

    fn legal_count(&self, state: &EfgState, player: u32) -> u32 {
        match self.kind(state) {
            NodeKind::Chance { set } => self.actions(set),
            NodeKind::Personal { set } if self.mover(set) == player => self.actions(set),
            _ => 0,
        }
    }

    fn legal_at(&self, _state: &EfgState, _player: u32, index: u32) -> u32 {
        index
    }

    fn weight_at(&self, state: &EfgState, index: u32) -> u64 {
        match self.kind(state) {
            NodeKind::Chance { set } => self.weight(set, index),
            _ => 0,
        }
    }

    fn pay(&self, state: &EfgState, player: u32) -> i64 {
        self.pay_along(state.history.items(), player) as i64
    }

    fn history<'a>(&self, state: &'a EfgState) -> &'a [u32] {
        state.history.items()
    }

    fn info(
        &self,
        alloc: Global,
        state: &EfgState,
        _player: u32,
        out: &mut Text,
    ) -> Result<(), NoMemory> {
        match self.kind(state) {
            NodeKind::Personal { set } => match set_at(self.parts.sets.items(), set) {
                Some(one) => {
                    out.push(b"set ")?;
                    write_number(one.number, out)
                }
                None => unreachable!(),
            },
            _ => unreachable!(),
        }
    }

    fn action_name(
        &self,
        alloc: Global,
        state: &EfgState,
        _player: u32,
        action: u32,
        out: &mut Text,
    ) -> Result<(), NoMemory> {
        match self.kind(state) {
            NodeKind::Chance { set } => self.push_action(alloc, set, action, out),
            NodeKind::Personal { set } => self.push_action(alloc, set, action, out),
            NodeKind::Terminal => unreachable!(),
        }
    }

    fn apply(&self, _alloc: Global, state: &mut EfgState, action: u32) -> Result<(), NoMemory> {
        let place = self.child(state.place, action);
        state.above.push(state.place)?;
        match state.history.push(action) {
            Ok(()) => {
                state.place = place;
                Ok(())
            }
            Err(fault) => {
                state.above.pop();
                Err(fault)
            }
        }
    }

    fn undo(&self, state: &mut EfgState) {
        state.history.pop();
        if let Some(place) = state.above.pop() {
            state.place = place;
        }
    }

    fn copy(&self, alloc: Global, state: &EfgState) -> Result<EfgState, NoMemory> {
        Ok(EfgState {
            history: state.history.copy(alloc)?,
            above: state.above.copy(alloc)?,
            place: state.place,
        })
    }
}
