//! What stands at one history of a game: who is next, the numbers, the text, the weights or the returns.
ghost use Rattle.std.specs.Prelude.{◌≡◌, ◌<◌, [], length, slice_index, OnOk, IfOk};
ghost use Rattle.spiel_api.specs.Rules.{next_of};
ghost use Rattle.spiel_api.specs.declared.place.Place.TheVariants.{Chance, End};
ghost use Rattle.spiel_tree.specs.Rows.{info_at, node_of, pays_below};
ghost use Rattle.spiel_tree.specs.Shown.{node_shown};

use spiel_api::{Game, Place};
use spiel_frac::{List, NoMemory, Text};
use std::alloc::Global;

/// What stands at a history. A walk shows one history after another in the same place, so that none
/// of them takes memory of its own.
#[derive(Drop)]
pub(crate) struct Shown {
    /// Whose number is next.
    pub place: Place,
    /// At a move, the mover's information text.
    pub info: Text,
    /// The numbers that are legal for whoever is next.
    pub numbers: List<u32>,
    /// At a chance node, the weight of each.
    pub weights: List<u64>,
    /// At the end, the return of each player.
    pub pays: List<i64>,
}

impl Shown {
    /// Nothing is shown yet.
    pub fn new(alloc: Global) -> Shown {
        Shown {
            place: Place::End,
            info: Text::new(alloc),
            numbers: List::new(alloc),
            weights: List::new(alloc),
            pays: List::new(alloc),
        }
    }
}

/// How many numbers are legal for whoever is next.
pub(crate) fn next_count<G: Game>(game: &G, state: &G::State, place: Place) -> u32
    requires at { G.is_at game.now state.now }
    requires place { place ≡ (G.rules game.now).place (G.history_of game.now state.now) }
    ensures { result ≡ length (next_of (G.rules game.now) (G.history_of game.now state.now)) }
{
    match place {
        Place::End => 0,
        Place::Chance => game.legal_count(state, 0),
        Place::Move(player) | Place::Joint(player) => game.legal_count(state, player),
    }
}

/// One of the numbers that are legal for whoever is next.
pub(crate) fn next_at<G: Game>(game: &G, state: &G::State, place: Place, index: u32) -> u32
    requires at { G.is_at game.now state.now }
    requires place { place ≡ (G.rules game.now).place (G.history_of game.now state.now) }
    requires index { index < length (next_of (G.rules game.now) (G.history_of game.now state.now)) }
    ensures { result ≡ slice_index (next_of (G.rules game.now) (G.history_of game.now state.now)) index }
{
    match place {
        Place::End => unreachable!(),
        Place::Chance => game.legal_at(state, 0, index),
        Place::Move(player) | Place::Joint(player) => game.legal_at(state, player, index),
    }
}

/// Shows the numbers that are legal for whoever is next, and answers how many there are.
fn show_numbers<G: Game>(
    game: &G,
    state: &G::State,
    place: Place,
    numbers: &mut List<u32>,
) -> Result<u32, NoMemory>
    requires at { G.is_at game.now state.now }
    requires place { place ≡ (G.rules game.now).place (G.history_of game.now state.now) }
    ensures numbers { OnOk result (numbers.new ≡ next_of (G.rules game.now) (G.history_of game.now state.now)) }
    ensures count { IfOk result (λ count. count ≡ length (next_of (G.rules game.now) (G.history_of game.now state.now))) }
{
    let count = next_count(game, state, place);
    numbers.clear();
    for index in 0..count {
        numbers.push(next_at(game, state, place, index))?;
    }
    Ok(count)
}

/// Shows the text that a mover sees, or the empty text.
fn show_text<G: Game>(
    alloc: Global,
    game: &G,
    state: &G::State,
    place: Place,
    text: &mut Text,
) -> Result<(), NoMemory>
    requires at { G.is_at game.now state.now }
    requires place { place ≡ (G.rules game.now).place (G.history_of game.now state.now) }
    ensures { OnOk result (text.new ≡ info_at ((G.rules game.now).place (G.history_of game.now state.now)) ((G.rules game.now).info (G.history_of game.now state.now))) }
{
    text.clear();
    if let Place::Move(player) = place {
        game.info(alloc, state, player, text)?;
    }
    Ok(())
}

/// Shows the weights of all outcomes.
fn show_weights<G: Game>(
    game: &G,
    state: &G::State,
    weights: &mut List<u64>,
) -> Result<(), NoMemory>
    requires at { G.is_at game.now state.now }
    requires chance { (G.rules game.now).place (G.history_of game.now state.now) ≡ Chance }
    requires empty { weights.old ≡ [] }
    ensures { OnOk result (weights.new ≡ (G.rules game.now).weights (G.history_of game.now state.now)) }
{
    for index in 0..game.legal_count(state, 0) {
        weights.push(game.weight_at(state, index))?;
    }
    Ok(())
}

/// Shows the returns of all players.
fn show_pays<G: Game>(game: &G, state: &G::State, pays: &mut List<i64>) -> Result<(), NoMemory>
    requires at { G.is_at game.now state.now }
    requires end { (G.rules game.now).place (G.history_of game.now state.now) ≡ End }
    requires empty { pays.old ≡ [] }
    ensures { OnOk result (pays.new ≡ pays_below ((G.rules game.now).pay (G.history_of game.now state.now)) (G.rules game.now).players) }
{
    for player in 0..game.players() {
        pays.push(game.pay(state, player))?;
    }
    Ok(())
}

/// Shows what stands at the history of a state, and answers how many numbers are legal there.
pub(crate) fn show<G: Game>(
    alloc: Global,
    game: &G,
    state: &G::State,
    shown: &mut Shown,
) -> Result<u32, NoMemory>
    requires { G.is_at game.now state.now }
    ensures node { OnOk result (node_shown shown.new ≡ node_of (G.rules game.now) (G.history_of game.now state.now)) }
    ensures count { IfOk result (λ count. count ≡ length (next_of (G.rules game.now) (G.history_of game.now state.now))) }
{
    let place = game.place(state);
    shown.place = place;
    show_text(alloc, game, state, place, &mut shown.info)?;
    let count = show_numbers(game, state, place, &mut shown.numbers)?;
    shown.weights.clear();
    if place == Place::Chance {
        show_weights(game, state, &mut shown.weights)?;
    }
    shown.pays.clear();
    if place == Place::End {
        show_pays(game, state, &mut shown.pays)?;
    }
    Ok(count)
}
