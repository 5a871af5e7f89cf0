//! The lines that show a state of a game, and those of what there is to choose from.
ghost use Rattle.std.specs.Prelude.{◌≡◌, ◌<◌, ◌≤◌, ◌++◌, ◌^◌, length, flat_map, sum, map, pos, OnOk, OnErr, slice_index};
ghost use Rattle.spiel_frac.specs.Fraction.{ratio_text};
ghost use Rattle.spiel_api.specs.declared.place.Place.TheVariants.{Chance, End, Joint};
ghost use Rattle.spiel_api.specs.Place.{HasInfo, IsOutside};
ghost use Rattle.spiel_play.specs.Block.{action_line, action_lines, below, block_text, choice_lines, chosen_lines, ended, history_line, info_line, info_lines, legal_text, lines_text, next_text, outcome_line, outcome_lines, player_line, return_lines, return_text, returns_line, spaced};

use spiel_api::{Game, Place};
use spiel_frac::{Frac, NoMemory, Text, write_frac, write_number, write_ratio};
use std::alloc::Global;

/// Adds a space and a number.
fn push_spaced(number: u32, out: &mut Text) -> Result<(), NoMemory>
    ensures { OnOk result (out.new ≡ out.old ++ spaced number) }
{
    out.push(b" ")?;
    write_number(number, out)
}

/// Adds the line of the history.
fn push_history(history: &[u32], out: &mut Text) -> Result<(), NoMemory>
    ensures { OnOk result (out.new ≡ out.old ++ ended (history_line history.now)) }
{
    out.push(b"history:")?;
    for number in history {
        push_spaced(*number, out)?;
    }
    out.push(b"\n")
}

/// Adds the line of who is next.
fn push_player(place: Place, out: &mut Text) -> Result<(), NoMemory>
    ensures { OnOk result (out.new ≡ out.old ++ ended (player_line place)) }
{
    out.push(b"player: ")?;
    push_next(place, out)?;
    out.push(b"\n")
}

/// Adds who is next.
fn push_next(place: Place, out: &mut Text) -> Result<(), NoMemory>
    ensures { OnOk result (out.new ≡ out.old ++ next_text place) }
{
    match place {
        Place::End => out.push(b"-4"),
        Place::Chance => out.push(b"-1"),
        Place::Move(player) => write_number(player, out),
        Place::Joint(_) => out.push(b"-2"),
    }
}

/// The sum of the weights of all outcomes.
fn total_weight<G: Game>(game: &G, state: &G::State) -> u64
    requires at { G.is_at game.now state.now }
    requires chance { (G.rules game.now).place (G.history_of game.now state.now) ≡ Chance }
    ensures { result ≡ sum ((G.rules game.now).weights (G.history_of game.now state.now)) }
{
    let mut total = 0;
    for index in 0..game.legal_count(state, 0) {
        total += game.weight_at(state, index);
    }
    total
}

/// Adds the probability of a chance outcome.
fn push_probability<G: Game>(
    alloc: Global,
    game: &G,
    state: &G::State,
    index: u32,
    total: u64,
    out: &mut Text,
) -> Result<(), NoMemory>
    requires at { G.is_at game.now state.now }
    requires chance { (G.rules game.now).place (G.history_of game.now state.now) ≡ Chance }
    requires index { index < length ((G.rules game.now).legal (G.history_of game.now state.now) 0) }
    requires total { total ≡ sum ((G.rules game.now).weights (G.history_of game.now state.now)) }
    ensures { OnOk result (out.new ≡ out.old ++ ratio_text (slice_index ((G.rules game.now).weights (G.history_of game.now state.now)) index) total) }
{
    write_ratio(alloc, game.weight_at(state, index), total, out)
}

/// Adds the line of one chance outcome.
fn push_outcome<G: Game>(
    alloc: Global,
    game: &G,
    state: &G::State,
    index: u32,
    total: u64,
    out: &mut Text,
) -> Result<(), NoMemory>
    requires at { G.is_at game.now state.now }
    requires chance { (G.rules game.now).place (G.history_of game.now state.now) ≡ Chance }
    requires index { index < length ((G.rules game.now).legal (G.history_of game.now state.now) 0) }
    requires total { total ≡ sum ((G.rules game.now).weights (G.history_of game.now state.now)) }
    ensures { OnOk result (out.new ≡ out.old ++ ended (outcome_line (G.rules game.now) (G.history_of game.now state.now) index)) }
{
    let action = game.legal_at(state, 0, index);
    out.push(b"outcome:")?;
    push_spaced(action, out)?;
    out.push(b" ")?;
    push_probability(alloc, game, state, index, total, out)?;
    out.push(b" ")?;
    game.action_name(alloc, state, 0, action, out)?;
    out.push(b"\n")
}

/// Adds a line for each chance outcome.
fn push_outcomes<G: Game>(
    alloc: Global,
    game: &G,
    state: &G::State,
    out: &mut Text,
) -> Result<(), NoMemory>
    requires at { G.is_at game.now state.now }
    requires chance { (G.rules game.now).place (G.history_of game.now state.now) ≡ Chance }
    ensures { OnOk result (out.new ≡ out.old ++ lines_text (outcome_lines (G.rules game.now) (G.history_of game.now state.now))) }
{
    let total = total_weight(game, state);
    for index in 0..game.legal_count(state, 0) {
        push_outcome(alloc, game, state, index, total, out)?;
    }
    Ok(())
}

/// Adds the line of what a player knows.
fn push_info<G: Game>(
    alloc: Global,
    game: &G,
    state: &G::State,
    player: u32,
    out: &mut Text,
) -> Result<(), NoMemory>
    requires at { G.is_at game.now state.now }
    requires player { player < (G.rules game.now).players }
    requires has { HasInfo ((G.rules game.now).place (G.history_of game.now state.now)) player }
    ensures { OnOk result (out.new ≡ out.old ++ ended (info_line (G.rules game.now) (G.history_of game.now state.now) player)) }
{
    out.push(b"info ")?;
    write_number(player, out)?;
    out.push(b": ")?;
    game.info(alloc, state, player, out)?;
    out.push(b"\n")
}

/// Adds the line of one legal action of a player.
fn push_action<G: Game>(
    alloc: Global,
    game: &G,
    state: &G::State,
    player: u32,
    index: u32,
    out: &mut Text,
) -> Result<(), NoMemory>
    requires at { G.is_at game.now state.now }
    requires player { player < (G.rules game.now).players }
    requires index { index < length ((G.rules game.now).legal (G.history_of game.now state.now) player) }
    ensures { OnOk result (out.new ≡ out.old ++ ended (action_line (G.rules game.now) (G.history_of game.now state.now) player index)) }
{
    let action = game.legal_at(state, player, index);
    out.push(b"legal ")?;
    write_number(player, out)?;
    out.push(b":")?;
    push_spaced(action, out)?;
    out.push(b" ")?;
    game.action_name(alloc, state, player, action, out)?;
    out.push(b"\n")
}

/// Adds a line for each legal action of a player.
fn push_actions<G: Game>(
    alloc: Global,
    game: &G,
    state: &G::State,
    player: u32,
    out: &mut Text,
) -> Result<(), NoMemory>
    requires at { G.is_at game.now state.now }
    requires player { player < (G.rules game.now).players }
    ensures { OnOk result (out.new ≡ out.old ++ lines_text (action_lines (G.rules game.now) (G.history_of game.now state.now) player)) }
{
    for index in 0..game.legal_count(state, player) {
        push_action(alloc, game, state, player, index, out)?;
    }
    Ok(())
}

/// Adds a space and the return of a player.
fn push_return<G: Game>(
    alloc: Global,
    game: &G,
    state: &G::State,
    player: u32,
    out: &mut Text,
) -> Result<(), NoMemory>
    requires at { G.is_at game.now state.now }
    requires end { (G.rules game.now).place (G.history_of game.now state.now) ≡ End }
    requires player { player < (G.rules game.now).players }
    ensures { OnOk result (out.new ≡ out.old ++ return_text (G.rules game.now) (G.history_of game.now state.now) player) }
{
    let parts = i128::from(game.pay(state, player));
    let unit = i128::from(game.unit());
    out.push(b" ")?;
    write_frac(alloc, Frac::new(parts, unit).unwrap(), out)
}

/// Adds the line of the returns.
fn push_returns<G: Game>(
    alloc: Global,
    game: &G,
    state: &G::State,
    out: &mut Text,
) -> Result<(), NoMemory>
    requires at { G.is_at game.now state.now }
    requires end { (G.rules game.now).place (G.history_of game.now state.now) ≡ End }
    ensures { OnOk result (out.new ≡ out.old ++ ended (returns_line (G.rules game.now) (G.history_of game.now state.now))) }
{
    out.push(b"returns:")?;
    for player in 0..game.players() {
        push_return(alloc, game, state, player, out)?;
    }
    out.push(b"\n")
}

/// Adds the line of what each player knows.
fn push_infos<G: Game>(
    alloc: Global,
    game: &G,
    state: &G::State,
    out: &mut Text,
) -> Result<(), NoMemory>
    requires at { G.is_at game.now state.now }
    requires joint { (G.rules game.now).place (G.history_of game.now state.now) ≡ Joint 0 }
    ensures { OnOk result (out.new ≡ out.old ++ lines_text (map (info_line (G.rules game.now) (G.history_of game.now state.now)) (below (G.rules game.now).players))) }
{
    for player in 0..game.players() {
        push_info(alloc, game, state, player, out)?;
    }
    Ok(())
}

/// Adds a line for each legal action of each player.
fn push_all_actions<G: Game>(
    alloc: Global,
    game: &G,
    state: &G::State,
    out: &mut Text,
) -> Result<(), NoMemory>
    requires { G.is_at game.now state.now }
    ensures { OnOk result (out.new ≡ out.old ++ lines_text (flat_map (action_lines (G.rules game.now) (G.history_of game.now state.now)) (below (G.rules game.now).players))) }
{
    for player in 0..game.players() {
        push_actions(alloc, game, state, player, out)?;
    }
    Ok(())
}

/// Adds what the players know who choose.
fn push_known<G: Game>(
    alloc: Global,
    game: &G,
    state: &G::State,
    out: &mut Text,
) -> Result<(), NoMemory>
    requires at { G.is_at game.now state.now }
    requires outside { IsOutside ((G.rules game.now).place (G.history_of game.now state.now)) }
    ensures { OnOk result (out.new ≡ out.old ++ lines_text (info_lines (G.rules game.now) (G.history_of game.now state.now) ((G.rules game.now).place (G.history_of game.now state.now)))) }
{
    match game.place(state) {
        Place::Move(player) => push_info(alloc, game, state, player, out),
        Place::Joint(_) => push_infos(alloc, game, state, out),
        Place::Chance | Place::End => Ok(()),
    }
}

/// Adds what there is to choose from.
fn push_choices<G: Game>(
    alloc: Global,
    game: &G,
    state: &G::State,
    out: &mut Text,
) -> Result<(), NoMemory>
    requires { G.is_at game.now state.now }
    ensures { OnOk result (out.new ≡ out.old ++ lines_text (choice_lines (G.rules game.now) (G.history_of game.now state.now) ((G.rules game.now).place (G.history_of game.now state.now)))) }
{
    match game.place(state) {
        Place::End => Ok(()),
        Place::Chance => push_outcomes(alloc, game, state, out),
        Place::Move(player) => push_actions(alloc, game, state, player, out),
        Place::Joint(_) => push_all_actions(alloc, game, state, out),
    }
}

/// Adds what the players get, at the end.
fn push_gained<G: Game>(
    alloc: Global,
    game: &G,
    state: &G::State,
    out: &mut Text,
) -> Result<(), NoMemory>
    requires { G.is_at game.now state.now }
    ensures { OnOk result (out.new ≡ out.old ++ lines_text (return_lines (G.rules game.now) (G.history_of game.now state.now) ((G.rules game.now).place (G.history_of game.now state.now)))) }
{
    match game.place(state) {
        Place::End => push_returns(alloc, game, state, out),
        Place::Chance | Place::Move(_) | Place::Joint(_) => Ok(()),
    }
}

/// Adds all lines that show a state.
#[tactic(auto, unfolding(crate::specs::Block::block_text))]
fn push_block<G: Game>(
    alloc: Global,
    game: &G,
    state: &G::State,
    out: &mut Text,
) -> Result<(), NoMemory>
    requires at { G.is_at game.now state.now }
    requires outside { IsOutside ((G.rules game.now).place (G.history_of game.now state.now)) }
    ensures { OnOk result (out.new ≡ out.old ++ block_text (G.rules game.now) (G.history_of game.now state.now)) }
{
    push_history(game.history(state), out)?;
    push_player(game.place(state), out)?;
    push_known(alloc, game, state, out)?;
    push_choices(alloc, game, state, out)?;
    push_gained(alloc, game, state, out)
}

/// Adds the lines that show a state: its history, who is next, and then the chance outcomes with
/// their probabilities, or what the mover knows and may do, or the same of all players of a joint
/// step, or the returns. The state doesn't stand inside a joint step. After `NoMemory` the text is
/// as it was.
pub fn block<G: Game>(
    alloc: Global,
    game: &G,
    state: &G::State,
    out: &mut Text,
) -> Result<(), NoMemory>
    requires at { G.is_at game.now state.now }
    requires outside { IsOutside ((G.rules game.now).place (G.history_of game.now state.now)) }
    ensures ok { OnOk result (out.new ≡ out.old ++ block_text (G.rules game.now) (G.history_of game.now state.now)) }
    ensures err { OnErr result (out.new ≡ out.old) }
{
    let mut text = Text::new(alloc);
    push_block(alloc, game, state, &mut text)?;
    out.push(text.bytes())
}

/// Adds the lines of what there is to choose from alone.
#[tactic(auto, unfolding(crate::specs::Block::legal_text))]
fn push_legal<G: Game>(
    alloc: Global,
    game: &G,
    state: &G::State,
    out: &mut Text,
) -> Result<(), NoMemory>
    requires { G.is_at game.now state.now }
    ensures { OnOk result (out.new ≡ out.old ++ legal_text (G.rules game.now) (G.history_of game.now state.now)) }
{
    push_choices(alloc, game, state, out)
}

/// Of the lines that show a state, adds those that begin `outcome:` or `legal `: the chance outcomes
/// with their probabilities, or what the mover may do, or what each player of a joint step may do. At
/// the end there are none. The state doesn't stand inside a joint step. After `NoMemory` the text is
/// as it was.
#[tactic(auto, using(crate::proofs::Choices::legal_text_is_chosen))]
pub fn legal_lines<G: Game>(
    alloc: Global,
    game: &G,
    state: &G::State,
    out: &mut Text,
) -> Result<(), NoMemory>
    requires at { G.is_at game.now state.now }
    requires outside { IsOutside ((G.rules game.now).place (G.history_of game.now state.now)) }
    ensures ok { OnOk result (out.new ≡ out.old ++ legal_text (G.rules game.now) (G.history_of game.now state.now)) }
    ensures chosen { OnOk result (out.new ≡ out.old ++ lines_text (chosen_lines (G.rules game.now) (G.history_of game.now state.now))) }
    ensures err { OnErr result (out.new ≡ out.old) }
{
    let mut text = Text::new(alloc);
    push_legal(alloc, game, state, &mut text)?;
    out.push(text.bytes())
}
