ghost use Rattle.std.specs.Prelude.{◌≡◌, ◌≤◌, ◌^◌, ◌<◌, Ok, Some, None, MatchResult, IfOk, is_none, length};
ghost use Rattle.spiel_efg.specs.ReadingTokens.{IsComputed, and_then, behind};
ghost use Rattle.spiel_efg.specs.ReadingLines.{actions_at, chances_in, closed, few_players, format_at, head_at, in_braces, items_at, listed_at, node_behind, outcome_mention_at, pays_at, players_at, set_mention_at, set_of, some_of, texts_at, unweighted};

use crate::parts::EfgAction;
use crate::read_fault::EfgFault;
use crate::read_mentions::{Begins, Head, NodeMention, OutcomeMention, SetMention};
use crate::read_tokens::Reader;
use spiel_frac::{Frac, List, NoMemory, Text};
use std::alloc::Global;

/// The greatest number of players.
const MOST_PLAYERS: usize = 64;

// The texts that stand next.
fn texts(alloc: Global, reader: &mut Reader<'_>) -> Result<List<Text>, NoMemory>
    ensures { IfOk result (λ texts. texts_at reader.old ≡ (texts, reader.new)) }
{
    let mut texts = List::new(alloc);
    while let Some(text) = reader.text(alloc)? {
        texts.push(text)?;
        reader.skip();
    }
    Ok(texts)
}

// An action of a player.
#[tactic(auto, using(crate::proofs::ReadingLists::zero_is))]
fn unweighted(name: Text) -> EfgAction
    ensures { result ≡ unweighted name }
{
    EfgAction {
        name,
        weight: Frac::ratio(0, 1),
    }
}

// The actions of a player that stand next.
fn plain_actions(alloc: Global, reader: &mut Reader<'_>) -> Result<List<EfgAction>, NoMemory>
    ensures { IfOk result (λ actions. items_at unweighted reader.old ≡ (actions, reader.new)) }
{
    let mut actions = List::new(alloc);
    while let Some(name) = reader.text(alloc)? {
        actions.push(unweighted(name))?;
        reader.skip();
    }
    Ok(actions)
}

// The actions of chance that stand next.
fn chance_actions(alloc: Global, reader: &mut Reader<'_>) -> Result<List<EfgAction>, EfgFault>
    ensures { MatchResult result
        (λ actions. chances_in reader.old.before reader.old.marks ≡ Ok (actions, reader.new))
        (IsComputed (chances_in reader.old.before reader.old.marks)) }
{
    let mut actions = List::new(alloc);
    while let Some(name) = reader.text(alloc)? {
        reader.skip();
        let weight = reader.take_number()?;
        actions.push(EfgAction { name, weight })?;
    }
    Ok(actions)
}

// The actions that stand next, with probabilities or without.
fn listed(
    alloc: Global,
    reader: &mut Reader<'_>,
    with_chances: bool,
) -> Result<List<EfgAction>, EfgFault>
    ensures { MatchResult result
        (λ actions. listed_at with_chances reader.old ≡ Ok (actions, reader.new))
        (IsComputed (listed_at with_chances reader.old)) }
{
    if with_chances {
        chance_actions(alloc, reader)
    } else {
        let actions = plain_actions(alloc, reader)?;
        Ok(actions)
    }
}

// An action list in braces, behind the first brace.
fn closed_actions(
    alloc: Global,
    reader: &mut Reader<'_>,
    with_chances: bool,
) -> Result<List<EfgAction>, EfgFault>
    ensures { MatchResult result
        (λ actions. and_then closed (and_then some_of (listed_at with_chances reader.old)) ≡ Ok (actions, reader.new))
        (IsComputed (and_then closed (and_then some_of (listed_at with_chances reader.old)))) }
{
    let actions = listed(alloc, reader, with_chances)?;
    if actions.items().is_empty() {
        return Err(reader.fault());
    }
    reader.take_right()?;
    Ok(actions)
}

// The action list of a set, if there is one.
fn actions(
    alloc: Global,
    reader: &mut Reader<'_>,
    with_chances: bool,
) -> Result<Option<List<EfgAction>>, EfgFault>
    ensures { MatchResult result
        (λ actions. actions_at with_chances reader.old ≡ Ok (actions, reader.new))
        (IsComputed (actions_at with_chances reader.old)) }
{
    if !reader.is_left() {
        return Ok(None);
    }
    reader.skip();
    let actions = closed_actions(alloc, reader, with_chances)?;
    Ok(Some(actions))
}

// One payoff for each player, with a comma or without behind each.
fn pays(alloc: Global, reader: &mut Reader<'_>, players: u32) -> Result<List<Frac>, EfgFault>
    ensures { MatchResult result
        (λ pays. pays_at players reader.old ≡ Ok (pays, reader.new))
        (IsComputed (pays_at players reader.old)) }
{
    let mut pays = List::new(alloc);
    for _ in 0..players {
        let pay = reader.take_number()?;
        reader.skip_comma();
        pays.push(pay)?;
    }
    Ok(pays)
}

// The payoffs of an outcome, if they are there.
fn closed_pays(
    alloc: Global,
    reader: &mut Reader<'_>,
    players: u32,
) -> Result<Option<List<Frac>>, EfgFault>
    ensures { MatchResult result
        (λ pays. in_braces (pays_at players) reader.old ≡ Ok (pays, reader.new))
        (IsComputed (in_braces (pays_at players) reader.old)) }
{
    if !reader.is_left() {
        return Ok(None);
    }
    reader.skip();
    let pays = pays(alloc, reader, players)?;
    reader.take_right()?;
    Ok(Some(pays))
}

// A set of a player, or of chance.
#[tactic(auto, unfolding(crate::specs::ReadingLines::set_mention_at))]
fn set_mention(
    alloc: Global,
    reader: &mut Reader<'_>,
    player: Option<u32>,
) -> Result<SetMention, EfgFault>
    ensures { MatchResult result
        (λ mention. set_mention_at player reader.old ≡ Ok (mention, reader.new))
        (IsComputed (set_mention_at player reader.old)) }
{
    let number = reader.take_whole()?;
    let name = reader.take_name(alloc)?;
    let actions = actions(alloc, reader, player.is_none())?;
    Ok(SetMention {
        player,
        number,
        name,
        actions,
    })
}

// The set of a node, by what the node began with.
#[tactic(auto, unfolding(crate::specs::ReadingLines::set_of))]
fn set_of(
    alloc: Global,
    reader: &mut Reader<'_>,
    players: u32,
    begins: Begins,
) -> Result<Option<SetMention>, EfgFault>
    ensures { MatchResult result
        (λ mention. set_of players begins reader.old ≡ Ok (mention, reader.new))
        (IsComputed (set_of players begins reader.old)) }
{
    match begins {
        Begins::Chance => {
            let mention = set_mention(alloc, reader, None)?;
            Ok(Some(mention))
        }
        Begins::Personal => {
            let player = reader.take_player(players)?;
            let mention = set_mention(alloc, reader, Some(player))?;
            Ok(Some(mention))
        }
        Begins::Terminal => Ok(None),
    }
}

// An outcome, with its payoffs or without.
#[tactic(auto, unfolding(crate::specs::ReadingLines::outcome_mention_at))]
fn outcome_mention(
    alloc: Global,
    reader: &mut Reader<'_>,
    players: u32,
) -> Result<OutcomeMention, EfgFault>
    ensures { MatchResult result
        (λ mention. outcome_mention_at players reader.old ≡ Ok (mention, reader.new))
        (IsComputed (outcome_mention_at players reader.old)) }
{
    let number = reader.take_whole()?;
    let name = reader.take_name(alloc)?;
    let pays = closed_pays(alloc, reader, players)?;
    Ok(OutcomeMention { number, name, pays })
}

/// What stands behind the word that a node begins with.
#[tactic(auto, unfolding(crate::specs::ReadingLines::node_behind))]
pub(crate) fn node_behind(
    alloc: Global,
    reader: &mut Reader<'_>,
    players: u32,
    begins: Begins,
) -> Result<NodeMention, EfgFault>
    ensures { MatchResult result
        (λ mention. node_behind players begins reader.old ≡ Ok (mention, reader.new))
        (IsComputed (node_behind players begins reader.old)) }
{
    let name = reader.take_text(alloc)?;
    let set = set_of(alloc, reader, players, begins)?;
    let outcome = outcome_mention(alloc, reader, players)?;
    Ok(NodeMention { name, set, outcome })
}

// The names of 1 to 64 players, in braces.
#[tactic(auto, unfolding(crate::specs::ReadingLines::players_at))]
fn players(alloc: Global, reader: &mut Reader<'_>) -> Result<List<Text>, EfgFault>
    ensures answer { MatchResult result
        (λ players. players_at reader.old ≡ Ok (players, reader.new))
        (IsComputed (players_at reader.old)) }
    ensures few { IfOk result (λ players. length players ≤ 64) }
{
    reader.take_left()?;
    let players = texts(alloc, reader)?;
    reader.take_right()?;
    let count = players.items().len();
    if count == 0 || count > MOST_PLAYERS {
        return Err(EfgFault::Players);
    }
    Ok(players)
}

// The words that a file begins with.
#[tactic(auto, unfolding(crate::specs::ReadingLines::format_at))]
fn format(reader: &mut Reader<'_>) -> Result<(), EfgFault>
    ensures { MatchResult result
        (λ done. format_at reader.old ≡ Ok (done, reader.new))
        (IsComputed (format_at reader.old)) }
{
    reader.take_word(b"EFG")?;
    reader.take_word(b"2")?;
    reader.take_form()
}

/// What stands above the nodes.
#[tactic(auto, unfolding(crate::specs::ReadingLines::head_at))]
pub(crate) fn head(alloc: Global, reader: &mut Reader<'_>) -> Result<Head, EfgFault>
    ensures answer { MatchResult result
        (λ head. head_at reader.old ≡ Ok (head, reader.new))
        (IsComputed (head_at reader.old)) }
    ensures few { IfOk result (λ head. length head.players ≤ 64) }
{
    format(reader)?;
    let title = reader.take_text(alloc)?;
    let players = players(alloc, reader)?;
    let comment = reader.take_name(alloc)?;
    Ok(Head {
        title,
        players,
        comment,
    })
}
