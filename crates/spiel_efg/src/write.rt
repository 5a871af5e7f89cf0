//! Writing a game's file.
ghost use Rattle.std.specs.Prelude.{◌≡◌, ◌<◌, ◌++◌, ◌∷◌, [], None, Some, suc, length, flat_map, codes, OnOk, OnErr, IfOk, MatchOption, Ok};
ghost use Rattle.std.specs.Fmt.{decimal};
ghost use Rattle.spiel_efg.specs.Reading.{game_of_file};
ghost use Rattle.spiel_efg.specs.Writing.{AreShort, action_pieces, efg_text, frac_piece, head_lines, in_braces, kind_word, line_in_row, mention_pieces, node_line, number_piece, outcome_in_row, outcome_pieces, pay_pieces, player_piece, set_at_node, set_pieces, text_piece};

use crate::efg::Efg;
use crate::parts::{EfgAction, EfgNode, EfgOutcome, EfgParts, EfgSet, NodeKind};
use spiel_frac::{Frac, NoMemory, Text, write_frac, write_number};
use spiel_string::write_quoted;
use std::alloc::Global;

// Adds a space and a text in quotes.
fn push_text(text: &[u8], out: &mut Text) -> Result<(), NoMemory>
    ensures { OnOk result (out.new ≡ out.old ++ text_piece text.now) }
{
    out.push(b" ")?;
    write_quoted(text, out)
}

// Adds a space and a number.
fn push_number(alloc: Global, number: u32, out: &mut Text) -> Result<(), NoMemory>
    ensures { OnOk result (out.new ≡ out.old ++ number_piece number) }
{
    out.push(b" ")?;
    write_number(number, out)
}

// Adds a space and a fraction.
fn push_frac(alloc: Global, value: Frac, out: &mut Text) -> Result<(), NoMemory>
    ensures { OnOk result (out.new ≡ out.old ++ frac_piece value) }
{
    out.push(b" ")?;
    write_frac(alloc, value, out)
}

// Adds texts in quotes, with a space before each.
fn push_texts(texts: &[Text], out: &mut Text) -> Result<(), NoMemory>
    ensures { OnOk result (out.new ≡ out.old ++ flat_map text_piece texts.now) }
{
    for text in texts {
        push_text(text.bytes(), out)?;
    }
    Ok(())
}

// Adds who moves, counted from 1.
fn push_player(alloc: Global, player: Option<u32>, out: &mut Text) -> Result<(), NoMemory>
    ensures { OnOk result (out.new ≡ out.old ++ player_piece player) }
{
    match player {
        Some(player) => {
            let digits = (u64::from(player) + 1).to_string(alloc)?;
            out.push(b" ")?;
            out.push(digits.as_bytes())
        }
        None => Ok(()),
    }
}

// Adds an action of a set of this player, or of chance.
fn push_action(
    alloc: Global,
    player: Option<u32>,
    action: &EfgAction,
    out: &mut Text,
) -> Result<(), NoMemory>
    ensures { OnOk result (out.new ≡ out.old ++ action_pieces player action.now) }
{
    push_text(action.name.bytes(), out)?;
    if player.is_none() {
        push_frac(alloc, action.weight, out)
    } else {
        Ok(())
    }
}

// Adds the actions of a set.
fn push_actions(
    alloc: Global,
    player: Option<u32>,
    actions: &[EfgAction],
    out: &mut Text,
) -> Result<(), NoMemory>
    ensures { OnOk result (out.new ≡ out.old ++ flat_map (action_pieces player) actions.now) }
{
    for action in actions {
        push_action(alloc, player, action, out)?;
    }
    Ok(())
}

// Adds a set in full.
fn push_set(alloc: Global, one: &EfgSet, out: &mut Text) -> Result<(), NoMemory>
    ensures { OnOk result (out.new ≡ out.old ++ set_pieces one.now) }
{
    push_player(alloc, one.player, out)?;
    push_number(alloc, one.number, out)?;
    push_text(one.name.bytes(), out)?;
    out.push(b" {")?;
    push_actions(alloc, one.player, one.actions.items(), out)?;
    out.push(b" }")
}

// The set of a node, unless the game is over there.
fn set_at_node(sets: &[EfgSet], kind: NodeKind) -> Option<&EfgSet>
    ensures { MatchOption result
        (set_at_node sets.now kind ≡ None)
        (λ one. set_at_node sets.now kind ≡ Some one.now) }
{
    match kind {
        NodeKind::Chance { set } => sets.get(set as usize),
        NodeKind::Personal { set } => sets.get(set as usize),
        NodeKind::Terminal => None,
    }
}

// Adds the set of a node in full, if it has one.
fn push_mention(
    alloc: Global,
    sets: &[EfgSet],
    kind: NodeKind,
    out: &mut Text,
) -> Result<(), NoMemory>
    ensures { OnOk result (out.new ≡ out.old ++ mention_pieces (set_at_node sets.now kind)) }
{
    match set_at_node(sets, kind) {
        Some(one) => push_set(alloc, one, out),
        None => Ok(()),
    }
}

// Adds payoffs, with a comma before each.
fn push_more_pays(alloc: Global, pays: &[Frac], out: &mut Text) -> Result<(), NoMemory>
    ensures { OnOk result (out.new ≡ out.old ++ flat_map (λ next. 44 ∷ frac_piece next) pays.now) }
{
    for pay in pays {
        out.push(b",")?;
        push_frac(alloc, *pay, out)?;
    }
    Ok(())
}

// Adds payoffs, with commas between them.
fn push_pays(alloc: Global, pays: &[Frac], out: &mut Text) -> Result<(), NoMemory>
    ensures { OnOk result (out.new ≡ out.old ++ pay_pieces pays.now) }
{
    match pays {
        [first, rest @ ..] => {
            push_frac(alloc, *first, out)?;
            push_more_pays(alloc, rest, out)
        }
        [] => Ok(()),
    }
}

// The outcome in a row, where row 0 is that of no outcome.
fn outcome_in_row(outcomes: &[EfgOutcome], row: usize) -> Option<&EfgOutcome>
    ensures { MatchOption result
        (outcome_in_row outcomes.now row ≡ None)
        (λ one. outcome_in_row outcomes.now row ≡ Some one.now) }
{
    if row == 0 {
        None
    } else {
        outcomes.get(row - 1)
    }
}

// Adds the outcome in a row in full.
fn push_outcome(
    alloc: Global,
    outcomes: &[EfgOutcome],
    row: usize,
    out: &mut Text,
) -> Result<(), NoMemory>
    ensures { OnOk result (out.new ≡ out.old ++ outcome_pieces (outcome_in_row outcomes.now row)) }
{
    match outcome_in_row(outcomes, row) {
        Some(one) => push_known(alloc, one, out),
        None => out.push(b" 0"),
    }
}

// Adds an outcome in full.
fn push_known(alloc: Global, one: &EfgOutcome, out: &mut Text) -> Result<(), NoMemory>
    ensures { OnOk result (out.new ≡ out.old ++ outcome_pieces (Some one.now)) }
{
    push_number(alloc, one.number, out)?;
    push_text(one.name.bytes(), out)?;
    out.push(b" {")?;
    push_pays(alloc, one.pays.items(), out)?;
    out.push(b" }")
}

// Adds the word that a node begins with.
fn push_kind(kind: NodeKind, out: &mut Text) -> Result<(), NoMemory>
    ensures { OnOk result (out.new ≡ out.old ++ kind_word kind) }
{
    match kind {
        NodeKind::Chance { set: _ } => out.push(b"c"),
        NodeKind::Personal { set: _ } => out.push(b"p"),
        NodeKind::Terminal => out.push(b"t"),
    }
}

// Adds the line of a node whose outcome stands in this row.
fn push_node(
    alloc: Global,
    parts: &EfgParts,
    node: &EfgNode,
    row: usize,
    out: &mut Text,
) -> Result<(), NoMemory>
    ensures { OnOk result (out.new ≡ out.old ++ line_in_row parts.now node.now row) }
{
    push_kind(node.kind, out)?;
    push_text(node.name.bytes(), out)?;
    push_mention(alloc, parts.sets.items(), node.kind, out)?;
    push_outcome(alloc, parts.outcomes.items(), row, out)?;
    out.push(b"\n")
}

// Adds what stands above the nodes.
fn push_head(parts: &EfgParts, out: &mut Text) -> Result<(), NoMemory>
    ensures { OnOk result (out.new ≡ out.old ++ head_lines parts.now) }
{
    out.push(b"EFG 2 R")?;
    push_text(parts.title.bytes(), out)?;
    out.push(b" {")?;
    push_texts(parts.players.items(), out)?;
    out.push(b" }\n")?;
    write_quoted(parts.comment.bytes(), out)?;
    out.push(b"\n")
}

// Adds the lines of all nodes.
fn push_nodes(alloc: Global, efg: &Efg, out: &mut Text) -> Result<(), NoMemory>
    ensures { OnOk result (out.new ≡ out.old ++ flat_map (node_line efg.now.parts) efg.now.parts.nodes) }
{
    let parts = efg.parts();
    for (place, node) in parts.nodes.items().iter().enumerate() {
        push_node(alloc, parts, node, efg.outcome_row(place), out)?;
    }
    Ok(())
}

// The whole text.
#[tactic(auto, unfolding(crate::specs::Writing::efg_text))]
fn text_of(alloc: Global, efg: &Efg) -> Result<Text, NoMemory>
    ensures { IfOk result (λ text. text ≡ efg_text efg.now.parts) }
{
    let mut text = Text::new(alloc);
    push_head(efg.parts(), &mut text)?;
    push_nodes(alloc, efg, &mut text)?;
    Ok(text)
}

/// Adds the canonical text of a game: `EFG 2 R`, the title and the players, the comment on a line
/// of its own, and then a line for each node, in which sets and outcomes stand in full. After
/// `NoMemory` the text is as it was.
///
/// What is written is read back as the same parts, where each probability and each payoff, in lowest
/// terms, has parts of at most 18 digits; `read_efg` takes it where it has at most 67,108,864 bytes.
pub fn write_efg(alloc: Global, efg: &Efg, out: &mut Text) -> Result<(), NoMemory>
    ensures ok { OnOk result (out.new ≡ out.old ++ efg_text efg.now.parts) }
    ensures err { OnErr result (out.new ≡ out.old) }
    ensures reads_back { AreShort efg.now.parts → game_of_file (efg_text efg.now.parts) ≡ Ok efg.now.parts }
{
    let text = text_of(alloc, efg)?;
    out.push(text.bytes())
}
