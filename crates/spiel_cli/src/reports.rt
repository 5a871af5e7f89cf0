//! The report on a policy: its sizes, its values, those of best responses, and the responses.
ghost use Rattle.std.specs.Prelude.{◌≡◌, ◌++◌, ◌<◌, ◌≤◌, ℕ, true, codes, length, pos, ◌<ℤ◌, ◌≤ℤ◌, IfOk, OnOk};
ghost use Rattle.std.specs.Fmt.{decimal};
ghost use Rattle.spiel_frac.specs.Fraction.{frac_text, lowest_terms};
ghost use Rattle.spiel_play.specs.Block.{ended, lines_text};
ghost use Rattle.spiel_response.specs.Answered.{is_made};
ghost use Rattle.spiel_response.specs.BestResponses.{best_value, nash_conv_of};
ghost use Rattle.spiel_response.specs.Values.{NumbersFit, denominator_of};
ghost use Rattle.spiel_string.specs.View.{view};
ghost use Rattle.spiel_tree.specs.PerfectRecall.{HasPerfectRecall};
ghost use Rattle.spiel_tree.specs.States.{states_below};
ghost use Rattle.spiel_cli.specs.Judgement.{IsAnswered, IsRight};
ghost use Rattle.spiel_cli.specs.Reports.{answer_line, answer_lines, best_line, best_lines, exploitability_line, exploitability_text, histories_line, nash_conv_line, report_text, response_report, states_line, value_report};
ghost use Rattle.spiel_cli.specs.Value.{value_lines};

use crate::value::push_values;
use spiel_frac::{Frac, NoMemory, Text, write_frac, write_number};
use spiel_play::title;
use spiel_response::{Work, answer_at, constant_sum, nash_conv, respond};
use spiel_string::GameText;
use spiel_tree::Tree;
use std::alloc::Global;

/// Adds the lines of how many histories and information states there are.
fn push_sizes(tree: &Tree, out: &mut Text) -> Result<(), NoMemory>
    ensures lines { OnOk result (out.new ≡ out.old ++ ended (histories_line tree.now) ++ ended (states_line tree.now)) }
    ensures recall { OnOk result (HasPerfectRecall tree.now.rows) }
{
    out.push(b"histories ")?;
    write_number(tree.histories(), out)?;
    out.push(b"\nstates ")?;
    write_number(tree.states(), out)?;
    out.push(b"\n")
}

/// Adds the line of what a player's best response gets.
fn push_best_line(alloc: Global, player: u32, best: Frac, out: &mut Text) -> Result<(), NoMemory>
    ensures { OnOk result (out.new ≡ out.old ++ ended (codes "best " ++ decimal player ++ codes " " ++ frac_text best)) }
{
    out.push(b"best ")?;
    write_number(player, out)?;
    out.push(b" ")?;
    write_frac(alloc, best, out)?;
    out.push(b"\n")
}

/// Makes a player's best response, and answers what it gets on average.
fn best_of(work: &mut Work, player: u32) -> Frac
    requires { player < work.old.judged.tree.players }
    ensures judged { work.new.judged ≡ work.old.judged }
    ensures made { (p : ℕ) → p ≤ player → (p < player → is_made work.old p ≡ true) → is_made work.new p ≡ true }
    ensures answered { IsAnswered work.old.judged player }
    ensures best { result ≡ lowest_terms (best_value work.old.judged player) (denominator_of work.old.judged) }
{
    let best = respond(work, player);
    Frac::new(best, work.total()).unwrap()
}

/// Makes a player's best response, and adds the line of what it gets.
fn push_best(alloc: Global, work: &mut Work, player: u32, out: &mut Text) -> Result<(), NoMemory>
    requires { player < work.old.judged.tree.players }
    ensures judged { work.new.judged ≡ work.old.judged }
    ensures made { (p : ℕ) → p ≤ player → (p < player → is_made work.old p ≡ true) → is_made work.new p ≡ true }
    ensures answered { IsAnswered work.old.judged player }
    ensures line { OnOk result (out.new ≡ out.old ++ ended (best_line work.old.judged player)) }
{
    let best = best_of(work, player);
    push_best_line(alloc, player, best, out)
}

/// Makes the best responses of all players, and adds the lines of what they get.
fn push_bests(alloc: Global, work: &mut Work, players: u32, out: &mut Text) -> Result<(), NoMemory>
    requires { players ≡ work.old.judged.tree.players }
    ensures judged { work.new.judged ≡ work.old.judged }
    ensures made { OnOk result ((p : ℕ) → p < players → is_made work.new p ≡ true) }
    ensures answered { OnOk result ((p : ℕ) → p < players → IsAnswered work.old.judged p) }
    ensures lines { OnOk result (out.new ≡ out.old ++ lines_text (best_lines work.old.judged)) }
{
    for player in 0..players {
        push_best(alloc, work, player, out)?;
    }
    Ok(())
}

/// NashConv, in lowest terms.
fn nash_conv_fraction(work: &Work) -> Frac
    requires { (p : ℕ) → p < work.now.judged.tree.players → is_made work.now p ≡ true }
    ensures gap { pos 0 ≤ℤ nash_conv_of work.now.judged }
    ensures denominator { pos 0 <ℤ denominator_of work.now.judged }
    ensures fits { NumbersFit work.now.judged }
    ensures fraction { result ≡ lowest_terms (nash_conv_of work.now.judged) (denominator_of work.now.judged) }
{
    Frac::new(nash_conv(work), work.total()).unwrap()
}

/// Adds the line of NashConv.
fn push_nash_conv(alloc: Global, gap: Frac, out: &mut Text) -> Result<(), NoMemory>
    ensures { OnOk result (out.new ≡ out.old ++ ended (codes "nash_conv " ++ frac_text gap)) }
{
    out.push(b"nash_conv ")?;
    write_frac(alloc, gap, out)?;
    out.push(b"\n")
}

/// Adds the exploitability, or `none`.
fn push_half(alloc: Global, work: &Work, out: &mut Text) -> Result<(), NoMemory>
    requires { (p : ℕ) → p < work.now.judged.tree.players → is_made work.now p ≡ true }
    ensures { OnOk result (out.new ≡ out.old ++ exploitability_text work.now.judged) }
{
    if constant_sum(work) {
        write_frac(
            alloc,
            Frac::new(nash_conv(work), 2 * work.total()).unwrap(),
            out,
        )
    } else {
        out.push(b"none")
    }
}

/// Adds the line of the exploitability.
fn push_exploitability(alloc: Global, work: &Work, out: &mut Text) -> Result<(), NoMemory>
    requires { (p : ℕ) → p < work.now.judged.tree.players → is_made work.now p ≡ true }
    ensures { OnOk result (out.new ≡ out.old ++ ended (exploitability_line work.now.judged)) }
{
    out.push(b"exploitability ")?;
    push_half(alloc, work, out)?;
    out.push(b"\n")
}

/// Adds the line of a player's answer to what is seen.
fn push_answer_line(player: u32, number: u32, seen: &[u8], out: &mut Text) -> Result<(), NoMemory>
    ensures { OnOk result (out.new ≡ out.old ++ ended (codes "answer " ++ decimal player ++ codes " " ++ decimal number ++ codes " " ++ seen.now)) }
{
    out.push(b"answer ")?;
    write_number(player, out)?;
    out.push(b" ")?;
    write_number(number, out)?;
    out.push(b" ")?;
    out.push(seen)?;
    out.push(b"\n")
}

/// Adds the line of what the best response takes at an information state.
fn push_answer(tree: &Tree, work: &Work, state: u32, out: &mut Text) -> Result<(), NoMemory>
    requires tree { tree.now ≡ work.now.judged.tree }
    requires state { state < length (states_below tree.now.players tree.now.rows) }
    requires made { (p : ℕ) → p < work.now.judged.tree.players → is_made work.now p ≡ true }
    ensures { OnOk result (out.new ≡ out.old ++ ended (answer_line work.now.judged state)) }
{
    push_answer_line(
        tree.state_player(state),
        answer_at(work, state),
        tree.state_text(state),
        out,
    )
}

/// Adds a line for each information state.
fn push_answers(tree: &Tree, work: &Work, out: &mut Text) -> Result<(), NoMemory>
    requires tree { tree.now ≡ work.now.judged.tree }
    requires made { (p : ℕ) → p < work.now.judged.tree.players → is_made work.now p ≡ true }
    ensures { OnOk result (out.new ≡ out.old ++ lines_text (answer_lines work.now.judged)) }
{
    for state in 0..tree.states() {
        push_answer(tree, work, state, out)?;
    }
    Ok(())
}

/// Adds the lines of the best responses, unless the report is brief.
fn push_responses(tree: &Tree, work: &Work, brief: bool, out: &mut Text) -> Result<(), NoMemory>
    requires tree { tree.now ≡ work.now.judged.tree }
    requires made { (p : ℕ) → p < work.now.judged.tree.players → is_made work.now p ≡ true }
    ensures { OnOk result (out.new ≡ out.old ++ response_report brief work.now.judged) }
{
    if brief {
        return Ok(());
    }
    push_answers(tree, work, out)
}

/// Adds the lines of NashConv and of the exploitability.
fn push_gap(alloc: Global, work: &Work, out: &mut Text) -> Result<(), NoMemory>
    requires { (p : ℕ) → p < work.now.judged.tree.players → is_made work.now p ≡ true }
    ensures gap { OnOk result (pos 0 ≤ℤ nash_conv_of work.now.judged) }
    ensures denominator { OnOk result (pos 0 <ℤ denominator_of work.now.judged) }
    ensures fits { OnOk result (NumbersFit work.now.judged) }
    ensures lines { OnOk result (out.new ≡ out.old ++ ended (nash_conv_line work.now.judged) ++ ended (exploitability_line work.now.judged)) }
{
    push_nash_conv(alloc, nash_conv_fraction(work), out)?;
    push_exploitability(alloc, work, out)
}

/// Makes all best responses, and adds the lines of the sizes and of all values.
fn push_value_report(
    alloc: Global,
    tree: &Tree,
    work: &mut Work,
    out: &mut Text,
) -> Result<(), NoMemory>
    requires tree { tree.now ≡ work.old.judged.tree }
    ensures judged { work.new.judged ≡ work.old.judged }
    ensures made { OnOk result ((p : ℕ) → p < work.new.judged.tree.players → is_made work.new p ≡ true) }
    ensures right { OnOk result (IsRight work.old.judged) }
    ensures lines { OnOk result (out.new ≡ out.old ++ value_report work.old.judged) }
{
    push_sizes(tree, out)?;
    push_values(alloc, work, tree.players(), out)?;
    push_bests(alloc, work, tree.players(), out)?;
    push_gap(alloc, work, out)
}

/// The report on a policy: the name of the game, how many histories and information states there are,
/// what each player gets on average and what the best response would get, NashConv, the exploitability,
/// and unless it is brief the best responses. The work was prepared from the tree.
///
/// After `NoMemory` there is no report, and the work is still that of the tree and the policy.
#[tactic(auto, unfolding(crate::specs::Reports::report_text))]
pub fn report(
    alloc: Global,
    tree: &Tree,
    work: &mut Work,
    text: &GameText,
    brief: bool,
) -> Result<Text, NoMemory>
    requires { tree.now ≡ work.old.judged.tree }
    ensures judged { work.new.judged ≡ work.old.judged }
    ensures right { IfOk result (λ _. IsRight work.old.judged) }
    ensures lines { IfOk result (λ out. out ≡ report_text brief (record { text = view text.now; judged = work.old.judged })) }
{
    let mut out = Text::new(alloc);
    title(alloc, text, &mut out)?;
    push_value_report(alloc, tree, work, &mut out)?;
    push_responses(tree, work, brief, &mut out)?;
    Ok(out)
}
