//! Reading the words of the command line: the verb, and the command that they are.
ghost use Rattle.std.specs.Prelude.{◌≡◌, None, Some, IfOk, IsErrOf, codes, false, map, string_bytes, true};
ghost use Rattle.spiel_words.specs.Found.{shape_of};
ghost use Rattle.spiel_words.specs.Line.{is_among, is_sound};
ghost use Rattle.spiel_words.specs.Verbs.{command_of, judge_of, legal_of, one_of, policy_of, restore_of, save_of, show_of, tidy_of, two_of, value_command_of};

use crate::command::Command;
use crate::fault::WordsFault;
use crate::line::{is_given, read_line, text_of};
use crate::shape::{FILE, GAME, GAME_AND_LIST, GAME_AND_POLICY, JUDGE, Shape};
use spiel_frac::Text;
use std::alloc::Global;

/// The command that the words behind the program's name are.
///
/// The first word is the verb. Before a word `--`, a word that begins with `-` and isn't `-` alone
/// must be a flag or an option of the verb. An option is `--name VALUE`, where VALUE doesn't begin
/// with `-` unless it is `-` alone, or `--name=VALUE`. Behind `--` every word is positional. Flags and
/// options may stand anywhere behind the verb. `Usage` comes exactly where the words are no command
/// by this rule.
pub fn read_words(alloc: Global, words: &[String]) -> Result<Command, WordsFault>
    ensures ok { IfOk result (λ command. command_of (map string_bytes words.now) ≡ Some command) }
    ensures err { IsErrOf result WordsFault.Usage → command_of (map string_bytes words.now) ≡ None }
{
    let [verb, words @ ..] = words else {
        return Err(WordsFault::Usage);
    };
    match verb.as_str() {
        "restore" => read_restore(alloc, words),
        "save" => read_save(alloc, words),
        "legal" => read_legal(alloc, words),
        "show" => read_show(alloc, words),
        "value" => read_value(alloc, words),
        "policy" => read_policy(alloc, words),
        "judge" => read_judge(alloc, words),
        "tidy" => read_tidy(alloc, words),
        _ => Err(WordsFault::Usage),
    }
}

/// The word for a place, of words that have this shape.
fn read_one(alloc: Global, shape: &Shape, name: &str, words: &[String]) -> Result<Text, WordsFault>
    requires sound { is_sound (shape_of shape.now) ≡ true }
    requires place { is_among name.now (shape_of shape.now).flags ≡ false }
    ensures ok { IfOk result (λ text. one_of (shape_of shape.now) name.now (map string_bytes words.now) ≡ Some text) }
    ensures err { IsErrOf result WordsFault.Usage → one_of (shape_of shape.now) name.now (map string_bytes words.now) ≡ None }
{
    let line = read_line(alloc, shape, words)?;
    text_of(alloc, &line, name)
}

/// The words for GAME and for another place, of words that have this shape.
fn read_two(
    alloc: Global,
    shape: &Shape,
    other: &str,
    words: &[String],
) -> Result<(Text, Text), WordsFault>
    requires sound { is_sound (shape_of shape.now) ≡ true }
    requires game { is_among (codes "game") (shape_of shape.now).flags ≡ false }
    requires place { is_among other.now (shape_of shape.now).flags ≡ false }
    ensures ok { IfOk result (λ two. two_of (shape_of shape.now) other.now (map string_bytes words.now) ≡ Some two) }
    ensures err { IsErrOf result WordsFault.Usage → two_of (shape_of shape.now) other.now (map string_bytes words.now) ≡ None }
{
    let line = read_line(alloc, shape, words)?;
    let game = text_of(alloc, &line, "game")?;
    let word = text_of(alloc, &line, other)?;
    Ok((game, word))
}

fn read_restore(alloc: Global, words: &[String]) -> Result<Command, WordsFault>
    ensures ok { IfOk result (λ command. restore_of (map string_bytes words.now) ≡ Some command) }
    ensures err { IsErrOf result WordsFault.Usage → restore_of (map string_bytes words.now) ≡ None }
{
    let file = read_one(alloc, &FILE, "file", words)?;
    Ok(Command::Restore { file })
}

fn read_save(alloc: Global, words: &[String]) -> Result<Command, WordsFault>
    ensures ok { IfOk result (λ command. save_of (map string_bytes words.now) ≡ Some command) }
    ensures err { IsErrOf result WordsFault.Usage → save_of (map string_bytes words.now) ≡ None }
{
    let (game, list) = read_two(alloc, &GAME_AND_LIST, "list", words)?;
    Ok(Command::Save { game, list })
}

fn read_legal(alloc: Global, words: &[String]) -> Result<Command, WordsFault>
    ensures ok { IfOk result (λ command. legal_of (map string_bytes words.now) ≡ Some command) }
    ensures err { IsErrOf result WordsFault.Usage → legal_of (map string_bytes words.now) ≡ None }
{
    let (game, list) = read_two(alloc, &GAME_AND_LIST, "list", words)?;
    Ok(Command::Legal { game, list })
}

fn read_show(alloc: Global, words: &[String]) -> Result<Command, WordsFault>
    ensures ok { IfOk result (λ command. show_of (map string_bytes words.now) ≡ Some command) }
    ensures err { IsErrOf result WordsFault.Usage → show_of (map string_bytes words.now) ≡ None }
{
    let game = read_one(alloc, &GAME, "game", words)?;
    Ok(Command::Show { game })
}

fn read_value(alloc: Global, words: &[String]) -> Result<Command, WordsFault>
    ensures ok { IfOk result (λ command. value_command_of (map string_bytes words.now) ≡ Some command) }
    ensures err { IsErrOf result WordsFault.Usage → value_command_of (map string_bytes words.now) ≡ None }
{
    let (game, policy) = read_two(alloc, &GAME_AND_POLICY, "policy", words)?;
    Ok(Command::Value { game, policy })
}

fn read_policy(alloc: Global, words: &[String]) -> Result<Command, WordsFault>
    ensures ok { IfOk result (λ command. policy_of (map string_bytes words.now) ≡ Some command) }
    ensures err { IsErrOf result WordsFault.Usage → policy_of (map string_bytes words.now) ≡ None }
{
    let (game, policy) = read_two(alloc, &GAME_AND_POLICY, "policy", words)?;
    Ok(Command::Policy { game, policy })
}

fn read_tidy(alloc: Global, words: &[String]) -> Result<Command, WordsFault>
    ensures ok { IfOk result (λ command. tidy_of (map string_bytes words.now) ≡ Some command) }
    ensures err { IsErrOf result WordsFault.Usage → tidy_of (map string_bytes words.now) ≡ None }
{
    let file = read_one(alloc, &FILE, "file", words)?;
    Ok(Command::Tidy { file })
}

fn read_judge(alloc: Global, words: &[String]) -> Result<Command, WordsFault>
    ensures ok { IfOk result (λ command. judge_of (map string_bytes words.now) ≡ Some command) }
    ensures err { IsErrOf result WordsFault.Usage → judge_of (map string_bytes words.now) ≡ None }
{
    let line = read_line(alloc, &JUDGE, words)?;
    let game = text_of(alloc, &line, "game")?;
    let policy = text_of(alloc, &line, "policy")?;
    let brief = is_given(&line, "brief");
    Ok(Command::Judge {
        game,
        policy,
        brief,
    })
}
