//! Reading the words of a line of one shape, and what it says of a name.
ghost use Rattle.std.specs.Prelude.{◌≡◌, Bool, None, Some, IfOk, IsErrOf, map, string_bytes, true};
ghost use Rattle.clap.specs.Words.{first_value, found_of, one_text};
ghost use Rattle.spiel_words.specs.Found.{Says, flag_text, shape_of};
ghost use Rattle.spiel_words.specs.Line.{is_sound, read_line};

use crate::fault::WordsFault;
use crate::rules::clap_command;
use crate::shape::Shape;
use clap::ArgMatches;
use spiel_frac::Text;
use std::alloc::Global;

/// What the words say, which have this shape.
pub fn read_line<'a>(
    alloc: Global,
    shape: &Shape,
    words: &'a [String],
) -> Result<ArgMatches<'a>, WordsFault>
    requires { is_sound (shape_of shape.now) ≡ true }
    ensures ok { IfOk result (λ matches. Says (shape_of shape.now) (map string_bytes words.entry.now) (found_of matches)) }
    ensures err { IsErrOf result WordsFault.Usage → read_line (shape_of shape.now) (map string_bytes words.entry.now) ≡ None }
{
    let command = clap_command(alloc, shape)?;
    let matches = command.try_get_matches_from(words)?;
    Ok(matches)
}

/// The value of a place or of an option. `Usage` says that it has none.
pub fn text_of(alloc: Global, matches: &ArgMatches, name: &str) -> Result<Text, WordsFault>
    ensures ok { IfOk result (λ text. first_value (found_of matches.now) name.now ≡ Some text) }
    ensures err { IsErrOf result WordsFault.Usage → first_value (found_of matches.now) name.now ≡ None }
{
    let Some(value) = matches.get_str(name) else {
        return Err(WordsFault::Usage);
    };
    let mut text = Text::new(alloc);
    text.push(value.as_bytes())?;
    Ok(text)
}

/// Whether the flag is given.
pub fn is_given(matches: &ArgMatches, name: &str) -> bool
    ensures { (given : Bool) → one_text (found_of matches.now) name.now ≡ Some (flag_text given) → result ≡ given }
{
    matches.get_flag(name)
}
