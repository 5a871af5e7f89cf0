//! A law of command lines, as the contract of a function that does nothing.
ghost use Rattle.std.specs.Prelude.{◌≡◌, List, Some, true};
ghost use Rattle.spiel_words.specs.Line.{Line, Shape, Text, is_filled, is_sound, read_line};

/// Each place of a line has its word. So the words behind a verb are no command only where they are no
/// line of its shape.
pub fn places_are_filled()
    ensures { (shape : Shape) (words : List Text) (line : Line) → is_sound shape ≡ true → read_line shape words ≡ Some line → is_filled shape.places line ≡ true }
{}
