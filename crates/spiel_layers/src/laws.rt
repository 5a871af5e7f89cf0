//! Laws of games that are made of others, each as the contract of a function that does nothing.
ghost use Rattle.std.specs.Prelude.{List, ℕ, IsTrue};
ghost use Rattle.spiel_api.specs.Laws.{IsLawful};
ghost use Rattle.spiel_api.specs.Plays.{IsPlay};
ghost use Rattle.spiel_api.specs.Rules.{Rules};
ghost use Rattle.spiel_layers.specs.Laws.{GoesOnBehind, HasRounds, HidesChoices};

/// The plays behind a prefix, which is a play, are what follows it in plays of the inner game.
pub fn plays_go_on()
    ensures { (inner : Rules) (prefix : List ℕ) → IsPlay inner prefix → GoesOnBehind inner prefix }
{}

/// A repeated game is its stage, one round behind another: its plays are those of the stage put behind one
/// another, it is over after the last round, and each round adds its return.
pub fn rounds_are_plays()
    ensures { (stage : Rules) (times : ℕ) → IsLawful stage → IsTrue stage.one_shot → HasRounds stage times }
{}

/// A turn-based game has the plays of the inner game. In what was a joint step the players move in player
/// order, and each of them sees what was seen before the step, and so none of its choices.
pub fn choices_are_hidden()
    ensures { (inner : Rules) → IsLawful inner → HidesChoices inner }
{}
