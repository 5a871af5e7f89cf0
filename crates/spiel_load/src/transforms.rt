//! The transforms that have names, and what they take.
ghost use Rattle.std.specs.Prelude.{◌≡◌};
ghost use Rattle.spiel_load.specs.Asked.{ReadsAs, asked_view};
ghost use Rattle.spiel_load.specs.Transforms.{game_taken, rounds_taken, start_taken, taken_by, transform_of};

use crate::asked::Asked;
use crate::fault::LoadFault;
use spiel_frac::List;

/// A transform that has a name.
#[derive(Clone, Copy)]
pub enum Transform {
    /// `misere`
    Misere,
    /// `repeated_game`
    Repeated,
    /// `start_at`
    StartAt,
    /// `turn_based_simultaneous_game`
    TurnBased,
}

/// A transform with all that it takes but the inner game.
#[derive(Drop)]
pub enum Layering {
    /// `misere`
    Misere,
    /// So many rounds of the game.
    Repeated { times: u32 },
    /// The game behind these numbers.
    StartAt { prefix: List<u32> },
    /// `turn_based_simultaneous_game`
    TurnBased,
}

/// The transform of this name.
#[tactic(auto, unfolding(crate::specs::Transforms::transform_of))]
pub fn find_transform(name: &[u8]) -> Option<Transform>
    ensures { result ≡ transform_of name.now }
{
    if name == b"misere".as_slice() {
        return Some(Transform::Misere);
    }
    if name == b"repeated_game".as_slice() {
        return Some(Transform::Repeated);
    }
    if name == b"start_at".as_slice() {
        return Some(Transform::StartAt);
    }
    if name == b"turn_based_simultaneous_game".as_slice() {
        return Some(Transform::TurnBased);
    }
    None
}

/// The inner game of a transform that takes nothing else.
#[tactic(auto, using(crate::proofs::Reading::reading_steps), unfolding(crate::specs::Transforms::game_taken))]
fn game_taken(layering: Layering, asked: Asked) -> Result<(Layering, Asked), LoadFault>
    ensures { ReadsAs (λ taken. (taken.0, asked_view taken.1)) (game_taken layering (asked_view asked.entry)) result }
{
    asked.only_keys(&[b"game"])?;
    match asked.optional_game(b"game")? {
        Some(inner) => Ok((layering, inner)),
        None => Err(asked.bad_param(b"game")?),
    }
}

/// The number of rounds that a transform takes, and their stage.
#[tactic(auto, using(crate::proofs::Reading::reading_steps), unfolding(crate::specs::Transforms::rounds_taken))]
fn rounds_taken(asked: Asked) -> Result<(Layering, Asked), LoadFault>
    ensures { ReadsAs (λ taken. (taken.0, asked_view taken.1)) (rounds_taken (asked_view asked.entry)) result }
{
    asked.only_keys(&[b"num_repetitions", b"stage_game"])?;
    let times = asked.optional_number(b"num_repetitions", 0, u32::MAX)?;
    let stage = asked.optional_game(b"stage_game")?;
    match (times, stage) {
        (Some(times), Some(stage)) => Ok((Layering::Repeated { times }, stage)),
        (None, _) => Err(asked.bad_param(b"num_repetitions")?),
        (Some(_), None) => Err(asked.bad_param(b"stage_game")?),
    }
}

/// The numbers behind which a transform starts a game, and the game.
#[tactic(auto, using(crate::proofs::Reading::reading_steps), unfolding(crate::specs::Transforms::start_taken))]
fn start_taken(asked: Asked) -> Result<(Layering, Asked), LoadFault>
    ensures { ReadsAs (λ taken. (taken.0, asked_view taken.1)) (start_taken (asked_view asked.entry)) result }
{
    asked.only_keys(&[b"game", b"history"])?;
    let inner = asked.optional_game(b"game")?;
    let prefix = asked.history(b"history")?;
    match inner {
        Some(inner) => Ok((Layering::StartAt { prefix }, inner)),
        None => Err(asked.bad_param(b"game")?),
    }
}

/// What a transform takes, and its inner game.
pub fn taken_by(transform: Transform, asked: Asked) -> Result<(Layering, Asked), LoadFault>
    ensures { ReadsAs (λ taken. (taken.0, asked_view taken.1)) (taken_by transform (asked_view asked.entry)) result }
{
    match transform {
        Transform::Misere => game_taken(Layering::Misere, asked),
        Transform::Repeated => rounds_taken(asked),
        Transform::StartAt => start_taken(asked),
        Transform::TurnBased => game_taken(Layering::TurnBased, asked),
    }
}
