//! A whole joint step that is added at once.
ghost use Rattle.std.specs.Prelude.{◌≡◌, ◌∷◌, [], ◌<◌};
ghost use Rattle.spiel_api.specs.Plays.{IsPlay};
ghost use Rattle.spiel_test_games.specs.Stakes.{stakes_rules};

use spiel_api::{Game, Place, walk};
use spiel_frac::{List, NoMemory};
use spiel_test_games::Stakes;
use std::alloc::Global;
use std::test::Fail;

/// Whether both sides, on a copy of a state behind the stake 1, lead to the move of player 1, and the state
/// stays as it was.
fn is_joint_step(
    alloc: Global,
    behind: &List<u32>,
    first: u32,
    second: u32,
) -> Result<bool, NoMemory>
    requires at { IsPlay stakes_rules behind.now }
    requires behind { behind.now ≡ 1 ∷ [] }
    requires first { first < 2 }
    requires second { second < 2 }
{
    let mut state = Stakes.copy(alloc, behind)?;
    Stakes.apply_joint(alloc, &mut state, &[first, second])?;
    Ok(
        Stakes.history(&state) == [1, first, second].as_slice()
            && Stakes.place(&state) == Place::Move(1)
            && Stakes.history(behind) == [1].as_slice(),
    )
}

#[test]
fn both_choose_at_once(rt: HostRuntime) -> Result<(), Fail> {
    let state = walk(rt.alloc(), &Stakes, &[1]).expect(&rt, "a stake");
    assert!(rt; is_joint_step(rt.alloc(), &state, 0, 1)?);
    assert!(rt; is_joint_step(rt.alloc(), &state, 1, 1)?);
    Ok(())
}
