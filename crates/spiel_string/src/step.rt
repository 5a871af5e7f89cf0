//! The grammar of game strings as a machine: the mode and the depth after one more byte.
ghost use Rattle.std.specs.Prelude.{◌≡◌, ◌<◌, ◌≤◌, ◌^◌, ◌+◌, IfSome};
ghost use Rattle.spiel_string.specs.Modes.{next_of, may_end, after_close};

use crate::scan::{Class, Mode};

// The mode and the depth after a closing bracket.
fn after_close(depth: u32) -> Option<(Mode, u32)>
    ensures value { result ≡ after_close depth }
    ensures deeper { IfSome result (λ after. after.1 ≤ depth + 1) }
{
    if depth == 1 {
        Some((Mode::Done, 0))
    } else {
        Some((Mode::After, depth.saturating_sub(1)))
    }
}

/// The mode and the depth after one more byte, unless none of its class can stand there.
pub fn next(mode: Mode, depth: u32, class: Class) -> Option<(Mode, u32)>
    requires { depth + 1 < 2 ^ 32 }
    ensures value { result ≡ next_of mode depth class }
    ensures deeper { IfSome result (λ after. after.1 ≤ depth + 1) }
{
    match (mode, class) {
        (Mode::Start, Class::Space) => Some((Mode::Start, depth)),
        (Mode::Start | Mode::Outer, Class::Lower) | (Mode::Outer, Class::NameRest) => Some((
            Mode::Outer,
            depth,
        )),
        (Mode::Outer | Mode::OuterAfter, Class::Space) => Some((Mode::OuterAfter, depth)),
        (Mode::Outer | Mode::OuterAfter | Mode::Name | Mode::NameAfter, Class::Open) => {
            Some((Mode::Opened, depth + 1))
        }
        (Mode::Opened, Class::Space) => Some((Mode::Opened, depth)),
        (Mode::KeyDue, Class::Space) => Some((Mode::KeyDue, depth)),
        (Mode::Opened | Mode::KeyDue | Mode::Key, Class::Lower) | (Mode::Key, Class::NameRest) =>
            Some((Mode::Key, depth)),
        (Mode::Key | Mode::KeyAfter, Class::Space) => Some((Mode::KeyAfter, depth)),
        (Mode::Key | Mode::KeyAfter, Class::Equals) => Some((Mode::ValueDue, depth)),
        (Mode::ValueDue, Class::Space) => Some((Mode::ValueDue, depth)),
        (Mode::ValueDue | Mode::Name, Class::Lower) | (Mode::Name, Class::NameRest) => Some((
            Mode::Name,
            depth,
        )),
        (Mode::ValueDue | Mode::Name | Mode::Word, Class::NameRest | Class::WordRest)
        | (Mode::Word, Class::Lower) => Some((Mode::Word, depth)),
        (Mode::Name | Mode::NameAfter, Class::Space) => Some((Mode::NameAfter, depth)),
        (Mode::Word | Mode::After, Class::Space) => Some((Mode::After, depth)),
        (Mode::Name | Mode::NameAfter | Mode::Word | Mode::After, Class::Comma) => Some((
            Mode::KeyDue,
            depth,
        )),
        (Mode::Opened | Mode::Name | Mode::NameAfter | Mode::Word | Mode::After, Class::Close) =>
            after_close(depth),
        (Mode::Done, Class::Space) => Some((Mode::Done, depth)),
        _ => None,
    }
}

/// Whether a text may end in the mode.
pub fn may_end(mode: Mode) -> bool
    ensures { result ≡ may_end mode }
{
    matches!(mode, Mode::Outer | Mode::OuterAfter | Mode::Done)
}
