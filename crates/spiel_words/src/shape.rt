//! Shapes of command lines: which words, flags and options may stand behind a verb.
/// What may stand behind a verb: a positional word for each place, flags `--name`, and options
/// `--name VALUE`. All names differ.
pub struct Shape {
    pub places: &'static [&'static str],
    pub flags: &'static [&'static str],
    pub options: &'static [&'static str],
}

/// `FILE`
pub const FILE: Shape = Shape {
    places: &["file"],
    flags: &[],
    options: &[],
};

/// `GAME`
pub const GAME: Shape = Shape {
    places: &["game"],
    flags: &[],
    options: &[],
};

/// `GAME LIST`
pub const GAME_AND_LIST: Shape = Shape {
    places: &["game", "list"],
    flags: &[],
    options: &[],
};

/// `GAME POLICY`
pub const GAME_AND_POLICY: Shape = Shape {
    places: &["game", "policy"],
    flags: &[],
    options: &[],
};

/// `GAME POLICY [--brief]`
pub const JUDGE: Shape = Shape {
    places: &["game", "policy"],
    flags: &["brief"],
    options: &[],
};
