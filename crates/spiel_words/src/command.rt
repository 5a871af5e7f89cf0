//! What the program can be asked for: a command with its words.
use spiel_frac::Text;

/// What is asked of the program, with the words as they were given.
#[derive(Debug, Drop)]
pub enum Command {
    /// `restore FILE`
    Restore {
        file: Text,
    },
    /// `save GAME LIST`
    Save {
        game: Text,
        list: Text,
    },
    /// `legal GAME LIST`
    Legal {
        game: Text,
        list: Text,
    },
    /// `show GAME`
    Show {
        game: Text,
    },
    /// `value GAME POLICY`
    Value {
        game: Text,
        policy: Text,
    },
    /// `policy GAME POLICY`
    Policy {
        game: Text,
        policy: Text,
    },
    /// `tidy FILE`
    Tidy {
        file: Text,
    },
    /// `judge GAME POLICY [--brief]`
    Judge {
        game: Text,
        policy: Text,
        brief: bool,
    },
}
