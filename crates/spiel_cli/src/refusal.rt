//! Why a command isn't done: what is said of it, and its exit status.
ghost use Rattle.std.specs.Prelude.{◌≡◌, Some};
ghost use Rattle.spiel_cli.specs.Refusal.{reason_of, status_of};
ghost use Rattle.spiel_cli.specs.declared.refusal.Refusal.TheVariants.{NoMemory as OutOfMemory};

use spiel_api::WalkFault;
use spiel_efg::EfgFault;
use spiel_frac::NoMemory;
use spiel_io::FetchFault;
use spiel_load::LoadFault;
use spiel_policy::PolicyFault;
use spiel_response::JudgeFault;
use spiel_save::SavedFault;
use spiel_string::StringFault;
use spiel_tree::TreeFault;
use spiel_words::WordsFault;
use std::fmt;

/// Why a command is refused, or can't be done.
#[derive(Drop)]
pub enum Refusal {
    /// The words are no command.
    Words(WordsFault),
    /// The word in the place of a history lists none.
    BadList,
    /// A file was not fetched.
    File(FetchFault),
    /// A word is no game string.
    GameString(StringFault),
    /// A game string names no game.
    Loading(LoadFault),
    /// A file holds no extensive game.
    Efg(EfgFault),
    /// A file is no saved play.
    SavedFile(SavedFault),
    /// The history is no play of the game.
    Walk(WalkFault),
    /// The game can't be judged.
    Tree(TreeFault),
    /// A file gives no policy of the game.
    PolicyFile(PolicyFault),
    /// The policy can't be judged.
    Judging(JudgeFault),
    /// Memory ran out.
    NoMemory,
}

impl From<NoMemory> for Refusal {
    ghost from_gives = { λ _ e. e ≡ OutOfMemory };

    fn from(_error: NoMemory) -> Refusal {
        Refusal::NoMemory
    }
}

impl fmt::Display for Refusal {
    ghost output = { λ refusal. Some (reason_of refusal) };

    fn fmt<W: fmt::Write>(&self, f: &mut fmt::Formatter<W>) -> fmt::Result {
        match self {
            Refusal::Words(fault) => write!(f, "{fault}"),
            Refusal::BadList => write!(f, "bad list"),
            Refusal::File(fault) => write!(f, "{fault}"),
            Refusal::GameString(fault) => write!(f, "{fault}"),
            Refusal::Loading(fault) => write!(f, "{fault}"),
            Refusal::Efg(fault) => write!(f, "{fault}"),
            Refusal::SavedFile(fault) => write!(f, "{fault}"),
            Refusal::Walk(fault) => write!(f, "{fault}"),
            Refusal::Tree(fault) => write!(f, "{fault}"),
            Refusal::PolicyFile(fault) => write!(f, "{fault}"),
            Refusal::Judging(fault) => write!(f, "{fault}"),
            Refusal::NoMemory => write!(f, "no memory"),
        }
    }
}

/// The exit status of a refusal. Want of memory has one of its own, whichever call tells it.
pub fn status(refusal: &Refusal) -> u8
    ensures { result ≡ status_of refusal.now }
{
    match refusal {
        Refusal::NoMemory
        | Refusal::Words(WordsFault::NoMemory)
        | Refusal::File(FetchFault::NoMemory)
        | Refusal::GameString(StringFault::NoMemory)
        | Refusal::Loading(LoadFault::NoMemory)
        | Refusal::Efg(EfgFault::NoMemory)
        | Refusal::SavedFile(SavedFault::NoMemory)
        | Refusal::Walk(WalkFault::NoMemory)
        | Refusal::Tree(TreeFault::NoMemory)
        | Refusal::PolicyFile(PolicyFault::NoMemory)
        | Refusal::Judging(JudgeFault::NoMemory) => 8,
        Refusal::Words(_) => 2,
        Refusal::File(FetchFault::Read) | Refusal::Loading(LoadFault::File(FetchFault::Read)) => 3,
        Refusal::BadList
        | Refusal::PolicyFile(PolicyFault::Json | PolicyFault::Head | PolicyFault::Shape { .. })
        | Refusal::File(_)
        | Refusal::GameString(_)
        | Refusal::Loading(_)
        | Refusal::Efg(_)
        | Refusal::SavedFile(_)
        | Refusal::Walk(_) => 4,
        Refusal::PolicyFile(PolicyFault::Overflow { .. }) | Refusal::Judging(_) => 6,
        Refusal::Tree(_) | Refusal::PolicyFile(_) => 5,
    }
}
