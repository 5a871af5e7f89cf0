//! What a game string asks for, and what is read of it.
ghost use Rattle.std.specs.Prelude.{◌≡◌, ◌≤◌, ◌∷◌, [], IfOk, IfSome, map, not};
ghost use Rattle.std.specs.Option.{option_copied, option_map};
ghost use Rattle.std.specs.List.{find, list_any};
ghost use Rattle.std.specs.Str.{bytes_eq};
ghost use Rattle.spiel_string.specs.View.{value_view, view};
ghost use Rattle.spiel_load.specs.Asked.{Reads, ReadsAs, asked_view};
ghost use Rattle.spiel_load.specs.Given.{asked_by, given_at, only_keys, optional};
ghost use Rattle.spiel_load.specs.Params.{choice_at, choice_in, flag_at, game_in, file_taken, history_at, history_in, name_in, number_at, number_in};
ghost use Rattle.spiel_load.specs.declared.fault.LoadFault.TheVariants.{UnknownGame, UnknownParam, BadParam};

use crate::fault::LoadFault;
use spiel_frac::{List, NoMemory, Text, read_numbers};
use spiel_string::{GameText, ParamValue};
use std::alloc::Global;

/// The game of a name, with what is given to it: keys that rise in byte order, with their values.
#[derive(Clone, Copy)]
pub struct Asked<'a> {
    pub alloc: Global,
    pub name: &'a [u8],
    pub given: &'a [(Text, ParamValue)],
}

/// What a word says, where it is one of some words.
pub trait Choice: Copy {
    ghost use Rattle.std.specs.Prelude.{◌≡◌, ℕ, List as Listed};
    ghost use Rattle.spiel_load.specs.Params.{chosen};

    /// The words, and what each says.
    ghost choices: { Listed (Listed ℕ × Self) };

    /// What the word says.
    fn named(word: &[u8]) -> Option<Self>
        ensures { result ≡ chosen choices word.now };
}

// A text of its own.
fn copied(alloc: Global, bytes: &[u8]) -> Result<Text, NoMemory>
    ensures { IfOk result (λ text. text ≡ bytes.now) }
{
    let mut text = Text::new(alloc);
    text.push(bytes)?;
    Ok(text)
}

// Whether the pair has this key.
fn has_key(pair: &(Text, ParamValue), key: &[u8]) -> bool
    ensures { result ≡ bytes_eq pair.now.0 key.now }
{
    pair.0.bytes() == key
}

// The first pair of this key.
fn find_pair<'a>(given: &'a [(Text, ParamValue)], key: &[u8]) -> Option<&'a (Text, ParamValue)>
    ensures { option_copied result ≡ find (λ pair. bytes_eq pair.0 key.now) given.now }
{
    given.iter().find(|pair| has_key(pair, key))
}

// Whether both are the same.
fn is_key(key: &&[u8], text: &[u8]) -> bool
    ensures { result ≡ bytes_eq key.now.now text.now }
{
    *key == text
}

// Whether one of the keys is the text.
fn has_text(keys: &[&[u8]], text: &[u8]) -> bool
    ensures { result ≡ list_any (λ key. bytes_eq key.now text.now) keys.now }
{
    keys.iter().any(|key| is_key(key, text))
}

// Whether the text is one of the keys.
fn is_among(keys: &[&[u8]], text: &[u8]) -> bool
    ensures { result ≡ list_any (λ key. bytes_eq key text.now) (map (λ key. key.now) keys.now) }
{
    has_text(keys, text)
}

// Whether the key of the pair is none of these.
fn is_unknown(keys: &[&[u8]], pair: &(Text, ParamValue)) -> bool
    ensures { result ≡ not (list_any (λ key. bytes_eq key pair.now.0) (map (λ key. key.now) keys.now)) }
{
    !is_among(keys, pair.0.bytes())
}

// The first pair whose key is none of these.
fn find_unknown<'a>(
    given: &'a [(Text, ParamValue)],
    keys: &[&[u8]],
) -> Option<&'a (Text, ParamValue)>
    ensures { option_copied result ≡ find (λ pair. not (list_any (λ key. bytes_eq key pair.0) (map (λ key. key.now) keys.now))) given.now }
{
    given.iter().find(|pair| is_unknown(keys, pair))
}

// The key of a pair.
fn key_of(pair: &(Text, ParamValue)) -> &[u8]
    ensures { result.now ≡ pair.now.0 }
{
    pair.0.bytes()
}

// The value of a pair.
fn value_of(pair: &(Text, ParamValue)) -> &ParamValue
    ensures { result.now ≡ pair.now.1 }
{
    &pair.1
}

// The number that a value is, where it is one from the first to the last of these.
fn number_in(least: u32, most: u32, value: &ParamValue) -> Option<u32>
    ensures { result ≡ number_in least most (value_view value.now) }
{
    match value {
        ParamValue::Int(number) => match u32::try_from(*number) {
            Ok(number) if least <= number && number <= most => Some(number),
            _ => None,
        },
        _ => None,
    }
}

// The name of a file that a value is, where it is one.
fn name_in(value: &ParamValue) -> Option<&[u8]>
    ensures { option_map (λ name. name.now) result ≡ name_in (value_view value.now) }
{
    match value {
        ParamValue::Word(word) if word.bytes() != b"-".as_slice() => Some(word.bytes()),
        _ => None,
    }
}

// The history that a value is, where it is one.
fn history_in(alloc: Global, value: &ParamValue) -> Result<Option<List<u32>>, NoMemory>
    ensures { IfOk result (λ history. history ≡ history_in (value_view value.now)) }
{
    match value {
        ParamValue::Int(number) => match u32::try_from(*number) {
            Ok(number) => Ok(Some(single(alloc, number)?)),
            Err(_) => Ok(None),
        },
        ParamValue::Word(word) => read_numbers(alloc, word.bytes(), b';'),
        ParamValue::Flag(_) | ParamValue::Game(_) => Ok(None),
    }
}

// The history of one number.
fn single(alloc: Global, number: u32) -> Result<List<u32>, NoMemory>
    ensures { IfOk result (λ history. history ≡ number ∷ []) }
{
    let mut history = List::new(alloc);
    history.push(number)?;
    Ok(history)
}

#[tactic(auto, unfolding(crate::specs::Given::only_keys, crate::specs::Given::optional, crate::specs::Params::flag_at, crate::specs::Params::number_at, crate::specs::Params::choice_at, crate::specs::Params::history_at, crate::specs::Params::file_taken))]
impl<'a> Asked<'a> {
    /// What a game string asks for.
    pub fn by(alloc: Global, text: &'a GameText) -> Asked<'a>
        ensures { asked_view result ≡ asked_by (view text.now) }
    {
        Asked {
            alloc,
            name: text.name.bytes(),
            given: text.params.items(),
        }
    }

    /// The fault of a name that no game has.
    pub fn unknown_game(self) -> Result<LoadFault, NoMemory>
        ensures { IfOk result (λ fault. fault ≡ UnknownGame self.entry.name.now) }
    {
        let name = copied(self.alloc, self.name)?;
        Ok(LoadFault::UnknownGame { name })
    }

    // The fault of a key that the game hasn't.
    fn unknown_param(self, key: &[u8]) -> Result<LoadFault, NoMemory>
        ensures { IfOk result (λ fault. fault ≡ UnknownParam self.entry.name.now key.now) }
    {
        let name = copied(self.alloc, self.name)?;
        let key = copied(self.alloc, key)?;
        Ok(LoadFault::UnknownParam { name, key })
    }

    /// The fault of a parameter that can't have its value, or isn't given where it has to be.
    pub fn bad_param(self, key: &[u8]) -> Result<LoadFault, NoMemory>
        ensures { IfOk result (λ fault. fault ≡ BadParam self.entry.name.now key.now) }
    {
        let name = copied(self.alloc, self.name)?;
        let key = copied(self.alloc, key)?;
        Ok(LoadFault::BadParam { name, key })
    }

    // The value that is given for the key.
    fn find(self, key: &[u8]) -> Option<&'a ParamValue>
        ensures { option_map (λ value. value_view value.now) result ≡ given_at (asked_view self.entry).given key.now }
    {
        match find_pair(self.given, key) {
            Some(pair) => Some(value_of(pair)),
            None => None,
        }
    }

    /// Refuses each other key than these.
    pub fn only_keys(self, keys: &[&[u8]]) -> Result<(), LoadFault>
        ensures { Reads (only_keys (asked_view self.entry) (map (λ key. key.now) keys.now)) result }
    {
        match find_unknown(self.given, keys) {
            Some(pair) => Err(self.unknown_param(key_of(pair))?),
            None => Ok(()),
        }
    }

    /// The flag that is given for the key, or else this one.
    pub fn flag(self, key: &[u8], default: bool) -> Result<bool, LoadFault>
        ensures { Reads (flag_at (asked_view self.entry) key.now default) result }
    {
        match self.find(key) {
            None => Ok(default),
            Some(ParamValue::Flag(flag)) => Ok(*flag),
            Some(_) => Err(self.bad_param(key)?),
        }
    }

    /// The number from the first to the last of these that is given for the key, where one is.
    pub fn optional_number(
        self,
        key: &[u8],
        least: u32,
        most: u32,
    ) -> Result<Option<u32>, LoadFault>
        ensures reads { Reads (optional (number_in least most) (asked_view self.entry) key.now) result }
        ensures range { IfOk result (λ number. IfSome number (λ n. (least ≤ n) × (n ≤ most))) }
    {
        match self.find(key) {
            None => Ok(None),
            Some(value) => match number_in(least, most, value) {
                Some(number) => Ok(Some(number)),
                None => Err(self.bad_param(key)?),
            },
        }
    }

    /// The number from the first to the last of these that is given for the key, or else the default.
    pub fn number(self, key: &[u8], least: u32, most: u32, default: u32) -> Result<u32, LoadFault>
        requires { (least ≤ default) × (default ≤ most) }
        ensures reads { Reads (number_at (asked_view self.entry) key.now least most default) result }
        ensures range { IfOk result (λ n. (least ≤ n) × (n ≤ most)) }
    {
        match self.optional_number(key, least, most)? {
            Some(number) => Ok(number),
            None => Ok(default),
        }
    }

    /// What is said by the word that is given for the key, or else the default.
    pub fn choice<A: Choice>(self, key: &[u8], default: A) -> Result<A, LoadFault>
        ensures { Reads (choice_at (asked_view self.entry) key.now A.choices default) result }
    {
        match self.find(key) {
            None => Ok(default),
            Some(ParamValue::Word(word)) => match A::named(word.bytes()) {
                Some(choice) => Ok(choice),
                None => Err(self.bad_param(key)?),
            },
            Some(_) => Err(self.bad_param(key)?),
        }
    }

    /// The game that is given for the key, where one is.
    pub fn optional_game(self, key: &[u8]) -> Result<Option<Asked<'a>>, LoadFault>
        ensures { ReadsAs (option_map asked_view) (optional game_in (asked_view self.entry) key.now) result }
    {
        match self.find(key) {
            None => Ok(None),
            Some(ParamValue::Word(name)) => Ok(Some(Asked {
                alloc: self.alloc,
                name: name.bytes(),
                given: &[],
            })),
            Some(ParamValue::Game(text)) => Ok(Some(Asked::by(self.alloc, text))),
            Some(_) => Err(self.bad_param(key)?),
        }
    }

    /// The history that is given for the key, or else the empty one.
    pub fn history(self, key: &[u8]) -> Result<List<u32>, LoadFault>
        ensures { Reads (history_at (asked_view self.entry) key.now) result }
    {
        match self.find(key) {
            None => Ok(List::new(self.alloc)),
            Some(value) => match history_in(self.alloc, value)? {
                Some(history) => Ok(history),
                None => Err(self.bad_param(key)?),
            },
        }
    }

    /// The name of the file that a game takes, and nothing else.
    pub fn file(self) -> Result<&'a [u8], LoadFault>
        ensures { ReadsAs (λ name. name.now) (file_taken (asked_view self.entry)) result }
    {
        self.only_keys(&[b"filename"])?;
        match self.find(b"filename") {
            Some(value) => match name_in(value) {
                Some(name) => Ok(name),
                None => Err(self.bad_param(b"filename")?),
            },
            None => Err(self.bad_param(b"filename")?),
        }
    }
}
