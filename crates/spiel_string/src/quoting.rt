ghost use Rattle.std.specs.Prelude.{◌≡◌, ◌==◌, ◌||◌, ◌&&◌, ◌+◌, ℕ, List, not, [], ◌∷◌, ◌++◌, length, if◌then◌else◌};
ghost use Rattle.spiel_frac.specs.Adding.{Adds};
ghost use Rattle.spiel_string.specs.Quoting.{is_escaped, escaped, quoted, unescaped, said_by, escaped_byte};
ghost use Rattle.spiel_string.specs.Tokens.{first, tokens_from};
ghost use Rattle.spiel_string.specs.declared.token.Token.TheVariants.{Quote};

use spiel_frac::{NoMemory, Text};

fn is_escaped(byte: u8) -> bool
    ensures { result ≡ is_escaped byte }
{
    byte == b'"' || byte == b'\\'
}

/// Whether what follows a byte of a text stands behind a backslash that takes it.
pub fn is_behind(behind: bool, byte: u8) -> bool
    ensures { result ≡ (not behind && (byte == 92)) }
{
    !behind && byte == b'\\'
}

// Adds what a byte says, which stands behind a backslash or not.
fn push_said(behind: bool, byte: u8, out: &mut Text) -> Result<(), NoMemory>
    ensures { Adds result out.old out.new (said_by behind byte) }
{
    if is_behind(behind, byte) {
        Ok(())
    } else if behind && !is_escaped(byte) {
        out.push(&[b'\\', byte])
    } else {
        out.push(&[byte])
    }
}

// Adds the backslash that is left at the end.
fn push_last(behind: bool, out: &mut Text) -> Result<(), NoMemory>
    ensures { Adds result out.old out.new (if behind then 92 ∷ [] else []) }
{
    if behind { out.push(b"\\") } else { Ok(()) }
}

/// Adds what a quoted text says, of which these are the bytes between the quotes: `\"` says `"`, `\\` says
/// `\`, and any other byte says itself. After `NoMemory` a front of it was added.
pub fn unescape(bytes: &[u8], out: &mut Text) -> Result<(), NoMemory>
    ensures { Adds result out.old out.new (unescaped bytes.now) }
{
    let mut behind = false;
    for byte in bytes {
        push_said(behind, *byte, out)?;
        behind = is_behind(behind, *byte);
    }
    push_last(behind, out)
}

// Adds a byte as it stands in a quoted text.
fn push_escaped(byte: u8, out: &mut Text) -> Result<(), NoMemory>
    ensures { Adds result out.old out.new (escaped_byte byte) }
{
    if is_escaped(byte) {
        out.push(&[b'\\', byte])
    } else {
        out.push(&[byte])
    }
}

// Adds the bytes that say a text between two quotes.
fn push_all_escaped(text: &[u8], out: &mut Text) -> Result<(), NoMemory>
    ensures { Adds result out.old out.new (escaped text.now) }
{
    for byte in text {
        push_escaped(*byte, out)?;
    }
    Ok(())
}

/// Adds a text in quotes, with a backslash before each quote and each backslash. After `NoMemory` a front of
/// it was added.
pub fn write_quoted(text: &[u8], out: &mut Text) -> Result<(), NoMemory>
    ensures written { Adds result out.old out.new (quoted text.now) }

    // What was written says the text, and is one token.
    ensures reads_back { unescaped (escaped text.now) ≡ text.now }
    ensures token { (at : ℕ) (rest : List ℕ) → tokens_from at (quoted text.now ++ rest)
        ≡ first (Quote (at + 1) (at + 1 + length (escaped text.now))) (tokens_from (at + length (quoted text.now)) rest) }
{
    out.push(b"\"")?;
    push_all_escaped(text, out)?;
    out.push(b"\"")
}
