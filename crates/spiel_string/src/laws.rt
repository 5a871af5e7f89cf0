ghost use Rattle.std.specs.Prelude.{◌≡◌, ◌+◌, ℕ, List, [], ◌∷◌, ◌++◌, length, true, false, ◌⊎◌, Ok, Err};
ghost use Rattle.std.specs.List.{list_all};
ghost use Rattle.spiel_string.specs.Pieces.{IsCutAt, IsRowOf, Letter, Piece, are_proper, is_proper_letter, letters_say, spell, spell_letters, tokens_of};
ghost use Rattle.spiel_string.specs.Quoting.{escaped, quoted, unescaped};
ghost use Rattle.spiel_string.specs.Tokens.{begins_word, file_tokens, first, is_space, is_token_word, nothing, token_text, tokens_from};
ghost use Rattle.spiel_string.specs.declared.token.Token.{Token};
ghost use Rattle.spiel_string.specs.declared.token.Token.TheVariants.{Word, Quote, Left, Right, Comma};
ghost use Rattle.spiel_string.specs.declared.token.TokenFault.TheVariants.{Unclosed};

/// Bytes that are written piece by piece are so many tokens: white space is none, a brace or a comma is one,
/// and so is a word where none goes on behind it. What `write_quoted` says of quoted texts is the rest.
pub fn pieces_are_tokens()
    ensures nothing { (at : ℕ) → tokens_from at [] ≡ nothing }
    ensures space { (at byte : ℕ) (rest : List ℕ) → is_space byte ≡ true → tokens_from at (byte ∷ rest) ≡ tokens_from (at + 1) rest }
    ensures left { (at : ℕ) (rest : List ℕ) → tokens_from at (123 ∷ rest) ≡ first Left (tokens_from (at + 1) rest) }
    ensures right { (at : ℕ) (rest : List ℕ) → tokens_from at (125 ∷ rest) ≡ first Right (tokens_from (at + 1) rest) }
    ensures comma { (at : ℕ) (rest : List ℕ) → tokens_from at (44 ∷ rest) ≡ first Comma (tokens_from (at + 1) rest) }
    ensures word { (at : ℕ) (word rest : List ℕ) → is_token_word word ≡ true → begins_word rest ≡ false
        → tokens_from at (word ++ rest) ≡ first (Word at (at + length word)) (tokens_from (at + length word) rest) }
{}

/// A word that was written is the text of its token, and a text that was quoted is what its token says.
pub fn tokens_have_their_texts()
    ensures word { (before word rest : List ℕ)
        → token_text (before ++ (word ++ rest)) (Word (length before) (length before + length word)) ≡ word }
    ensures text { (before text rest : List ℕ)
        → unescaped (token_text (before ++ (quoted text ++ rest)) (Quote (length before + 1) (length before + 1 + length (escaped text)))) ≡ text }
{}

/// A file has tokens exactly where it is a row of pieces, and they are those of its pieces. Else it is a row of
/// pieces and a text behind them that isn't closed, and the fault names the place behind them.
pub fn files_are_pieces()
    ensures read { (bytes : List ℕ) (list : List Token) → file_tokens bytes ≡ Ok list → IsRowOf bytes list }
    ensures spelled { (pieces : List Piece) → are_proper pieces ≡ true → file_tokens (spell pieces []) ≡ Ok (tokens_of 0 pieces) }
    ensures refused { (bytes : List ℕ) (at : ℕ) → file_tokens bytes ≡ Err (Unclosed at) → IsCutAt bytes at }
    ensures unclosed { (pieces : List Piece) (letters : List Letter) (tail : List ℕ)
        → are_proper pieces ≡ true → list_all is_proper_letter letters ≡ true → ((tail ≡ []) ⊎ (tail ≡ 92 ∷ []))
        → file_tokens (spell pieces (34 ∷ spell_letters letters tail)) ≡ Err (Unclosed (length (spell pieces []))) }
    ensures says { (letters : List Letter) → list_all is_proper_letter letters ≡ true
        → unescaped (spell_letters letters []) ≡ letters_say letters }
{}
