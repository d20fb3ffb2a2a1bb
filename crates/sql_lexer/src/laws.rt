//! Laws of tokenizing.

ghost use Rattle.std.specs.Prelude.{◌≡◌, ◌-◌, List, false, ◌∷◌, ◌++◌, slice_range};
ghost use Rattle.sql_lexer.specs.Cut.{Cuts, earlier, end_after};
ghost use Rattle.sql_lexer.specs.Lex.{Text, Lexed};

/// A text is cut into tokens in one way at most.
pub fn cut_in_one_way()
    ensures { (z : Text) (ts us : List Lexed) → Cuts 0 false z ts → Cuts 0 false z us → ts ≡ us }
{}

/// From its first token to the end of one of them, a text is cut into the same tokens, and the last of them ends it.
pub fn part_is_cut()
    ensures cuts { (z : Text) (t : Lexed) (ts us : List Lexed) → Cuts 0 false z (t ∷ (ts ++ us))
        → Cuts 0 false (slice_range z t.start (end_after t.start (t ∷ ts))) (earlier t.start (t ∷ ts)) }
    ensures ends { (z : Text) (t : Lexed) (ts us : List Lexed) → Cuts 0 false z (t ∷ (ts ++ us))
        → end_after 0 (earlier t.start (t ∷ ts)) ≡ end_after t.start (t ∷ ts) - t.start }
{}
