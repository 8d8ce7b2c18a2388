//! Laws of formats.

ghost use Rattle.std.specs.Prelude.{◌≡◌, ℕ, List, Option, Result, length};
ghost use Rattle.hv_bytes.specs.Pieces.{PieceBytes};
ghost use Rattle.hv_grammar.specs.Parsers.{Parser, line, many, many_till, onward, optional};
ghost use Rattle.hv_grammar.specs.Parsers.{after, parsed, repeat, till};

/// Lines up to a closing one, and lines up to the end of the input, are one line ahead, and what
/// follows it; a list of so many values has so many.
pub fn laws_of_repetition<A, B>()
    ensures till { (lacking : B) (test : A → List ℕ → Result (Option A) B) (a : A) (n : ℕ)
        (ps : List PieceBytes) → after (line lacking (test a) n ps) (till lacking test a)
        ≡ many_till lacking test a n ps }
    ensures onward { (test : A → List ℕ → Result A B) (a : A) (n : ℕ) (ps : List PieceBytes)
        → after (optional (test a) n ps) (onward test a) ≡ many test a n ps }
    ensures count { (part : Parser B A) (k : ℕ) (list : List A) (n m : ℕ) (ps qs : List PieceBytes)
        → repeat k part n ps ≡ parsed list m qs → length list ≡ k }
{}
