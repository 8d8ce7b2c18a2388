//! Tokens: what a field of a line denotes.

ghost use Rattle.std.specs.Prelude.{◌≡◌, [], ◌∷◌, MatchOption};
ghost use Rattle.hv_proof_text.specs.Working.Tokens.{letter_field};
ghost use Rattle.hv_proof_text.specs.declared.token.Letter.{Letter};

use hv_lines::Word;

/// A field of one letter.
#[derive(Clone, Copy)]
pub(crate) enum Letter {
    A,
    B,
    C,
    D,
    E,
    G,
    H,
    I,
    K,
    N,
    P,
    R,
    S,
    T,
    U,
    X,
}

/// What a field denotes.
#[derive(Clone, Copy)]
pub(crate) enum Token {
    Letter(Letter),
    Word(Word),
    /// A decimal.
    Number(u64),
    /// A decimal behind a dash.
    Minus(u64),
    /// The field `;`, which ends a state.
    End,
}

/// The letter of this byte.
#[inline(always)]
pub(crate) fn letter_of(byte: u8) -> Option<Letter>
    ensures { MatchOption result
        ((letter : Letter) → letter_field letter ≡ byte ∷ [] → ⊥)
        (λ letter. letter_field letter ≡ byte ∷ []) }
{
    match byte {
        b'a' => Some(Letter::A),
        b'b' => Some(Letter::B),
        b'c' => Some(Letter::C),
        b'd' => Some(Letter::D),
        b'e' => Some(Letter::E),
        b'g' => Some(Letter::G),
        b'h' => Some(Letter::H),
        b'i' => Some(Letter::I),
        b'k' => Some(Letter::K),
        b'n' => Some(Letter::N),
        b'p' => Some(Letter::P),
        b'r' => Some(Letter::R),
        b's' => Some(Letter::S),
        b't' => Some(Letter::T),
        b'u' => Some(Letter::U),
        b'x' => Some(Letter::X),
        _ => None,
    }
}
