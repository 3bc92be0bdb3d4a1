//! The first token of a batch.

ghost use Rattle.std.specs.Prelude.{◌≡◌, ◌+◌, ◌≤◌, ◌∷◌, ℕ, List, length, Ok, true, false};
ghost use Rattle.std.specs.List.{prefix_len};
ghost use Rattle.homeo_syntax.specs.declared.workload.Refusal.{Refusal};
ghost use Rattle.homeo_syntax.specs.Lexemes.{Lexeme as SpecLexeme, is_space, lexeme_of};
ghost use Rattle.homeo_syntax.specs.Tokens.{Scanned, scanned_from};
ghost use Rattle.homeo_meaning.specs.Verdict.{text_limit};
ghost use Rattle.homeo_reader.specs.Stands.{EndsLexeme};
ghost use Rattle.homeo_tokens.specs.Views.{plain_lexeme};
ghost use Rattle.homeo_session.specs.inner.Tokens.{ends_lexeme};

use homeo_syntax::{Mark, Refusal};
use homeo_tokens::{Lexeme, first_lexeme, is_space};

/// The code of a batch that begins with another token than it may.
const WRONG_BEGINNING: u8 = 15;

// Whether a batch may begin with a token: `client`, `schedule` or `end`.
fn may_begin(token: Lexeme<'_>) -> bool
    ensures { result ≡ ends_lexeme (plain_lexeme token.entry) }
{
    match token {
        Lexeme::Fixed(Mark::Client | Mark::Schedule | Mark::End) => true,
        _ => false,
    }
}

// Whether a batch may begin with the token that a text begins with.
fn begins_right(text: &[u8]) -> bool
    ensures { (l : SpecLexeme × ℕ) → lexeme_of text.now ≡ Some l → result ≡ ends_lexeme l.0 }
{
    match first_lexeme(text) {
        Some((token, _)) => may_begin(token),
        None => false,
    }
}

fn spaces(frame: &[u8]) -> usize
    ensures count { result ≡ prefix_len is_space frame.now }
    ensures within { result ≤ length frame.now }
{
    frame.iter().take_while(|byte| is_space(**byte)).count()
}

/// The refusal of a batch that begins with another token than it may. So many bytes stand before the frame in the batch's text.
pub(crate) fn wrong_beginning(before: usize, frame: &[u8]) -> Option<Refusal>
    requires { before + length frame.now ≤ text_limit }
    ensures right { (first : Scanned) (others : List Scanned) → scanned_from 0 before frame.now ≡ Ok (first ∷ others) →
        result ≡ None → EndsLexeme first.lexeme }
    ensures wrong { (first : Scanned) (others : List Scanned) (r : Refusal) → scanned_from 0 before frame.now ≡ Ok (first ∷ others) →
        result ≡ Some r → (EndsLexeme first.lexeme → ⊥) × (r ≡ record { code = 15; offset = first.offset }) }
{
    let spaces = spaces(frame);
    if begins_right(&frame[spaces..]) {
        return None;
    }
    Some(Refusal {
        code: WRONG_BEGINNING,
        offset: (before + spaces) as u64,
    })
}
