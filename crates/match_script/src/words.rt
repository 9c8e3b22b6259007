//! The words of a line, as many as some line has.
ghost use Rattle.std.specs.Prelude.{◌≡◌, List, ℕ, IfSome};
ghost use Rattle.match_script.specs.Text.{words_of};
ghost use Rattle.match_script.specs.Shape.{AreWords, AreFirstWords};

use crate::cut::{Piece, cut_piece, cut_word};

/// The words of a line, lent, or a number of them that no line of the format has.
#[derive(Clone, Copy)]
pub enum Words<'a> {
    One(&'a [u8]),
    Two(&'a [u8], &'a [u8]),
    Three(&'a [u8], &'a [u8], &'a [u8]),
    Four(&'a [u8], &'a [u8], &'a [u8], &'a [u8]),
    Six(&'a [u8], &'a [u8], &'a [u8], &'a [u8], &'a [u8], &'a [u8]),
    Other,
}

/// The words of a line.
#[tactic(auto, using(crate::proofs::Cutting::seven_words))]
pub fn parted(line: &[u8]) -> Words<'_>
    ensures { AreWords result (words_of line.now) }
{
    let Some((a, rest)) = cut_word(line) else {
        return Words::One(line);
    };
    let Some((b, last)) = cut_word(rest) else {
        return Words::Two(a, rest);
    };
    let Some((c, rest)) = cut_word(last) else {
        return Words::Three(a, b, last);
    };
    let Some((d, last)) = cut_word(rest) else {
        return Words::Four(a, b, c, rest);
    };
    let Some((e, rest)) = cut_word(last) else {
        return Words::Other;
    };
    match cut_word(rest) {
        None => Words::Six(a, b, c, d, e, rest),
        Some(_) => Words::Other,
    }
}

/// The words of a text's first line and what comes after the line, without looking for its end before. None where the line
/// is no text, or has more words than any line of the format.
pub fn first_words(text: &[u8]) -> Option<(Words<'_>, &[u8])>
    ensures { IfSome result (λ r. AreFirstWords r.0 r.1.now text.now) }
{
    let (a, rest) = match cut_piece(text) {
        Piece::Inner(word, rest) => (word, rest),
        Piece::Last(word, after) => return Some((Words::One(word), after)),
        Piece::Odd => return None,
    };
    let (b, rest) = match cut_piece(rest) {
        Piece::Inner(word, rest) => (word, rest),
        Piece::Last(word, after) => return Some((Words::Two(a, word), after)),
        Piece::Odd => return None,
    };
    let (c, rest) = match cut_piece(rest) {
        Piece::Inner(word, rest) => (word, rest),
        Piece::Last(word, after) => return Some((Words::Three(a, b, word), after)),
        Piece::Odd => return None,
    };
    let (d, rest) = match cut_piece(rest) {
        Piece::Inner(word, rest) => (word, rest),
        Piece::Last(word, after) => return Some((Words::Four(a, b, c, word), after)),
        Piece::Odd => return None,
    };
    let Piece::Inner(e, rest) = cut_piece(rest) else {
        return None;
    };
    match cut_piece(rest) {
        Piece::Last(word, after) => Some((Words::Six(a, b, c, d, e, word), after)),
        _ => None,
    }
}
