//! The first line and the first word of some bytes, lent: nothing is copied.
ghost use Rattle.std.specs.Prelude.{◌≡◌, ◌==◌, ◌∷◌, [], ℕ, List, not, position, length, MatchOption, ◌<◌};
ghost use Rattle.match_script.specs.Text.{lines_of, words_of, is_text};
ghost use Rattle.match_script.specs.Shape.{is_word_byte, IsPiece};

// Where a byte stands first.
fn place_of(separator: u8, bytes: &[u8]) -> Option<usize>
    ensures { result ≡ position (λ b. b == separator) bytes.now }
{
    bytes.iter().position(|b| *b == separator)
}

/// A line, and what comes after its newline.
#[tactic(auto, using(crate::proofs::Cutting::line_stops, crate::proofs::Cutting::line_ends))]
pub fn cut_line(bytes: &[u8]) -> (&[u8], &[u8])
    requires { 0 < length bytes.now }
    ensures lines { lines_of bytes.now ≡ result.0.now ∷ lines_of result.1.now }
    ensures shorter { length result.1.now < length bytes.now }
{
    match place_of(b'\n', bytes) {
        Some(i) => {
            let (line, _) = bytes.split_at(i);
            let (_, rest) = bytes.split_at(i + 1);
            (line, rest)
        }
        None => bytes.split_at(bytes.len()),
    }
}

/// A word, and what comes after the space after it, if there is one.
#[tactic(auto, using(crate::proofs::Cutting::word_stops, crate::proofs::Cutting::word_ends))]
pub fn cut_word(bytes: &[u8]) -> Option<(&[u8], &[u8])>
    ensures { MatchOption result (words_of bytes.now ≡ bytes.now ∷ []) (λ r. words_of bytes.now ≡ r.0.now ∷ words_of r.1.now) }
{
    match place_of(b' ', bytes) {
        Some(i) => {
            let (word, _) = bytes.split_at(i);
            let (_, rest) = bytes.split_at(i + 1);
            Some((word, rest))
        }
        None => None,
    }
}

/// Each byte is one that may stand in a line.
pub fn is_text(line: &[u8]) -> bool
    ensures { result ≡ is_text line.now }
{
    line.iter().all(|b| 32 <= *b && *b <= 126)
}

/// What a text begins with, by the first byte that no word has.
#[derive(Clone, Copy)]
pub enum Piece<'a> {
    // A word, and what comes after the space after it.
    Inner(&'a [u8], &'a [u8]),
    // The last word of a line, and what comes after the line.
    Last(&'a [u8], &'a [u8]),
    // The line may have a byte that may not stand in one.
    Odd,
}

fn is_word_byte(b: u8) -> bool
    ensures { result ≡ is_word_byte b }
{
    32 < b && b <= 126
}

// Where the first byte stands that no word has.
fn end_of_word(text: &[u8]) -> Option<usize>
    ensures { result ≡ position (λ b. not (is_word_byte b)) text.now }
{
    text.iter().position(|b| !is_word_byte(*b))
}

/// The first word of a text, with what stands after it.
#[tactic(auto, using(crate::proofs::Pieces::inner_piece, crate::proofs::Pieces::last_piece, crate::proofs::Pieces::whole_piece))]
pub fn cut_piece(text: &[u8]) -> Piece<'_>
    ensures { IsPiece result text.now }
{
    match end_of_word(text) {
        Some(i) => {
            let (word, _) = text.split_at(i);
            let (_, rest) = text.split_at(i + 1);
            match text[i] {
                b' ' => Piece::Inner(word, rest),
                b'\n' => Piece::Last(word, rest),
                _ => Piece::Odd,
            }
        }
        None => {
            let (word, rest) = text.split_at(text.len());
            Piece::Last(word, rest)
        }
    }
}
