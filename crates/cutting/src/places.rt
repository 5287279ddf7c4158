// Cuts a row of bytes at the first byte that ends a piece.
ghost use Rattle.std.specs.Prelude.{◌≡◌, ◌<◌, ◌≤◌, ◌∷◌, ◌==◌, length, position};
ghost use Rattle.std.specs.List.{after_first, before_first, position_or_len};
ghost use Rattle.cutting.specs.Pieces.{first, pieces_by, statement};

use crate::endings::Ending;

// Where the byte stands first.
pub fn first_place(bytes: &[u8], byte: u8) -> Option<usize>
    ensures { result ≡ position (λ b. b == byte) bytes.now }
{
    bytes.iter().position(|b| *b == byte)
}

// How many bytes stand in front of the first that ends a piece.
fn piece_len<E: Ending>(bytes: &[u8], end: E) -> usize
    ensures run { result ≡ position_or_len (E.Ending.is_end end) bytes.now }
    ensures within { result ≤ length bytes.now }
{
    bytes.iter().take_while(|b| !end.is_end(**b)).count()
}

// The first piece, and what follows the byte that ends it; all and nothing where none does.
#[tactic(auto, using(crate::proofs::Cuts::first_piece, crate::proofs::Cuts::pieces_first))]
pub fn cut<E: Ending>(bytes: &[u8], end: E) -> (&[u8], &[u8])
    ensures front { result.0.now ≡ before_first (E.Ending.is_end end) bytes.now }
    ensures rest { result.1.now ≡ after_first (E.Ending.is_end end) bytes.now }
    ensures piece { first (pieces_by (E.Ending.is_end end) bytes.now) ≡ result.0.now }
    ensures others { 0 < length bytes.now → pieces_by (E.Ending.is_end end) bytes.now ≡ result.0.now ∷ pieces_by (E.Ending.is_end end) result.1.now }
    ensures shorter { 0 < length bytes.now → length result.1.now < length bytes.now }
{
    let (piece, behind) = bytes.split_at(piece_len(bytes, end));
    match behind {
        [_, rest @ ..] => (piece, rest),
        [] => (piece, &[]),
    }
}

// What stands before the comment, which goes from '#' on.
pub fn statement(line: &[u8]) -> &[u8]
    ensures { result.now ≡ statement line.now }
{
    cut(line, b'#').0
}
