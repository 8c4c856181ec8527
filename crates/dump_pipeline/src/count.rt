//! The length of a piece.
ghost use Rattle.std.specs.Prelude.{◌≡◌, length};
ghost use Rattle.dump_writer.specs.SinkWords.{capped};

use dump_writer::Piece;

/// How many bytes a piece has; the count doesn't go above `u64::MAX`.
pub(crate) fn piece_len(piece: &Piece<'_>) -> u64
    ensures { result ≡ capped (length piece.now) }
{
    let mut count = 0u64;
    let chunks = piece.chunks();
    for chunk in chunks {
        count = count.saturating_add(chunk.bytes().len() as u64);
    }
    count
}
