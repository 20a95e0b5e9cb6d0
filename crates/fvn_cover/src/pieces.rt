//! Pieces of nearly one length into which a list is cut.
ghost use Rattle.std.specs.Prelude.{◌≡◌, ◌<◌, ◌≤◌, min};
ghost use Rattle.fvn_cover.specs.Pieces.{cut};

/// The number of pieces of so many things: one for each worker, but none without a thing.
pub fn piece_count(workers: u32, count: usize) -> u32
    ensures { result ≡ min workers count }
{
    match u32::try_from(count) {
        Ok(n) => workers.min(n),
        Err(_) => workers,
    }
}

/// Where the piece begins: piece i of p has the things from `i * n / p` to below `(i + 1) * n / p`.
pub fn piece_start(count: usize, pieces: u32, piece: u32) -> usize
    requires some { 0 < pieces }
    requires within { piece ≤ pieces }
    ensures { result ≡ cut count pieces piece }
{
    (u128::from(piece) * (count as u128) / u128::from(pieces)) as usize
}
