// The configurations at five positions, and the book of the steps that reached them.
ghost use Rattle.std.specs.Prelude.{ℕ, ◌*◌, ◌≤◌, vec_len};
ghost use Rattle.engine.specs.Fronts.{count_at, entries_at, Below};

use crate::book::Book;
use crate::front::Front;

// The board has the registers of the configurations whose states and entries stand on the front; a position may have `cap` of them.
// Kept a board that is cut by arithmetic: its memory is handed over, and nothing is allocated afterwards.
#[derive(Drop)]
pub struct Grid<V> {
    pub(crate) front: Front,
    pub(crate) board: Vec<V>,
    pub(crate) book: Book,
    pub(crate) cap: usize,
    ghost few: { cap ≤ 64 },
    ghost wide: { 40 * cap ≤ vec_len board },
    ghost held: { (k : ℕ) → count_at front k ≤ cap },
    ghost known: { (k : ℕ) → Below book.used (entries_at front k) },
}
