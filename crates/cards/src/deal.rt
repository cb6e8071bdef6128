// A deal that was read.
use crate::board::Board;

#[derive(Clone, Copy)]
pub struct Deal {
    pub board: Board,
    // how many bytes the deal has
    pub size: usize,
}
