// Stamps: a pass over a list leaves its own stamp on each square, so that the board is never cleared.
ghost use Rattle.boards.specs.Boards.{Under, Board, Stamped};

// No number twice: each leaves the pass's stamp on its square, where no earlier pass left it.
pub fn stamps_once(list: &[u16], board: &mut [u8; 1024], stamp: u8) -> bool
    requires under { Under 1024 list.now }
    requires board { Board stamp board.old }
    ensures { Stamped list.now stamp result board.new }
{
    for cell in list {
        let square = usize::from(*cell);
        if board[square] == stamp {
            return false;
        }
        board[square] = stamp;
    }
    true
}
