//! A board may be shared by threads, and its seats may cross them.
ghost use Rattle.std.specs.Prelude.{◌≡◌};

use crate::board::{Board, Seat};
use samoa_micro::Micro;
use std::marker::{Send, Sync};

fn sent<T: Send>(value: T) -> T
    ensures { result ≡ value }
{
    value
}

fn shared<T: Sync>(value: &T) -> &T
    ensures { result.now ≡ value.now }
{
    value
}

/// The board as it is: it may be shared by threads, if its microprotocols may cross them.
pub fn shared_board<B: Micro + Send>(board: &Board<B>) -> &Board<B>
    ensures { result.now ≡ board.now }
{
    shared(board)
}

/// The seat as it is: it may cross threads, if the board's microprotocols may.
pub fn sent_seat<B: Micro + Send>(seat: Seat<B>) -> Seat<B>
    ensures { result ≡ seat }
{
    sent(seat)
}
