//! What the nodes tell one another, and who coordinates a round.
ghost use Rattle.std.specs.Prelude.{◌≡◌, ◌≤◌, length};
ghost use Rattle.samoa_serial.specs.ConsTable.{coordinates as row_coordinates, coordinator as round_coordinator, letter_at, majority as row_majority, tell as row_tell};

use samoa_micro::rows::{call, me, nodes, number, read_message, words_of};
use samoa_model::{Outcome, Setup, Words};
use samoa_serial::{Ballot, Letter, Message};

/// What a node tells this one.
pub fn read_letter(words: &Words) -> Letter
    ensures { result ≡ letter_at words.now }
{
    Letter {
        sender: words.word_or_zero(0),
        tag: words.word_or_zero(1),
        ballot: Ballot {
            instance: words.word_or_zero(2),
            round: words.word_or_zero(3),
        },
        adopted: words.word_or_zero(4),
        message: read_message(words, 5),
    }
}

/// The coordinator of a round, from 1.
pub fn coordinator(setup: &Setup, round: u64) -> u64
    ensures { result ≡ round_coordinator setup.now round }
{
    let count = nodes(setup);
    if count == 0 {
        0
    } else {
        round.saturating_sub(1) % count
    }
}

/// Whether this node is the coordinator of a round.
pub fn coordinates(setup: &Setup, ballot: Ballot) -> bool
    ensures { result ≡ row_coordinates setup.now ballot }
{
    ballot.round != 0 && coordinator(setup, ballot.round) == me(setup)
}

/// How many nodes are more than half of them.
pub fn majority(setup: &Setup) -> u64
    ensures { result ≡ row_majority setup.now }
{
    nodes(setup) / 2 + 1
}

/// A letter to a node, or to all.
pub fn tell(
    setup: &Setup,
    to: u64,
    tag: u64,
    ballot: Ballot,
    adopted: u64,
    message: Message,
    frame: Words,
) -> Outcome
    requires { length frame ≤ 12 }
    ensures { result ≡ row_tell setup.now to tag ballot adopted message frame }
{
    let head = [
        to,
        number(setup, 0),
        tag,
        ballot.instance,
        ballot.round,
        adopted,
    ];
    call(setup, 0, Words::joined(&head, &words_of(message)), frame)
}
