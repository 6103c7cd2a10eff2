// The parties' operations for callers in C and Rust, with a message and an answer in numbers. Any numbers and bytes are taken. Crate
// mirkaspel_c exports them, and include/mirkaspel.h declares them: its parameters one by one, so no struct has those that go together.
#![tactic(auto)]

ghost use Rattle.std.specs.Prelude.{◌≡◌};
ghost use Rattle.messages.specs.declared.answer.Answer.{Answer};
ghost use Rattle.messages.specs.Message.{message_of};
ghost use Rattle.acceptor.specs.Contract.{Received};
ghost use Rattle.proposer.specs.Contract.{outcome_on, tick_on, start_on, Done, Started};
ghost use Rattle.message_numbers.specs.Heads.{head_in, message_in};
ghost use Rattle.mirkaspel.specs.Contract.{Numbered, HandedBack};

use message_numbers::{hand_back, incoming, refusal_of};
use messages::Address;

// `acceptor::receive`.
pub fn mirkaspel_acceptor_receive(
    table: &mut [u8],
    registers: usize,
    from: u16,
    message: &[u64; 8],
    key: &[u8],
    value: &[u8],
    other: &[u8],
    list: &[u16],
    sent: &mut [u8],
    answer: &mut [u64; 14],
) -> u8
    ensures { HandedBack (λ (a : Answer). Received table.old registers sent.old (record { 0 = from }) (message_of (message_in (head_in message.now)) key.now value.now other.now list.now) a table.new sent.new) answer.old result answer.new }
{
    let message = incoming(message, key, value, other, list);
    let a = acceptor::receive(table, registers, Address(from), message, sent);
    hand_back(a, answer)
}

// `proposer::start`, which is answered with nothing or a refusal: its number, or 0.
pub fn mirkaspel_proposer_start(area: &mut [u8], places: usize, timeout: u64, list: &[u16]) -> u8
    ensures { Numbered (λ (a : Answer). Started area.old (start_on area.old places timeout list.now) a area.new) result }
{
    refusal_of(proposer::start(area, places, timeout, list))
}

// `proposer::receive`.
pub fn mirkaspel_proposer_receive(
    area: &mut [u8],
    places: usize,
    from: u16,
    at: u64,
    message: &[u64; 8],
    key: &[u8],
    value: &[u8],
    other: &[u8],
    list: &[u16],
    sent: &mut [u8],
    answer: &mut [u64; 14],
) -> u8
    ensures { HandedBack (λ (a : Answer). Done area.old sent.old (outcome_on area.old places sent.old (record { 0 = from }) at (message_of (message_in (head_in message.now)) key.now value.now other.now list.now)) a area.new sent.new) answer.old result answer.new }
{
    let message = incoming(message, key, value, other, list);
    let a = proposer::receive(area, places, Address(from), at, message, sent);
    hand_back(a, answer)
}

// `proposer::tick`.
pub fn mirkaspel_proposer_tick(
    area: &mut [u8],
    places: usize,
    t: u64,
    sent: &mut [u8],
    answer: &mut [u64; 14],
) -> u8
    ensures { HandedBack (λ (a : Answer). Done area.old sent.old (tick_on area.old places sent.old t) a area.new sent.new) answer.old result answer.new }
{
    let a = proposer::tick(area, places, t, sent);
    hand_back(a, answer)
}
