// An answer in numbers, as a caller in C or Rust takes it.
ghost use Rattle.std.specs.Prelude.{◌≡◌};
ghost use Rattle.message_numbers.specs.Answers.{answer_numbers, refusal_of, numbers_after};

use super::head::Head;
use messages::Answer;

// The numbers of include/mirkaspel.h: the answer's kind, the addressee, how many entries and rows, the lengths of the value and of the key,
// and the head of the message. What a kind has no use for is 0.
#[derive(Clone, Copy, Default)]
struct Numbers {
    kind: u64,
    to: u16,
    entries: usize,
    rows: usize,
    value_len: usize,
    key_len: usize,
    head: Head,
}

impl From<Numbers> for [u64; 14] {
    ghost from_gives = { λ n w. w ≡ answer_numbers n.kind n.to n.entries n.rows n.value_len n.key_len n.head };

    fn from(n: Numbers) -> [u64; 14] {
        [
            n.kind,
            n.to.into(),
            n.entries as u64,
            n.rows as u64,
            n.value_len as u64,
            n.key_len as u64,
            n.head.kind,
            n.head.number,
            n.head.request,
            n.head.value,
            n.head.other,
            n.head.accepted,
            n.head.result,
            n.head.last,
        ]
    }
}

// The refusal's number, and 0 where the answer is none: include/mirkaspel.h has a refusal as a number, so there is no Option.
pub fn refusal_of(answer: Answer) -> u8
    ensures { result ≡ refusal_of answer }
{
    match answer {
        Answer::Refused(r) => r.number(),
        _ => 0,
    }
}

// The answer's numbers are put into `out`, and its refusal number is handed back: 0 where it is none, as include/mirkaspel.h has it. A
// refusal leaves `out` as it was.
pub fn hand_back(answer: Answer, out: &mut [u64; 14]) -> u8
    ensures { (result ≡ refusal_of answer) × (out.new ≡ numbers_after out.old answer) }
{
    let numbers = match answer {
        Answer::Nothing => Numbers::default(),
        Answer::Message { to, rpc, value_len } => Numbers {
            kind: 1,
            to: to.0,
            value_len,
            head: rpc.into(),
            ..Numbers::default()
        },
        Answer::Broadcast {
            rpc,
            entries,
            key_len,
            value_len,
        } => Numbers {
            kind: 2,
            entries,
            value_len,
            key_len,
            head: rpc.into(),
            ..Numbers::default()
        },
        Answer::Timeouts(rows) => Numbers {
            kind: 3,
            rows,
            ..Numbers::default()
        },
        Answer::Refused(r) => return r.number(),
    };
    *out = numbers.into();
    0
}
