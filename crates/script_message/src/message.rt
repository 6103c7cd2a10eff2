// A message's words: which message they are. Its bytes are checked here and stored by `read`. Names go through `same`, since
// `name == b"Ok".as_slice()` is longer and no plainer, and behind the arms of a match on byte strings the other names stay open
// (`returns-in_default`).
ghost use Rattle.std.specs.Prelude.{◌≡◌, ◌<◌};
ghost use Rattle.script_words.specs.Text.{number_of};
ghost use Rattle.script_words.specs.Split.{word_at};
ghost use Rattle.script_message.specs.Messages.{
  given_by,
  rejection_by,
  failure_in,
  outcome_in,
  result_in,
  replied_in,
  cas_in,
  asked_in,
  propose_req_in,
  propose_res_in,
  accept_req_in,
  list_in,
  numbered_in,
  message_in,
};

use leaf_fields::same;
use messages::{Ballot, Error, Lent, Req, Rpc};
use script_words::{Words, is_bytes, is_list, read_number};

// A value that may be missing: `none` or bytes.
#[tactic(auto, unfolding(crate::specs::Messages::given_by))]
fn read_option(word: &[u8]) -> Option<Option<Lent>>
    ensures { result ≡ given_by word.now }
{
    if same(word, b"none") {
        return Some(None);
    }
    is_bytes(word).then_some(Some(Lent))
}

// The error with a ballot, from the ballot's word.
#[tactic(auto, unfolding(crate::specs::Messages::rejection_by))]
fn read_rejection(name: &[u8], ballot: &[u8]) -> Option<Error>
    ensures { result ≡ rejection_by name.now (number_of ballot.now) }
{
    let last = Ballot(read_number(ballot)?);
    if same(name, b"ProposalRejected") {
        return Some(Error::ProposalRejected { last });
    }
    same(name, b"AcceptRejected").then_some(Error::AcceptRejected { last })
}

// An error at word i, which ends the line.
#[tactic(auto, unfolding(crate::specs::Messages::failure_in))]
fn read_error(words: &Words<'_>, i: usize) -> Option<Error>
    requires { i < 8 }
    ensures { result ≡ failure_in (word_at words.now) words.now.n i }
{
    let name = words.word(i);
    if same(name, b"Timeout") {
        return (words.n == i + 1).then_some(Error::Timeout);
    }
    if words.n != i + 2 {
        return None;
    }
    let last = words.word(i + 1);
    if same(name, b"CasFailed") {
        return Some(Error::CasFailed(read_option(last)?));
    }
    read_rejection(name, last)
}

// At word i `Ok`, with what was read behind it, or `Err ERROR`, which ends the line.
#[tactic(auto, unfolding(crate::specs::Messages::outcome_in))]
fn read_outcome<T: Copy>(words: &Words<'_>, i: usize, done: Option<T>) -> Option<Result<T, Error>>
    requires { i < 7 }
    ensures { result ≡ outcome_in (word_at words.now) words.now.n i done }
{
    let name = words.word(i);
    if same(name, b"Ok") {
        return Some(Ok(done?));
    }
    if same(name, b"Err") {
        return Some(Err(read_error(words, i + 1)?));
    }
    None
}

// `Ok` or `Err ERROR` at word i, which ends the line.
#[tactic(auto, unfolding(crate::specs::Messages::result_in))]
fn read_res(words: &Words<'_>, i: usize) -> Option<Result<(), Error>>
    requires { i < 7 }
    ensures { result ≡ result_in (word_at words.now) words.now.n i }
{
    read_outcome(words, i, (words.n == i + 1).then_some(()))
}

// `Ok OPT` or `Err ERROR` at word 3.
#[tactic(auto, unfolding(crate::specs::Messages::replied_in))]
fn read_response(words: &Words<'_>) -> Option<Result<Option<Lent>, Error>>
    ensures { result ≡ replied_in (word_at words.now) words.now.n }
{
    let value = if words.n == 5 {
        read_option(words.word(4))
    } else {
        None
    };
    read_outcome(words, 3, value)
}

// `Cas` with its two values at words 5 and 6.
#[tactic(auto, unfolding(crate::specs::Messages::cas_in))]
fn read_cas(words: &Words<'_>) -> Option<Req>
    ensures { result ≡ cas_in (word_at words.now) words.now.n }
{
    if words.n != 7 {
        return None;
    }
    let old = read_option(words.word(5))?;
    let new = read_option(words.word(6))?;
    Some(Req::Cas { old, new })
}

// A request from word 3 on, its key at word 4.
#[tactic(auto, unfolding(crate::specs::Messages::asked_in))]
fn read_req(words: &Words<'_>) -> Option<Req>
    ensures { result ≡ asked_in (word_at words.now) words.now.n }
{
    let name = words.word(3);
    if !is_bytes(words.word(4)) {
        return None;
    }
    if same(name, b"Cas") {
        return read_cas(words);
    }
    if same(name, b"Set") {
        return (words.n == 6 && is_bytes(words.word(5))).then_some(Req::Set);
    }
    if words.n != 5 {
        return None;
    }
    if same(name, b"Get") {
        return Some(Req::Get);
    }
    same(name, b"Del").then_some(Req::Del)
}

#[tactic(auto, unfolding(crate::specs::Messages::propose_req_in))]
fn read_propose_req(words: &Words<'_>, ballot: Ballot) -> Option<Rpc>
    ensures { result ≡ propose_req_in (word_at words.now) words.now.n ballot }
{
    (words.n == 4 && is_bytes(words.word(3))).then_some(Rpc::ProposeReq(ballot))
}

#[tactic(auto, unfolding(crate::specs::Messages::propose_res_in))]
fn read_propose_res(words: &Words<'_>, ballot: Ballot) -> Option<Rpc>
    ensures { result ≡ propose_res_in (word_at words.now) words.now.n ballot }
{
    let last = read_number(words.word(3))?;
    let last_accepted_value = read_option(words.word(4))?;
    let res = read_res(words, 5)?;
    Some(Rpc::ProposeRes {
        req_ballot: ballot,
        last_accepted_ballot: Ballot(last),
        last_accepted_value,
        res,
    })
}

#[tactic(auto, unfolding(crate::specs::Messages::accept_req_in))]
fn read_accept_req(words: &Words<'_>, ballot: Ballot) -> Option<Rpc>
    ensures { result ≡ accept_req_in (word_at words.now) words.now.n ballot }
{
    if words.n != 5 || !is_bytes(words.word(3)) {
        return None;
    }
    Some(Rpc::AcceptReq(ballot, read_option(words.word(4))?))
}

// One of the two messages with a list.
#[tactic(auto, unfolding(crate::specs::Messages::list_in))]
fn read_list_message(words: &Words<'_>, rpc: Rpc) -> Option<Rpc>
    ensures { result ≡ list_in (word_at words.now) words.now.n rpc }
{
    (words.n == 3 && is_list(words.word(2))).then_some(rpc)
}

// One of the messages whose word 2 is a number: a request's id or a ballot.
#[tactic(auto, unfolding(crate::specs::Messages::numbered_in))]
fn read_numbered(words: &Words<'_>, name: &[u8], n: u64) -> Option<Rpc>
    ensures { result ≡ numbered_in name.now (word_at words.now) words.now.n n }
{
    if same(name, b"ProposeReq") {
        return read_propose_req(words, Ballot(n));
    }
    if same(name, b"AcceptReq") {
        return read_accept_req(words, Ballot(n));
    }
    if same(name, b"ProposeRes") {
        return read_propose_res(words, Ballot(n));
    }
    if same(name, b"AcceptRes") {
        return Some(Rpc::AcceptRes(Ballot(n), read_res(words, 3)?));
    }
    if same(name, b"ClientRequest") {
        return Some(Rpc::ClientRequest(n, read_req(words)?));
    }
    if same(name, b"ClientResponse") {
        return Some(Rpc::ClientResponse(n, read_response(words)?));
    }
    None
}

// The message from word 1 on.
#[tactic(auto, unfolding(crate::specs::Messages::message_in))]
pub fn read_message(words: &Words<'_>) -> Option<Rpc>
    ensures { result ≡ message_in (word_at words.now) words.now.n }
{
    let name = words.word(1);
    if same(name, b"SetAcceptAcceptors") {
        return read_list_message(words, Rpc::SetAcceptAcceptors);
    }
    if same(name, b"SetProposeAcceptors") {
        return read_list_message(words, Rpc::SetProposeAcceptors);
    }
    let n = read_number(words.word(2))?;
    read_numbered(words, name, n)
}
