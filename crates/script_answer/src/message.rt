// A message in the words of a script. Its bytes are lent beside it, as messages/specs/Message.antt says. No `Display`: these clauses
// (`Put`) say which bytes stand in the lent buffer whether they fit or not, and `write!` of a `Display` says it after an Ok alone.
ghost use Rattle.std.specs.Prelude.{[], ◌++◌};
ghost use Rattle.messages.specs.Message.{given, failure_of, result_of, response_of, request_of, message_of};
ghost use Rattle.script_words.specs.Letters.{letters};
ghost use Rattle.script_words.specs.LentLaws.{Put};
ghost use Rattle.script_answer.specs.Lines.{
  spaced,
  bytes_text,
  option_text,
  failure_text,
  result_text,
  reply_text,
  request_text,
  message_text,
};

use messages::{Error, Lent, Req, Rpc};
use script_words::{put_hex, put_number, put_text};

// A space, and bytes as a script has them.
fn put_bytes(out: &mut [u8], at: usize, bytes: &[u8]) -> usize
    ensures { Put out.old at (bytes_text bytes.now) result out.new }
{
    let at = put_text(out, at, b" x");
    put_hex(out, at, bytes)
}

// A space, and a number.
pub fn put_spaced(out: &mut [u8], at: usize, n: u64) -> usize
    ensures { Put out.old at (spaced n) result out.new }
{
    let at = put_text(out, at, b" ");
    put_number(out, at, n)
}

// A name and a number: an address, a request's id or a ballot.
pub fn put_numbered(out: &mut [u8], at: usize, name: &[u8], n: u64) -> usize
    ensures { Put out.old at (name.now ++ spaced n) result out.new }
{
    let at = put_text(out, at, name);
    put_spaced(out, at, n)
}

fn put_keyed(out: &mut [u8], at: usize, name: &[u8], key: &[u8]) -> usize
    ensures { Put out.old at (name.now ++ bytes_text key.now) result out.new }
{
    let at = put_text(out, at, name);
    put_bytes(out, at, key)
}

fn put_option(out: &mut [u8], at: usize, o: Option<Lent>, value: &[u8]) -> usize
    ensures { Put out.old at (option_text (given o value.now)) result out.new }
{
    match o {
        None => put_text(out, at, b" none"),
        Some(_) => put_bytes(out, at, value),
    }
}

fn put_error(out: &mut [u8], at: usize, e: Error, value: &[u8]) -> usize
    ensures { Put out.old at (letters " Err" ++ failure_text (failure_of e value.now)) result out.new }
{
    let at = put_text(out, at, b" Err");
    match e {
        Error::ProposalRejected { last } => put_numbered(out, at, b" ProposalRejected", last.0),
        Error::AcceptRejected { last } => put_numbered(out, at, b" AcceptRejected", last.0),
        Error::CasFailed(o) => {
            let at = put_text(out, at, b" CasFailed");
            put_option(out, at, o, value)
        }
        Error::Timeout => put_text(out, at, b" Timeout"),
    }
}

fn put_res(out: &mut [u8], at: usize, res: Result<(), Error>, other: &[u8]) -> usize
    ensures { Put out.old at (result_text (result_of res other.now)) result out.new }
{
    match res {
        Ok(_) => put_text(out, at, b" Ok"),
        Err(e) => put_error(out, at, e, other),
    }
}

// As one function with `put_res` it would take what an `Ok` puts as a closure, for the one line in which they differ.
fn put_response(
    out: &mut [u8],
    at: usize,
    response: Result<Option<Lent>, Error>,
    value: &[u8],
    other: &[u8],
) -> usize
    ensures { Put out.old at (reply_text (response_of response value.now other.now)) result out.new }
{
    match response {
        Ok(o) => {
            let at = put_text(out, at, b" Ok");
            put_option(out, at, o, value)
        }
        Err(e) => put_error(out, at, e, other),
    }
}

fn put_req(out: &mut [u8], at: usize, req: Req, key: &[u8], value: &[u8], other: &[u8]) -> usize
    ensures { Put out.old at (request_text (request_of req key.now value.now other.now)) result out.new }
{
    match req {
        Req::Get => put_keyed(out, at, b" Get", key),
        Req::Del => put_keyed(out, at, b" Del", key),
        Req::Set => {
            let at = put_keyed(out, at, b" Set", key);
            put_bytes(out, at, value)
        }
        Req::Cas { old, new } => {
            let at = put_keyed(out, at, b" Cas", key);
            let at = put_option(out, at, old, value);
            put_option(out, at, new, other)
        }
    }
}

// A list is not part of an answer, so the two messages with one have an empty one. The parts one by one, here and in `put_req`, as
// `message_of` and `request_of` take them: an `Incoming` would be made with an empty list by each caller and taken apart here.
pub fn put_message(
    out: &mut [u8],
    at: usize,
    rpc: Rpc,
    key: &[u8],
    value: &[u8],
    other: &[u8],
) -> usize
    ensures { Put out.old at (message_text (message_of rpc key.now value.now other.now [])) result out.new }
{
    match rpc {
        Rpc::ClientRequest(id, req) => {
            let at = put_numbered(out, at, b"ClientRequest", id);
            put_req(out, at, req, key, value, other)
        }
        Rpc::ClientResponse(id, response) => {
            let at = put_numbered(out, at, b"ClientResponse", id);
            put_response(out, at, response, value, other)
        }
        Rpc::SetAcceptAcceptors => put_text(out, at, b"SetAcceptAcceptors -"),
        Rpc::SetProposeAcceptors => put_text(out, at, b"SetProposeAcceptors -"),
        Rpc::ProposeReq(ballot) => {
            let at = put_numbered(out, at, b"ProposeReq", ballot.0);
            put_bytes(out, at, key)
        }
        Rpc::ProposeRes {
            req_ballot,
            last_accepted_ballot,
            last_accepted_value,
            res,
        } => {
            let at = put_numbered(out, at, b"ProposeRes", req_ballot.0);
            let at = put_spaced(out, at, last_accepted_ballot.0);
            let at = put_option(out, at, last_accepted_value, value);
            put_res(out, at, res, other)
        }
        Rpc::AcceptReq(ballot, o) => {
            let at = put_numbered(out, at, b"AcceptReq", ballot.0);
            let at = put_bytes(out, at, key);
            put_option(out, at, o, value)
        }
        Rpc::AcceptRes(ballot, res) => {
            let at = put_numbered(out, at, b"AcceptRes", ballot.0);
            put_res(out, at, res, other)
        }
    }
}
