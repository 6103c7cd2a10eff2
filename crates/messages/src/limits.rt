// The limits of 01, each written once in the code (specs/Limits.antt has them for the definitions), and the test of refusal 4.
ghost use Rattle.std.specs.Prelude.{◌≡◌, length};
ghost use Rattle.messages.specs.Message.{given, failure_of, request_of, result_of, response_of, arrived};
ghost use Rattle.messages.specs.Limits.{
  key_fits,
  value_fits,
  option_fits,
  failure_fits,
  register_fits,
  request_fits,
  result_fits,
  response_fits,
  none_zero,
  list_fits,
  message_fits,
  within_limits,
};

use super::{Address, Error, Incoming, Lent, Req, Rpc};

pub const KEY_MOST: usize = 64;

pub const VALUE_MOST: usize = 256;

pub const LIST_MOST: usize = 15;

pub const REGISTERS_MOST: usize = 1024;

pub const PENDING_MOST: usize = 32;

fn key_fits(key: &[u8]) -> bool
    ensures { result ≡ key_fits key.now }
{
    key.len() <= KEY_MOST
}

fn value_fits(value: &[u8]) -> bool
    ensures { result ≡ value_fits value.now }
{
    value.len() <= VALUE_MOST
}

fn option_fits(o: Option<Lent>, value: &[u8]) -> bool
    ensures { result ≡ option_fits (given o value.now) }
{
    o.is_none() || value_fits(value)
}

fn error_fits(e: Error, value: &[u8]) -> bool
    ensures { result ≡ failure_fits (failure_of e value.now) }
{
    match e {
        Error::CasFailed(o) => option_fits(o, value),
        _ => true,
    }
}

fn res_fits(res: Result<(), Error>, other: &[u8]) -> bool
    ensures { result ≡ result_fits (result_of res other.now) }
{
    res.err().is_none_or(|e| error_fits(e, other))
}

fn response_fits(response: Result<Option<Lent>, Error>, value: &[u8], other: &[u8]) -> bool
    ensures { result ≡ response_fits (response_of response value.now other.now) }
{
    match response {
        Ok(o) => option_fits(o, value),
        Err(failure) => error_fits(failure, other),
    }
}

// The parts one by one, as `request_of` takes them: an `Incoming` has a whole message.
fn req_fits(req: Req, key: &[u8], value: &[u8], other: &[u8]) -> bool
    ensures { result ≡ request_fits (request_of req key.now value.now other.now) }
{
    match req {
        Req::Get | Req::Del => key_fits(key),
        Req::Set => key_fits(key) && value_fits(value),
        Req::Cas { old, new } => key_fits(key)
            && option_fits(old, value)
            && option_fits(new, other),
    }
}

// Whether a register's key and value are short enough.
pub fn register_fits(key: &[u8], o: Option<Lent>, value: &[u8]) -> bool
    ensures { result ≡ register_fits key.now (given o value.now) }
{
    key_fits(key) && option_fits(o, value)
}

fn none_zero(list: &[u16]) -> bool
    ensures { result ≡ none_zero list.now }
{
    list.iter().all(|a| *a != 0)
}

// Whether a list is short enough and has no address 0.
#[tactic(auto, unfolding(crate::specs::Limits::list_fits))]
pub fn list_fits(list: &[u16]) -> bool
    ensures { result ≡ list_fits list.now }
{
    list.len() <= LIST_MOST && none_zero(list)
}

impl<'a> Incoming<'a> {
    // Whether every key, value and list of the message is short enough, and no address in its list is 0.
    fn bytes_fit(self) -> bool
        ensures { result ≡ message_fits (arrived self.entry) }
    {
        match self.rpc {
            Rpc::ClientRequest(_, req) => req_fits(req, self.key, self.value, self.other),
            Rpc::ClientResponse(_, response) => response_fits(response, self.value, self.other),
            Rpc::SetAcceptAcceptors | Rpc::SetProposeAcceptors => list_fits(self.list),
            Rpc::ProposeReq(_) => key_fits(self.key),
            Rpc::ProposeRes {
                last_accepted_value,
                res,
                ..
            } => option_fits(last_accepted_value, self.value) && res_fits(res, self.other),
            Rpc::AcceptReq(_, o) => register_fits(self.key, o, self.value),
            Rpc::AcceptRes(_, res) => res_fits(res, self.other),
        }
    }

    // Whether refusal 4 is not due to the message and its sender: the same, and the sender's address is not 0.
    #[tactic(auto, unfolding(crate::specs::Limits::within_limits))]
    pub fn fits(self, from: Address) -> bool
        ensures { result ≡ within_limits from (arrived self.entry) }
    {
        from.0 != 0 && self.bytes_fit()
    }
}
