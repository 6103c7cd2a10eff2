// Which words of a message's line hold its bytes.
ghost use Rattle.std.specs.Prelude.{◌≡◌};
ghost use Rattle.script_message.specs.Words.{error_word, res_word, req_words, response_words, message_words};

use messages::{Error, Lent, Req, Rpc};

// The words of a line that hold a step's key, its value, its other value and its list, as far as it has them; by default none.
#[derive(Clone, Copy, Default)]
pub struct Places {
    pub key: Option<usize>,
    pub value: Option<usize>,
    pub other: Option<usize>,
    pub list: Option<usize>,
}

// The value of an error whose last word stands at a place.
fn error_place(e: Error, place: usize) -> Option<usize>
    ensures { result ≡ error_word e place }
{
    match e {
        Error::CasFailed(o) => o.and(Some(place)),
        _ => None,
    }
}

fn res_place(res: Result<(), Error>, place: usize) -> Option<usize>
    ensures { result ≡ res_word res place }
{
    error_place(res.err()?, place)
}

fn req_places(req: Req) -> Places
    ensures { result ≡ req_words req }
{
    let keyed = Places {
        key: Some(4),
        ..Places::default()
    };
    match req {
        Req::Get | Req::Del => keyed,
        Req::Set => Places {
            value: Some(5),
            ..keyed
        },
        Req::Cas { old, new } => Places {
            value: old.and(Some(5)),
            other: new.and(Some(6)),
            ..keyed
        },
    }
}

fn response_places(response: Result<Option<Lent>, Error>) -> Places
    ensures { result ≡ response_words response }
{
    match response {
        Ok(o) => Places {
            value: o.and(Some(4)),
            ..Places::default()
        },
        Err(e) => Places {
            other: error_place(e, 5),
            ..Places::default()
        },
    }
}

// As the lines of docs/SCRIPT.md have the words, `FROM` being word 0.
pub fn places_of(rpc: Rpc) -> Places
    ensures { result ≡ message_words rpc }
{
    match rpc {
        Rpc::ClientRequest(_, req) => req_places(req),
        Rpc::ClientResponse(_, response) => response_places(response),
        Rpc::SetAcceptAcceptors | Rpc::SetProposeAcceptors => Places {
            list: Some(2),
            ..Places::default()
        },
        Rpc::ProposeReq(_) => Places {
            key: Some(3),
            ..Places::default()
        },
        Rpc::ProposeRes {
            last_accepted_value,
            res,
            ..
        } => Places {
            value: last_accepted_value.and(Some(4)),
            other: res_place(res, 7),
            ..Places::default()
        },
        Rpc::AcceptReq(_, o) => Places {
            key: Some(3),
            value: o.and(Some(4)),
            ..Places::default()
        },
        Rpc::AcceptRes(_, res) => Places {
            other: res_place(res, 5),
            ..Places::default()
        },
    }
}
