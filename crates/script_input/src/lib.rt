// A script's input, line by line: a window on a buffer, which is filled as the lines are used up.
#![tactic(auto)]

ghost use Rattle.std.specs.Prelude.{◌≡◌, ◌≤◌, ◌+◌, min, length};
ghost use Rattle.script_input.specs.Shown.{Shows};

use std::io::Read;

// The line from `from` to `end`; what was read reaches to `to`. Where `end` is `to` the line has no line end: it is the input's last, or
// longer than the buffer; its bytes are taken either way, so `end` is no Option. The input's end is an empty window, and `input`, `buf`,
// `from` and `to` are lent one by one: `next_line` and `after` are public, and what they take and promise (`Shows`) stays.
#[derive(Clone, Copy)]
pub struct Window {
    pub from: usize,
    pub end: usize,
    pub to: usize,
}

// One read behind what is there; how far it reaches then. A read that fails brings nothing, as at the input's end.
fn read_on<R: Read>(input: &mut R, buf: &mut [u8], to: usize) -> usize
    requires { to ≤ length buf.old }
    ensures { (to ≤ result) × (result ≤ length buf.new) }
{
    to + input.read(&mut buf[to..]).unwrap_or(0)
}

// The line that begins at the front, of which nothing up to `to` is a line end.
fn long_line<R: Read>(input: &mut R, buf: &mut [u8], to: usize) -> Window
    requires { to ≤ length buf.old }
    ensures { Shows result buf.new }
{
    // a `while`, since it goes on by what a read brings
    let mut n = to;
    while n < buf.len() {
        let more = read_on(input, buf, n);
        if let Some(end) = script_words::place_of(&buf[..more], n, b'\n') {
            return Window {
                from: 0,
                end,
                to: more,
            };
        }
        if more == n {
            break;
        }
        n = more;
    }
    Window {
        from: 0,
        end: n,
        to: n,
    }
}

// The next line, where what is between two places is not used up. Places that are no part of the buffer count as none.
pub fn next_line<R: Read>(input: &mut R, buf: &mut [u8], from: usize, to: usize) -> Window
    ensures { Shows result buf.new }
{
    if buf.len() < to || to < from {
        return long_line(input, buf, 0);
    }
    if let Some(end) = script_words::place_of(&buf[..to], from, b'\n') {
        return Window { from, end, to };
    }
    buf.copy_within(from..to, 0);
    long_line(input, buf, to - from)
}

// Where the next line begins, behind a line end or at the end.
pub fn after(end: usize, to: usize) -> usize
    ensures { result ≡ min (end + 1) to }
{
    end.saturating_add(1).min(to)
}
