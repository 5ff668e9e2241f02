// Bytes and numbers as text. Each function writes at a place of a lent list and tells the place behind; what would lie past
// the list's end is left out, so that a text is measured by writing it into a list of no bytes.
ghost use Rattle.std.specs.Prelude.{[], ◌∷◌, ◌<◌};
ghost use Rattle.text.specs.Text.{decimal, pair_of};
ghost use Rattle.text.specs.Wrote.{Wrote};

// One byte. No place lies behind the last.
#[tactic(auto, unfolding(crate::specs::Wrote::behind))]
pub fn put(out: &mut [u8], at: usize, byte: u8) -> usize
    ensures { Wrote out.old at (byte ∷ []) out.new result }
{
    if at < out.len() {
        out[at] = byte;
        return at + 1;
    }
    at.saturating_add(1)
}

// Some bytes.
pub fn put_bytes<'a>(out: &'a mut [u8], at: usize, bytes: &'a [u8]) -> usize
    ensures { Wrote out.old at bytes.now out.new result }
{
    let mut next = at;
    for byte in bytes {
        next = put(out, next, *byte);
    }
    next
}

// The two digits of a number below 100.
fn put_pair(out: &mut [u8], at: usize, n: usize) -> usize
    requires { n < 100 }
    ensures { Wrote out.old at (pair_of n) out.new result }
{
    let next = put(out, at, b'0' + (n / 10) as u8);
    put(out, next, b'0' + (n % 10) as u8)
}

// A number of any length: the digits of its hundredth, and then two more.
fn put_long(out: &mut [u8], at: usize, n: usize) -> usize
    ensures { Wrote out.old at (decimal n) out.new result }
{
    if 100 <= n {
        let next = put_long(out, at, n / 100);
        return put_pair(out, next, n % 100);
    }
    if 10 <= n {
        return put_pair(out, at, n);
    }
    put(out, at, b'0' + n as u8)
}

// A number, by as many digits as it has. One digit, as most numbers of a row have, is put without a call of `put_long`.
pub fn put_number(out: &mut [u8], at: usize, n: usize) -> usize
    ensures { Wrote out.old at (decimal n) out.new result }
{
    if n < 10 {
        return put(out, at, b'0' + n as u8);
    }
    put_long(out, at, n)
}
