// A text printed into a lent list, or refused where the list is too short for it.
ghost use Rattle.std.specs.Prelude.{ℕ, List};
ghost use Rattle.text.specs.Printed.{Prints, Puts};

use findings::TooShort;

// What `put` writes at the front of each list that it is lent, whatever text that is. The text is measured by writing it into no bytes
// of the list, and written where it fits.
pub fn print<F: Fn(&mut [u8]) -> usize>(put: F, out: &mut [u8]) -> Result<usize, TooShort>
    requires { F.IsAlwaysCallable put }
    ensures { (text : List ℕ) → Puts F.Fn put text → Prints text out.old result out.new }
{
    let length = put(&mut out[..0]);
    if out.len() < length {
        return Err(TooShort);
    }
    Ok(put(out))
}
