// What a steps sheet says: its header, and the steps of its rows up to the first of bad form. The definitions are in specs/, in
// the words of paper 01, "Program and one whole run", and the theorems of them in proofs/. The types here are those that `steps_row`
// and `steps` answer with.
#![tactic(auto)]

ghost use Rattle.steps_sheet.specs.Heading.{unheaded_no};

use numbers::{Numbered, Paper};

// Why the rows of a steps sheet aren't run.
#[derive(Clone, Copy, PartialEq, Eq)]
pub enum Unheaded {
    // 1: the sheet is over the limit
    TooLong,
    // 2: it doesn't begin with the header
    Wrong,
}

impl Numbered for Unheaded {
    ghost number_of = { unheaded_no };

    fn number(&self) -> u8 {
        match self {
            Unheaded::TooLong => Paper::TOO_LONG,
            Unheaded::Wrong => Paper::BAD_FORM,
        }
    }
}

// What the rows of a sheet are: so many steps, and whether the sheet ends behind them or a row of bad form follows. No `Result`: the steps
// before a row of bad form count.
#[derive(Clone, Copy, PartialEq, Eq)]
pub struct Decoded {
    pub count: usize,
    pub whole: bool,
}
