// What is run, and what the steps of a sheet leave behind once they were run.
ghost use Rattle.std.specs.Prelude.{◌≡◌, ◌≤◌, true, length};
ghost use Rattle.grammar.specs.Sizes.{limit};
ghost use Rattle.record.specs.SoundTest.{sound_b};

use record::record::Record;

// What is run: the rows of a steps sheet from this byte on, from the fresh record of a site. The record is sound, and the sheet isn't too
// long.
#[derive(Drop)]
pub struct Run<'a> {
    pub fresh: Record,
    pub sheet: &'a [u8],
    pub from: usize,
    ghost sound: { sound_b fresh ≡ true },
    ghost short: { length sheet.now ≤ limit },
}

// The record after the steps of a sheet, how many there were, and whether the sheet ends behind them. No `Result`: the rows before one of
// bad form are served all the same.
#[derive(Drop)]
pub struct Served {
    pub next: Record,
    pub count: usize,
    pub whole: bool,
}
