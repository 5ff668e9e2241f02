// `bench_rounds`: does what `panel` does, as many times over as its argument says (once without one), and writes the last text.
// bench/run times it.
#![tactic(auto)]

use blank_lists::{blank_panel_text, blank_sheet};
use program_io::{number_asked, write_text};
use run::texts::panel_text;
use sheet_files::read_sheet;

// The same text again and again into the same list; the last one's length, 0 for no round.
fn text_in_rounds<'a>(rounds: usize, site: &'a [u8], steps: &'a [u8], out: &'a mut [u8]) -> usize {
    let mut length = 0;
    for _ in 0..rounds {
        length = panel_text(site, steps, out).unwrap_or(0);
    }
    length
}

fn main(rt: HostRuntime) {
    let mut site = blank_sheet();
    let mut steps = blank_sheet();
    let mut out = blank_panel_text();
    let in_site = read_sheet(&rt, "site.csv", &mut site);
    let in_steps = read_sheet(&rt, "steps.csv", &mut steps);
    let length = text_in_rounds(
        number_asked(&rt, 1),
        &site[..in_site],
        &steps[..in_steps],
        &mut out,
    );
    write_text(&rt, &out, length);
}
