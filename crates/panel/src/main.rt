// `panel`: reads a site sheet and a steps sheet and writes what the panel answers to each row. The sheets are the two files that
// its arguments name, or site.csv and steps.csv of the folder that it is run in. The text is proved in the crate `run`; here is only
// reading and writing.
#![tactic(auto)]

use blank_lists::{blank_panel_text, blank_sheet};
use program_io::write_text;
use run::texts::panel_text;
use sheet_files::read_asked;

// As the other two programs of two sheets, but for the text and its list: what a program does stands whole in it.
fn main(rt: HostRuntime) {
    let mut site = blank_sheet();
    let mut steps = blank_sheet();
    let mut out = blank_panel_text();
    let in_site = read_asked(&rt, 1, "site.csv", &mut site);
    let in_steps = read_asked(&rt, 2, "steps.csv", &mut steps);
    if let Ok(length) = panel_text(&site[..in_site], &steps[..in_steps], &mut out) {
        write_text(&rt, &out, length);
    }
}
