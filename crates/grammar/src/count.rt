// What counting a sheet's rows tells.

// A sheet that is broken: so many rows, and then one that breaks at this byte.
#[derive(Clone, Copy)]
pub struct BrokenSheet {
    pub rows: usize,
    pub byte: usize,
}
