// Entries of lent lists: total, so that whoever reads or writes a list need not know its length.
#![tactic(auto)]

ghost use Rattle.std.specs.Prelude.{◌≡◌, false, get_or, set};

// What lent lists hold: numbers, or marks and rights; and what stands past their end.
pub trait Entry: Copy {
    ghost PAST_END: { Self };

    const PAST_END: Self;
}

impl Entry for u8 {
    ghost PAST_END = { 0 };

    const PAST_END: u8 = 0;
}

impl Entry for u16 {
    ghost PAST_END = { 0 };

    const PAST_END: u16 = 0;
}

impl Entry for bool {
    ghost PAST_END = { false };

    const PAST_END: bool = false;
}

// The entry of a list: past its end 0 or false.
pub fn entry_at<T: Entry>(list: &[T], at: usize) -> T
    ensures { result ≡ get_or list.now at T.PAST_END }
{
    match list.get(at) {
        Some(entry) => *entry,
        None => T::PAST_END,
    }
}

// The list with this entry so; past its end nothing is written.
pub fn put_entry<T: Entry>(list: &mut [T], at: usize, entry: T)
    ensures { list.new ≡ set list.old at entry }
{
    if at < list.len() {
        list[at] = entry;
    }
}
