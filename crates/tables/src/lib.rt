// The tables of a site: how large they are. The definitions of the rules and of the way out are in specs/, the theorems that
// they tell the paper's facts in proofs/.
// The most people, locations and doors that a site has, and the rights of them all.
#![tactic(auto)]

pub const MOST_PEOPLE: usize = 64;

pub const MOST_LOCATIONS: usize = 32;

pub const MOST_DOORS: usize = 64;

pub const MOST_RIGHTS: usize = MOST_PEOPLE * MOST_LOCATIONS;
