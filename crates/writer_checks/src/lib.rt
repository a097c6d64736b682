// The writer's checks of lent tables, in their order: 20, 4, 6, 7, 8, 9.
#![tactic(auto)]

use file_blocks::plan::Head;

mod codes;
mod records;
pub mod refusal;
pub mod sizes;

// The tables of a job with its codes, as they are lent: its sizes and the cycle, and twelve slices. No call writes them.
#[derive(Clone, Copy)]
pub struct Tables<'a> {
    pub head: Head,
    pub price: &'a [u32],
    pub offer_owner: &'a [u16],
    pub offer_code: &'a [u8],
    pub offer_issuer: &'a [u16],
    pub grocer_owner: &'a [u16],
    pub tally_grocer: &'a [u16],
    pub tally_box: &'a [u16],
    pub tally_code: &'a [u8],
    pub tally_count: &'a [i32],
    pub tally_issuer: &'a [u16],
    pub tally_bag: &'a [u16],
    pub tally_revision: &'a [u16],
}
