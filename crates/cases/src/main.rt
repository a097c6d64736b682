// Cases of 01 that no theorem has, and what only a caller in Rattle sees: each line is a case and what it gave.
#![tactic(auto)]

mod desk_lists;
mod evening;
mod files;
mod show;
mod steps;
mod sums;
mod words;

use std::io;

fn main(rt: HostRuntime) -> io::Result<()> {
    evening::sample(&rt)?;
    sums::plain_sums(&rt)?;
    files::codes(&rt)?;
    files::fields(&rt)?;
    steps::requests(&rt)?;
    desk_lists::long_lists(&rt)?;
    words::sums(&rt)
}
