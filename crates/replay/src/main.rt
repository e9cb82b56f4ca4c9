// Replays the stored lists of data/, each case through the public functions, and prints each answer.
#![tactic(auto)]

mod codes;
mod hash;
mod input;
mod lowering;
mod output;
mod records;
mod units;

use std::io;

fn main(rt: HostRuntime) -> io::Result<()> {
    units::replay(&rt)?;
    records::replay(&rt)?;
    codes::replay(&rt)?;
    lowering::replay(&rt)
}
