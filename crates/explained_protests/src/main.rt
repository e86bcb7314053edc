// The same call once more: of the arguments that are stored here the last asks for a protest book.
#![tactic(auto)]

use explaining::explain_standard_input;
use std::io;

fn main(rt: HostRuntime) -> io::Result<()> {
    explain_standard_input(&rt)
}
