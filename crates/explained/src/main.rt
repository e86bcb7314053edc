// Standard input explained by the library's one call: for a rule book, since no argument is stored here.
#![tactic(auto)]

use explaining::explain_standard_input;
use std::io;

fn main(rt: HostRuntime) -> io::Result<()> {
    explain_standard_input(&rt)
}
