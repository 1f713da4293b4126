// Writes a sheet as Markdown; run on the numbered list of document 01.

#![tactic(auto)]

use std::io;

fn main(rt: HostRuntime) -> io::Result<()> {
    sheet_main::run(&rt)
}
