// The program `sheet`, run on 65,537 bytes: only a program can show that it asks standard input for one byte more.

#![tactic(auto)]

use std::io;

fn main(rt: HostRuntime) -> io::Result<()> {
    sheet_main::run(&rt)
}
