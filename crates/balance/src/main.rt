// A stored job on standard input, and on standard output the stored job with a balanced start; its lines, or a refusal's line, go to standard error.
#![tactic(auto)]

use std::io;
use std::io::Write;

fn main(rt: HostRuntime) -> io::Result<()> {
    let mut input = [0u8; layout::INPUT_BYTES];
    let got = blocks::take(&rt, &mut input, layout::input_bytes())?;
    let mut room = [0u8; hander::ROOM_BYTES];
    let handed = hander::balance(&input[..got], &mut room).unwrap();
    let output = handed.output;
    let end = output + handed.errors;
    rt.write_all(&room[..output])?;
    rt.stderr().write_all(&room[output..end])
}
