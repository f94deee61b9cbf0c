// A stored job on standard input, and on standard output the stored job with the sides after its run; a refusal's line goes to standard error. The edition is the one
// argument, and 1 without.
#![tactic(auto)]

use std::io;
use std::io::Write;

fn main(rt: HostRuntime) -> io::Result<()> {
    let mut word = [0u8; 4096];
    let length = arguments::put(&rt, 1, &mut word);
    let named = teller::edition_named(arguments::count(&rt), &word[..length], 1);
    let mut room = [0u8; layout::INPUT_BYTES];
    let Some(edition) = named else {
        let bytes = teller::refuse_edition(&mut room).unwrap();
        return rt.stderr().write_all(&room[..bytes]);
    };
    let mut input = [0u8; layout::INPUT_BYTES];
    let got = blocks::take(&rt, &mut input, layout::input_bytes())?;
    let handed = hander::resettle(edition, &input[..got], &mut room).unwrap();
    let output = handed.output;
    let end = output + handed.errors;
    rt.write_all(&room[..output])?;
    rt.stderr().write_all(&room[output..end])
}
