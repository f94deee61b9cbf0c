// The night's program: a stored job on standard input, its report on standard output. It stays with edition 1 of the choice.
#![tactic(auto)]

use std::io;

fn main(rt: HostRuntime) -> io::Result<()> {
    let mut input = [0u8; layout::INPUT_BYTES];
    let got = blocks::take(&rt, &mut input, layout::input_bytes())?;
    let mut text = [0u8; teller::TEXT_BYTES];
    let bytes = teller::night(1, &input[..got], &mut text).unwrap();
    rt.write_all(&text[..bytes])
}
