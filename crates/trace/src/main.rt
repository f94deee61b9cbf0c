// One pass over a stored job, shown move by move: the job on standard input, the trace on standard output. The edition is the one argument, and 1 without.
#![tactic(auto)]

use std::io;

fn main(rt: HostRuntime) -> io::Result<()> {
    let mut word = [0u8; 4096];
    let length = arguments::put(&rt, 1, &mut word);
    let named = teller::edition_named(arguments::count(&rt), &word[..length], 1);
    let mut text = [0u8; teller::TRACE_BYTES];
    let Some(edition) = named else {
        let bytes = teller::refuse_edition(&mut text).unwrap();
        return rt.write_all(&text[..bytes]);
    };
    let mut input = [0u8; layout::INPUT_BYTES];
    let got = blocks::take(&rt, &mut input, layout::input_bytes())?;
    let bytes = teller::trace(edition, &input[..got], &mut text).unwrap();
    rt.write_all(&text[..bytes])
}
