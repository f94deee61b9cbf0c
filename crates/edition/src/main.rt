// The night's report by the edition that the one argument names: a stored job on standard input, its report on standard output.
#![tactic(auto)]

use std::io;

fn main(rt: HostRuntime) -> io::Result<()> {
    let mut word = [0u8; 4096];
    let length = arguments::put(&rt, 1, &mut word);
    let named = teller::edition_named(arguments::count(&rt), &word[..length], 0);
    let mut text = [0u8; teller::TEXT_BYTES];
    let Some(edition) = named else {
        let bytes = teller::refuse_edition(&mut text).unwrap();
        return rt.write_all(&text[..bytes]);
    };
    let mut input = [0u8; layout::INPUT_BYTES];
    let got = blocks::take(&rt, &mut input, layout::input_bytes())?;
    let bytes = teller::night(edition, &input[..got], &mut text).unwrap();
    rt.write_all(&text[..bytes])
}
