// Reads the length of a sheet, the sheet and a certificate from standard input and writes the verdict's text to standard output. A byte more than the longest input is read, so that a longer certificate shows.
#![tactic(auto)]

fn main(rt: HostRuntime) {
    let mut bytes = [0u8; 864065];
    reading::answer(
        rt,
        &mut bytes,
        b"verify: the certificate cannot be read\n",
        b"verify: the answer cannot be written\n",
        |input| verifying::verify_input(input),
    );
}
