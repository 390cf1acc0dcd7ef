// Reads a sheet from standard input and writes its plan's text to standard output. A byte more than the longest sheet is read, so that a longer one shows.
#![tactic(auto)]

fn main(rt: HostRuntime) {
    let mut bytes = [0u8; 64001];
    reading::answer(
        rt,
        &mut bytes,
        b"planner: the sheet cannot be read\n",
        b"planner: the plan cannot be written\n",
        |sheet| printing::plan_text(sheet),
    );
}
