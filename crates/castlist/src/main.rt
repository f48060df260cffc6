// Reads from standard input what to cast, and writes the listing to standard output.
#![tactic(auto)]

use std::io;

fn main(rt: HostRuntime) -> io::Result<()> {
    let mut input = [0u8; 8193];
    let mut work = [0u8; 65488];
    let mut out = [0u8; 139180];
    let n = reading::read_full(&mut rt.stdin(), &mut input)?;
    let r = listing::list_read(&input, n, &mut work, &mut out);
    if rt.write_all(&out[..r]).is_err() {
        rt.stderr()
            .write_all(b"castlist: the listing could not be written\n")?;
    }
    Ok(())
}
