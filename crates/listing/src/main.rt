// The session program: a session on standard input, its listing on standard output.
#![tactic(auto)]

use std::io;
use std::io::{Read, Write};

// One byte more than a session may have: a longer one is seen to be bad.
const READ_BYTES: usize = session::MAX_BYTES + 1;

fn main(rt: HostRuntime) -> io::Result<()> {
    let mut session = Vec::new(rt.alloc());
    rt.reader()
        .take(READ_BYTES as u64)
        .read_to_end(&mut session)?;
    let mut out = [0u8; 4608];
    let len = report::listing(&session, &mut out) as usize;
    io::writer(&rt).write_all(&out[..len])
}
