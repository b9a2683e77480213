#![tactic(auto)]

// Prints the listing of a scan of the first 16,384 bytes of standard input, or `refused` and the number and the line of a
// refusal.
use answer::Answer;
use station::input;
use std::io;
use std::io::Write;

fn main(rt: HostRuntime) -> io::Result<()> {
    let mut text = [0u8; 16384];
    let n = input::read_full(&mut rt.stdin(), &mut text)?;
    let mut out = [0u8; 65536];
    let mut to = io::writer(&rt);
    match listing::scan(&text[..n], &mut out) {
        Ok(Answer::Accepted { length, .. }) => to.write_all(&out[..length]),
        Ok(Answer::NoRegion) => Ok(()),
        Err(refusal) => {
            let number = refusal.number();
            let line = refusal.place().line;
            writeln!(to, "refused\t{number}\t{line}")
        }
    }
}
