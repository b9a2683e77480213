#![tactic(auto)]

// Makes the books of the stored cases of standard input, as a C caller does, and prints each answer: the six numbers, and the text if there is one.
use std::io;

fn main(rt: HostRuntime) -> io::Result<()> {
    stored::case::replay(&mut rt.stdin(), &mut io::writer(&rt), |case, out, work| {
        let mut numbers = [0u64; 6];
        jilgyemot::jilgyemot_book(
            case.index,
            case.contents,
            case.third,
            case.fourth,
            case.limit as u64,
            case.allowance,
            out,
            work,
            &mut numbers,
        );
        numbers
    })
}
