#![tactic(auto)]

// Assembles the stored cases of standard input and prints each answer: the six numbers, and the text if there is one.
use std::io;

fn main(rt: HostRuntime) -> io::Result<()> {
    stored::case::replay(&mut rt.stdin(), &mut io::writer(&rt), |case, out, work| {
        answer::numbers(assemble_call::assemble(
            case.index,
            case.contents,
            case.third,
            case.fourth,
            case.limit,
            out,
            work,
        ))
    })
}
