// dagskimra: keeps the books of a telephone number exchange. The status of the command goes to descriptor 3, as a digit, and the
// launcher, bin/dagskimra, exits with it.
#![tactic(auto)]

use desk::place::PATH_MAX;
use desk::{Ended, Failure, Host, args};

const STATUS_FILENO: i32 = 3;

// 0 all was done, 1 something was refused, 2 the command line, a file or the system is at fault.
fn tell(ended: Ended) {
    let status = match ended {
        Ok(()) => b"0",
        Err(Failure::Refused) => b"1",
        Err(Failure::Fault) => b"2",
    };
    io::write_all(STATUS_FILENO, status);
}

fn wrong(rt: &impl Host, why: &str) -> Failure {
    words::usage(
        rt,
        why.as_bytes(),
        b"start | file | files | show | why | verdicts | figure | rework | read | demo | help; 'dagskimra help' explains each",
    )
}

fn run(rt: &impl Host, count: usize) -> Ended {
    if count < 2 {
        return Err(wrong(rt, "no command is given"));
    }
    let mut word = [0u8; PATH_MAX];
    match args::read(rt, 1, &mut word) {
        Ok(b"start") => commands::start::run(rt, count),
        Ok(b"file") => offers::file::run(rt, count),
        Ok(b"files") => questions::listing::run(rt, count),
        Ok(b"show") => questions::show::run(rt, count),
        Ok(b"why") => reasons::why::run(rt, count),
        Ok(b"verdicts") => reasons::verdicts::run(rt, count),
        Ok(b"figure") => questions::figure::run(rt, count),
        Ok(b"rework") => questions::rework::run(rt, count),
        Ok(b"read") => commands::read::run(rt, count),
        _ => Err(wrong(rt, "there is no such command")),
    }
}

fn main(rt: HostRuntime) {
    tell(run(&rt, args::count(&rt)));
}
