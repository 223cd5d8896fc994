// The offers of a command line as a list: PUBLISHER, a tab, PATH and a zero each.
ghost use Rattle.std.specs.Prelude.{◌≤◌, length, IfOk};

use commands::LONGEST;
use desk::place::PATH_MAX;
use desk::{Failure, Host, args, copy_in};
use fields::code::Code;

// The publisher's four bytes; one that is no network code is as wrong as any other, and has no tab in it.
fn publisher_at(rt: &impl Host, k: usize) -> [u8; 4] {
    let mut word = [0u8; PATH_MAX];
    let mut code = [b'-'; 4];
    if let Some(word) = args::path(rt, k, &mut word) {
        if Code::read(word).is_some() {
            copy_in(&mut code, 0, word);
        }
    }
    code
}

// Puts one offer into the list, and answers where the next one goes.
fn put(list: &mut [u8], at: usize, code: &[u8; 4], path: &[u8]) -> usize
    ensures { result ≤ length list.new }
{
    let a = copy_in(list, at, code);
    let b = copy_in(list, a, b"\t");
    let c = copy_in(list, b, path);
    copy_in(list, c, b"\0")
}

fn put_arg(
    rt: &impl Host,
    list: &mut [u8; LONGEST],
    at: usize,
    code: &[u8; 4],
    k: usize,
) -> Result<usize, Failure>
    ensures { IfOk result (λ next. next ≤ length list.new) }
{
    let mut path = [0u8; PATH_MAX];
    let path = args::read(rt, k, &mut path).map_err(|why| words::failed(
        rt,
        b"a path",
        args::reason(why),
    ))?;
    let next = put(list, at, code, path);
    if LONGEST <= next {
        return Err(words::complain(
            rt,
            b"file",
            b"too many files for one command; give them by --list",
        ));
    }
    Ok(next)
}

// The offers of the arguments from `from` to `end`, whose publisher is argument 3: how long their list is. Where an argument, or all of
// them, are too long, it has been told.
pub fn gather(
    rt: &impl Host,
    list: &mut [u8; LONGEST],
    from: usize,
    end: usize,
) -> Result<usize, Failure>
    ensures { IfOk result (λ n. n ≤ length list.new) }
{
    let code = publisher_at(rt, 3);
    let mut at = 0;
    for k in from..end {
        at = put_arg(rt, list, at, &code, k)?;
    }
    Ok(at)
}
