// The answers, printed once what was filed is on the disk.
use crate::list::{List, Offer};
use commands::fault::Columns;
use desk::{Host, Page};
use filing::checking::answer;
use filing::checking::answer::NotFiled;
use words::refusal::Refusal;

// Why a file was refused; of a 4 it was said when the file was looked into.
fn refusal(answer: Result<usize, NotFiled>) -> Option<Refusal> {
    match answer {
        Ok(_) | Err(NotFiled::Fault(_, _)) => None,
        Err(NotFiled::Unreadable) => Some(Refusal::Damaged),
        Err(NotFiled::NoCode) => Some(Refusal::Publisher),
        Err(NotFiled::NoDay) => Some(Refusal::Name),
        Err(NotFiled::FiledAlready) => Some(Refusal::FiledAlready),
        Err(NotFiled::Full) => Some(Refusal::Full),
    }
}

// PATH `filed` COUNT, or PATH `refused` NO, for 4 with PLACE, FIELD and CAUSE behind it
fn line<R: Host>(rt: &R, page: &mut Page<'_, R>, path: &[u8], answer: Result<usize, NotFiled>) {
    if let Some(why) = refusal(answer) {
        words::refusal::refused(rt, path, why);
    }
    page.text(path);
    match answer {
        Ok(count) => println!(page; "\tfiled\t{count}"),
        Err(NotFiled::Fault(at, cause)) => println!(page; "\trefused\t{}", Columns(at, cause)),
        _ => println!(page; "\trefused\t{}", answer::number(answer)),
    }
}

// The lines of the first offers of a list, which were answered.
pub fn print<R: Host>(
    rt: &R,
    page: &mut Page<'_, R>,
    list: List<'_>,
    answers: &[Result<usize, NotFiled>],
) {
    let lines = list
        .bytes
        .split(|&b| b == list.separator)
        .filter(|line| !line.is_empty());
    for (offer, &answer) in lines.zip(answers) {
        line(rt, page, Offer::of(offer).path, answer);
    }
}
