// The end of a command.
ghost use Rattle.std.specs.Prelude.{Err};
ghost use Rattle.desk.specs.declared.failure.Failure.TheVariants.{Refused};
ghost use Rattle.commands.specs.Status.{Ends};

use desk::{Ended, Failure, Host, Page};

// Writes out the page. Where the output can't be written, that is the fault; else the command ends as it was to.
pub fn done<R: Host>(rt: &R, page: Page<'_, R>, ended: Ended) -> Ended
    ensures { Ends ended result }
{
    page.finish()
        .map_err(|e| words::failed(rt, b"standard output", e))?;
    ended
}

// Prints `refused` and the number alone.
pub fn refused(rt: &impl Host, number: u8) -> Ended
    ensures { Ends (Err Refused) result }
{
    let mut page = Page::new(rt);
    println!(page; "refused\t{number}");
    done(rt, page, Err(Failure::Refused))
}
