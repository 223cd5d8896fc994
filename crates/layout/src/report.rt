// A report, `num1,num2,ddmmyyyy,GAINING,LOSING,STATUS`: a part with nothing missing, save the gaining network of a Z.
ghost use Rattle.std.specs.Prelude.{◌≡◌, true, ◌+◌, ◌≤◌, length};
ghost use Rattle.laws.specs.Overlay.{Laid};
ghost use Rattle.layout.specs.Report.{is_named, whole_of, report_part, report_of, report_of_words, report_fits, report_text};

use crate::part::Part;
use calendar::dates::CalendarDays;
use fields::code::Code;
use fields::gaining::Gaining;
use fields::kind::Kind;
use fields::number::Number;

#[derive(Clone, Copy)]
pub struct Report {
    pub number: Number,
    pub date: CalendarDays,
    pub gaining: Gaining,
    pub losing: Code,
    pub kind: Kind,
}

// Only a Z may leave the gaining network out.
fn is_named(gaining: Option<Code>, kind: Kind) -> bool
    ensures { result ≡ is_named gaining kind }
{
    gaining.is_some() || kind == Kind::Z
}

impl Report {
    // The report that a part is, where nothing is missing.
    #[tactic(auto, using(std::proofs::lemmas::Bool::Decides::nat_tests), unfolding(crate::specs::Report::whole_of))]
    pub fn of_part(p: Part) -> Option<Report>
        ensures { result ≡ whole_of p }
    {
        if p.number.first.is_empty() {
            return None;
        }
        let date = p.date?;
        let losing = p.losing?;
        let kind = p.kind?;
        if !is_named(p.gaining, kind) {
            return None;
        }
        Some(Report {
            number: p.number,
            date,
            gaining: Gaining::from(p.gaining),
            losing,
            kind,
        })
    }

    // Its six fields.
    pub fn part(self) -> Part
        ensures { result ≡ report_part self }
    {
        Part {
            number: self.number,
            date: Some(self.date),
            gaining: self.gaining.into(),
            losing: Some(self.losing),
            kind: Some(self.kind),
        }
    }

    #[tactic(auto, using(std::proofs::lemmas::Bool::Decides::nat_tests), unfolding(crate::specs::Report::report_of, crate::specs::Report::report_from))]
    pub fn read(s: &[u8]) -> Option<Report>
        ensures { result ≡ report_of s.now }
    {
        let Some(p) = Part::read(s) else {
            return None;
        };
        Report::of_part(p)
    }

    // From six plain words, as a part's, with nothing missing.
    #[tactic(auto, using(std::proofs::lemmas::Bool::Decides::nat_tests), unfolding(crate::specs::Report::report_of_words, crate::specs::Report::report_from))]
    pub fn of_words(w: &[u64]) -> Option<Report>
        ensures { result ≡ report_of_words w.now }
    {
        Report::of_part(Part::of_words(w)?)
    }

    // How many bytes its text has.
    pub fn len(self) -> usize
        ensures { result ≡ length (report_text self) }
    {
        self.part().len()
    }

    // Into a record that can hold it.
    #[tactic(auto, using(crate::proofs::PutLaws::behind))]
    pub fn write(self, out: &mut [u8], at: usize) -> usize
        requires { (at + length (report_text self) ≤ length out.old) × (report_fits self ≡ true) }
        ensures { Laid out.old at (report_text self) out.new result }
    {
        self.part().write(out, at)
    }
}
