// A record of any layout, made of plain words and written; what words make can be written.
ghost use Rattle.std.specs.Prelude.{◌≡◌, true, Option, Some, ℕ, Bool, List, ◌+◌, ◌≤◌, length};
ghost use Rattle.laws.specs.Overlay.{Laid};
ghost use Rattle.layout.specs.Correction.{correction_of_words, correction_fits, correction_text};
ghost use Rattle.layout.specs.Report.{report_of_words, report_fits, report_text};
ghost use Rattle.layout.specs.Request.{request_of_words, request_fits, request_text};
ghost use Rattle.layout.proofs.CorrectionTrip.{correction-words};
ghost use Rattle.layout.proofs.ReportLaws.{report-words};
ghost use Rattle.layout.proofs.RequestTrip.{request-words};

use layout::correction::Correction;
use layout::report::Report;
use layout::request::Request;

pub trait Record: Copy {
    // What words make.
    ghost of_words: { List ℕ → Option Self };

    // Which values the record can hold.
    ghost fits: { Self → Bool };

    // How they are written.
    ghost text: { Self → List ℕ };

    fn of_words(words: &[u64]) -> Option<Self>
        ensures { result ≡ of_words words.now };

    // How many bytes it has.
    fn len(self) -> usize
        ensures { result ≡ length (text self) };

    // Into a lent buffer; what follows it is the answer.
    fn write(self, out: &mut [u8], at: usize) -> usize
        requires { (at + length (text self) ≤ length out.old) × (fits self ≡ true) }
        ensures { Laid out.old at (text self) out.new result };

    ghost fitting: { (words : List ℕ) (value : Self) → of_words words ≡ Some value → fits value ≡ true };
}

impl Record for Report {
    ghost of_words = { report_of_words };

    ghost fits = { report_fits };

    ghost text = { report_text };

    ghost fitting = { report-words };

    fn of_words(words: &[u64]) -> Option<Report> {
        Report::of_words(words)
    }

    fn len(self) -> usize {
        self.len()
    }

    fn write(self, out: &mut [u8], at: usize) -> usize {
        self.write(out, at)
    }
}

impl Record for Correction {
    ghost of_words = { correction_of_words };

    ghost fits = { correction_fits };

    ghost text = { correction_text };

    ghost fitting = { correction-words };

    fn of_words(words: &[u64]) -> Option<Correction> {
        Correction::of_words(words)
    }

    fn len(self) -> usize {
        self.len()
    }

    fn write(self, out: &mut [u8], at: usize) -> usize {
        self.write(out, at)
    }
}

impl Record for Request {
    ghost of_words = { request_of_words };

    ghost fits = { request_fits };

    ghost text = { request_text };

    ghost fitting = { request-words };

    fn of_words(words: &[u64]) -> Option<Request> {
        Request::of_words(words)
    }

    fn len(self) -> usize {
        self.len()
    }

    fn write(self, out: &mut [u8], at: usize) -> usize {
        self.write(out, at)
    }
}
