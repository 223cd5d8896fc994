// Whether the records of the two journals are in their layouts.
ghost use Rattle.std.specs.Prelude.{◌≡◌, ◌+◌, ◌*◌, ◌≤◌, length};
ghost use Rattle.std.specs.List.{list_all, range_with_len};
ghost use Rattle.laws.specs.Slots.{slot_at};
ghost use Rattle.layout.specs.Correction.{correction_of};
ghost use Rattle.layout.specs.Report.{report_of};
ghost use Rattle.store.specs.Records.{good_report, good_correction};

use crate::journals::records::{CORRECTION_SLOT, REPORT_SLOT};
use crate::slots::record;
use layout::correction::Correction;
use layout::report::Report;

// Whether the slot k of the regular journal holds a report. That of the other journal is a line of its own: a reader as a parameter would need
// a contract for what it reads.
#[tactic(auto, unfolding(crate::specs::Records::good_report))]
fn good_report(regular: &[u8], k: usize) -> bool
    requires { k * 45 + 45 ≤ length regular.now }
    ensures { result ≡ good_report (slot_at 0 45 regular.now k) }
{
    record::is_held(regular, REPORT_SLOT, k)
        && Report::read(record::bytes(regular, REPORT_SLOT, k)).is_some()
}

// Whether the slot k of the correction journal holds a correction.
#[tactic(auto, unfolding(crate::specs::Records::good_correction))]
fn good_correction(corrections: &[u8], k: usize) -> bool
    requires { k * 98 + 98 ≤ length corrections.now }
    ensures { result ≡ good_correction (slot_at 0 98 corrections.now k) }
{
    record::is_held(corrections, CORRECTION_SLOT, k)
        && Correction::read(record::bytes(corrections, CORRECTION_SLOT, k)).is_some()
}

// Whether each of the first n slots of the regular journal does.
pub(crate) fn good_reports(regular: &[u8], n: usize) -> bool
    requires { n * 45 ≤ length regular.now }
    ensures { result ≡ list_all (λ i. good_report (slot_at 0 45 regular.now i)) (range_with_len 0 n) }
{
    (0..n).all(|i| good_report(regular, i))
}

// Whether each of the first n slots of the correction journal does.
pub(crate) fn good_corrections(corrections: &[u8], n: usize) -> bool
    requires { n * 98 ≤ length corrections.now }
    ensures { result ≡ list_all (λ i. good_correction (slot_at 0 98 corrections.now i)) (range_with_len 0 n) }
{
    (0..n).all(|i| good_correction(corrections, i))
}
