// Why a file is refused with 4, and where.
ghost use Rattle.std.specs.Prelude.{◌≡◌};
ghost use Rattle.faults.specs.Cause.{cause_number};

// The causes in the order in which they are tried for one field: a character outside 4.4.1, a field of the wrong length, a date that doesn't
// exist, a network code that isn't one, a value the table doesn't allow; and of a whole file: a closing record that is missing or whose count
// disagrees, bytes after the end. Other languages know each by its number.
#[derive(Clone, Copy)]
pub enum Cause {
    Character = 1,
    Length = 2,
    Date = 3,
    Code = 4,
    Value = 5,
    Closing = 6,
    After = 7,
}

impl Cause {
    // Its number for other languages, from 1.
    pub fn number(self) -> u8
        ensures { result ≡ cause_number self }
    {
        self as u8
    }
}

// Where a fault is: the place of the record, counted from 0, and the field in it; a fault of no field has field 0.
#[derive(Clone, Copy)]
pub struct FaultPlace {
    pub place: usize,
    pub field: usize,
}

// The field of a record that is wrong, and why.
#[derive(Clone, Copy)]
pub struct FieldFault {
    pub field: usize,
    pub cause: Cause,
}
