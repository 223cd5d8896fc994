// A number: the digits of its two fields. The second field is empty, or names the last number of a block.
ghost use Rattle.std.specs.Prelude.{◌≡◌, true, ◌&&◌, leb, eqb, ◌+◌, ◌≤◌, ◌/◌, length};
ghost use Rattle.laws.specs.Overlay.{Laid};
ghost use Rattle.laws.specs.Digits.{digits, down};
ghost use Rattle.fields.specs.Block.{some_decade};
ghost use Rattle.fields.specs.Number.{digits_field_of, digits_fits, digits_size, digits_text, is_empty, block_fits, number_of, number_fits, same_number};

// The digits of one field behind a leading 1, so that equal codes are equal digits: "" is 1, "0" is 10, "012" is 1012.
#[derive(Clone, Copy, PartialEq, Eq)]
pub struct Digits(pub u64);

impl Digits {
    // An empty field; as a word too.
    pub const EMPTY: Digits = Digits(1);

    // At most 11 digits.
    #[tactic(auto, using(std::proofs::lemmas::Bool::Decides::nat_tests), unfolding(crate::specs::Number::digits_field_of, crate::specs::Number::digits_from))]
    pub fn read(f: &[u8]) -> Option<Digits>
        ensures { result ≡ digits_field_of f.now }
    {
        if 11 < f.len() {
            return None;
        }
        Some(Digits(text::read_digits(f, true)?))
    }

    // Whether it is the code of at most 11 digits.
    #[tactic(auto, using(std::proofs::lemmas::Bool::Decides::nat_tests), unfolding(crate::specs::Number::digits_fits))]
    pub fn fits(self) -> bool
        ensures { result ≡ digits_fits self }
    {
        let k = self.len();
        k <= 11 && text::leading(self.0, k) == 1
    }

    pub fn is_empty(self) -> bool
        ensures { result ≡ is_empty self }
    {
        self == Digits::EMPTY
    }

    // How many digits it has.
    pub fn len(self) -> usize
        ensures { result ≡ digits_size self }
    {
        text::size(self.0, 12)
    }

    #[tactic(auto, using(laws::proofs::Digits::length_digits))]
    pub fn write(self, out: &mut [u8], at: usize) -> usize
        requires { (at + length (digits_text self) ≤ length out.old) × (digits_fits self ≡ true) }
        ensures { Laid out.old at (digits_text self) out.new result }
    {
        text::put_digits(out, at, self.len(), self.0)
    }
}

// Equal but for the last digit, and that of `x` the smaller or equal one.
fn nearly(x: u64, y: u64) -> bool
    ensures { result ≡ (eqb (x / 10) (y / 10) && leb x y) }
{
    x / 10 == y / 10 && x <= y
}

// Whether the `k` digits of `a` and of `b` bound a whole decade or several in a row.
#[tactic(auto, using(crate::proofs::BlockLaws::turns))]
fn decades(a: u64, b: u64, k: usize) -> bool
    requires { (down k a ≡ 1) × (down k b ≡ 1) }
    ensures { result ≡ some_decade (digits k a) (digits k b) }
{
    let mut x = a;
    let mut y = b;
    for _n in 0..k {
        if x % 10 != 0 || y % 10 != 9 {
            return false;
        }
        x /= 10;
        y /= 10;
        if nearly(x, y) {
            return true;
        }
    }
    false
}

// Whether a first field makes a block with a last one of `k` digits: it has as many, behind its leading 1.
#[tactic(auto, using(crate::proofs::NumberLaws::number_blocks))]
fn begins_block(first: Digits, last: Digits, k: usize) -> bool
    requires { (digits_fits last ≡ true) × (digits_size last ≡ k) }
    ensures { result ≡ block_fits first last }
{
    text::leading(first.0, k) == 1 && decades(first.0, last.0, k)
}

// Whether two fields of digits are the first and the last number of a block.
#[tactic(auto, using(crate::proofs::NumberLaws::number_blocks))]
fn is_block(first: Digits, last: Digits) -> bool
    ensures { result ≡ block_fits first last }
{
    last.fits() && begins_block(first, last, last.len())
}

#[derive(Clone, Copy, PartialEq, Eq)]
pub struct Number {
    pub first: Digits,
    pub last: Digits,
}

impl Number {
    // The second field beside the first one.
    #[tactic(auto, using(std::proofs::lemmas::Bool::Decides::nat_tests), unfolding(crate::specs::Number::number_of, crate::specs::Number::number_from))]
    pub fn read(first: Digits, f: &[u8]) -> Option<Number>
        ensures { result ≡ number_of first f.now }
    {
        if f.is_empty() {
            return Some(Number {
                first,
                last: Digits::EMPTY,
            });
        }
        let last = Digits::read(f)?;
        if !begins_block(first, last, f.len()) {
            return None;
        }
        Some(Number { first, last })
    }

    // Whether its two fields can hold it.
    #[tactic(auto, using(std::proofs::lemmas::Bool::Decides::nat_tests), unfolding(crate::specs::Number::number_fits))]
    pub fn fits(self) -> bool
        ensures { result ≡ number_fits self }
    {
        if self.last.is_empty() {
            self.first.fits()
        } else {
            is_block(self.first, self.last)
        }
    }

    // Two numbers are the same exactly if they agree field by field.
    #[tactic(auto, using(std::proofs::lemmas::Bool::Decides::nat_tests), unfolding(crate::specs::Number::same_number))]
    pub fn same(a: Number, b: Number) -> bool
        ensures { result ≡ same_number a b }
    {
        a == b
    }
}
