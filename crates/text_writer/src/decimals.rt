//! Numbers in decimal digits, put where room was made for them.

ghost use Rattle.std.specs.Prelude.{◌≡◌, ◌++◌, ◌∷◌, [], ◌+◌, ◌≤◌, ◌<◌, ◌/◌, ◌%◌, length, decimal, vec_len, vec_capacity};
ghost use Rattle.itoa.proofs.Decimal.{pair};

/// The most digits of a number.
pub const DIGITS: usize = 20;

/// The most bytes of a number behind a mark.
pub const MARKED: usize = 1 + DIGITS;

/// A digit.
fn push_one(out: &mut Vec<u8>, n: u64)
    requires below { n < 10 }
    requires room { vec_len out.old + 1 ≤ vec_capacity out.old }
    ensures items { out.new.items ≡ out.old.items ++ (48 + n) ∷ [] }
    ensures len { vec_len out.new ≡ vec_len out.old + 1 }
    ensures capacity { vec_capacity out.new ≡ vec_capacity out.old }
{
    out.push_reserved(b'0' + n as u8);
}

/// Two digits.
fn push_two(out: &mut Vec<u8>, n: u64)
    requires below { n < 100 }
    requires room { vec_len out.old + 2 ≤ vec_capacity out.old }
    ensures items { out.new.items ≡ out.old.items ++ (48 + n / 10) ∷ (48 + n % 10) ∷ [] }
    ensures len { vec_len out.new ≡ vec_len out.old + 2 }
    ensures capacity { vec_capacity out.new ≡ vec_capacity out.old }
{
    push_one(out, n / 10);
    push_one(out, n % 10);
}

/// Four digits.
fn push_four(out: &mut Vec<u8>, n: u64)
    requires below { n < 10000 }
    requires room { vec_len out.old + 4 ≤ vec_capacity out.old }
    ensures items { out.new.items ≡ out.old.items ++ pair (n / 100) ++ pair (n % 100) }
    ensures len { vec_len out.new ≡ vec_len out.old + 4 }
    ensures capacity { vec_capacity out.new ≡ vec_capacity out.old }
{
    push_two(out, n / 100);
    push_two(out, n % 100);
}

/// A number below 10,000, from its first digit that isn't 0.
#[tactic(auto, using(crate::proofs::Numerals::one, crate::proofs::Numerals::two, crate::proofs::Numerals::three, crate::proofs::Numerals::four))]
fn push_short(out: &mut Vec<u8>, n: u64)
    requires below { n < 10000 }
    requires room { vec_len out.old + length (decimal n) ≤ vec_capacity out.old }
    ensures items { out.new.items ≡ out.old.items ++ decimal n }
    ensures len { vec_len out.new ≡ vec_len out.old + length (decimal n) }
    ensures capacity { vec_capacity out.new ≡ vec_capacity out.old }
{
    if n < 10 {
        return push_one(out, n);
    }
    if n < 100 {
        return push_two(out, n);
    }
    if n < 1000 {
        push_one(out, n / 100);
        return push_two(out, n % 100);
    }
    push_four(out, n)
}

/// A number, its last four digits behind those of what is above them.
#[tactic(auto, using(crate::proofs::Numerals::more, crate::proofs::Numerals::more_long))]
fn push_digits(out: &mut Vec<u8>, n: u64)
    requires room { vec_len out.old + length (decimal n) ≤ vec_capacity out.old }
    ensures items { out.new.items ≡ out.old.items ++ decimal n }
    ensures len { vec_len out.new ≡ vec_len out.old + length (decimal n) }
    ensures capacity { vec_capacity out.new ≡ vec_capacity out.old }
{
    if n < 10000 {
        return push_short(out, n);
    }
    push_digits(out, n / 10000);
    push_four(out, n % 10000)
}

/// A number. Most have one digit, which is put at the place of the call.
#[tactic(auto, using(crate::proofs::Numerals::one, crate::proofs::Numerals::at_most_twenty))]
#[inline(always)]
pub fn push_decimal(out: &mut Vec<u8>, n: u64)
    requires room { vec_len out.old + 20 ≤ vec_capacity out.old }
    ensures items { out.new.items ≡ out.old.items ++ decimal n }
    ensures len { vec_len out.new ≤ vec_len out.old + 20 }
    ensures capacity { vec_capacity out.new ≡ vec_capacity out.old }
{
    if n < 10 {
        return push_one(out, n);
    }
    push_digits(out, n)
}

/// A number behind a mark.
#[inline(always)]
pub fn push_behind(out: &mut Vec<u8>, mark: u8, n: u64)
    requires room { vec_len out.old + 21 ≤ vec_capacity out.old }
    ensures items { out.new.items ≡ out.old.items ++ mark ∷ decimal n }
    ensures len { vec_len out.new ≤ vec_len out.old + 21 }
    ensures capacity { vec_capacity out.new ≡ vec_capacity out.old }
{
    out.push_reserved(mark);
    push_decimal(out, n)
}
