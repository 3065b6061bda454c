//! Reading a text from the front.
ghost use Rattle.std.specs.Prelude.{◌≡◌, ◌<◌, ◌≤◌, ◌-◌, ◌*◌, ◌^◌, ◌==◌, ◌++◌, IfSome, MatchBool, length};
ghost use Rattle.std.specs.Prelude.{ℕ, List, MatchOption};
ghost use Rattle.pg_text.specs.Scans.{EndsDigits, NoNumber, TakesAllDigits, TakesDigits, TakesFraction, TakesNumber};

/// The rest of a text.
#[derive(Debug, Clone, Copy)]
pub struct Scanner<'a> {
    rest: &'a [u8],
}

impl<'a> Scanner<'a> {
    /// Creates a scanner of the whole text.
    pub fn new(text: &'a str) -> Scanner<'a>
        ensures { result.rest.now ≡ text.entry.now }
    {
        Scanner {
            rest: text.as_bytes(),
        }
    }

    /// Whether nothing is left.
    pub fn is_done(&self) -> bool
        ensures { result ≡ (length self.now.rest.now == 0) }
    {
        self.rest.is_empty()
    }

    /// Takes the word if the rest begins with it. Returns whether it does.
    pub fn take(&mut self, word: &[u8]) -> bool
        ensures { MatchBool result (self.old.rest.now ≡ word.now ++ self.new.rest.now)
            ((self.new.rest.now ≡ self.old.rest.now)
            × ((rest : List ℕ) → self.old.rest.now ≡ word.now ++ rest → ⊥)) }
    {
        match self.rest.strip_prefix(word) {
            Some(rest) => {
                self.rest = rest;
                true
            }
            None => false,
        }
    }

    /// Takes the word; `None` if the rest does not begin with it.
    pub fn expect(&mut self, word: &[u8]) -> Option<()>
        ensures { MatchOption result ((rest : List ℕ) → self.old.rest.now ≡ word.now ++ rest → ⊥)
            (λ _. self.old.rest.now ≡ word.now ++ self.new.rest.now) }
    {
        if self.take(word) { Some(()) } else { None }
    }

    /// Takes two digits, and returns their number; `None` if the rest does not begin with two.
    #[inline(always)]
    pub fn pair(&mut self) -> Option<u32>
        ensures digits { IfSome result (λ n. TakesDigits self.old.rest.now n 2 self.new.rest.now) }
        ensures bound { IfSome result (λ n. n < 100) }
    {
        let [high, low, rest @ ..] = self.rest else {
            return None;
        };
        if !high.is_ascii_digit() || !low.is_ascii_digit() {
            return None;
        }
        self.rest = rest;
        Some(u32::from(high - b'0') * 10 + u32::from(low - b'0'))
    }

    /// Takes a decimal number, and returns it and how many digits it has; `None` if there is no
    /// digit, or if the number does not fit in a `u64`.
    pub fn digits(&mut self) -> Option<(u64, usize)>
        ensures { MatchOption result (NoNumber (2 ^ 64) self.old.rest.now)
            (λ n. TakesAllDigits self.old.rest.now n.0 n.1 self.new.rest.now) }
    {
        let text = self.rest;
        let mut number: u64 = 0;
        let mut len = 0;
        while len < text.len() && text[len].is_ascii_digit() {
            let digit = u64::from(text[len] - b'0');
            number = number.checked_mul(10)?.checked_add(digit)?;
            len += 1;
        }
        if len == 0 {
            return None;
        }
        self.rest = &text[len..];
        Some((number, len))
    }

    /// Takes a decimal number; `None` if there is no digit, or if the number does not fit in a
    /// `u64`.
    pub fn number(&mut self) -> Option<u64>
        ensures { MatchOption result (NoNumber (2 ^ 64) self.old.rest.now)
            (λ n. TakesNumber self.old.rest.now n self.new.rest.now × EndsDigits self.new.rest.now) }
    {
        let (number, _) = self.digits()?;
        Some(number)
    }

    /// Takes a decimal number; `None` if there is no digit, or if the number does not fit in a
    /// `u32`.
    pub fn number_u32(&mut self) -> Option<u32>
        ensures { MatchOption result (NoNumber (2 ^ 32) self.old.rest.now)
            (λ n. TakesNumber self.old.rest.now n self.new.rest.now × EndsDigits self.new.rest.now) }
    {
        u32::try_from(self.number()?).ok()
    }

    /// Takes a decimal point and one to six digits, if there is a point, and returns the
    /// millionths. Returns `None` if no digit, or more than six, follow the point.
    pub fn fraction(&mut self) -> Option<u32>
        ensures { IfSome result (λ n. TakesFraction self.old.rest.now n self.new.rest.now) }
    {
        if !self.take(b".") {
            return Some(0);
        }
        let (number, places) = self.digits()?;
        millionths(u32::try_from(number).ok()?, places)
    }

    /// Takes a quoted text, in which a backslash precedes a quote and a backslash, and appends the
    /// text that it stands for. Returns `None` if the rest does not begin with a quote, or if no
    /// quote ends it.
    pub fn quoted(&mut self, out: &mut Vec<u8>) -> Result<Option<()>, std::alloc::AllocError> {
        if !self.take(b"\"") {
            return Ok(None);
        }
        let mut is_escaped = false;
        let text = self.rest;
        for (place, byte) in text.iter().enumerate() {
            if is_escaped {
                out.push(*byte)?;
                is_escaped = false;
            } else if *byte == b'\\' {
                is_escaped = true;
            } else if *byte == b'"' {
                self.rest = &text[place + 1..];
                return Ok(Some(()));
            } else {
                out.push(*byte)?;
            }
        }
        Ok(None)
    }
}

/// Returns the millionths for the number of these digits after a decimal point; `None` if there are
/// more than six digits.
fn millionths(number: u32, places: usize) -> Option<u32>
    ensures { IfSome result (λ micros. (places ≤ 6) × (micros ≡ number * 10 ^ (6 - places))) }
{
    let zeros = 6usize.checked_sub(places)?;
    number.checked_mul(10u32.checked_pow(zeros as u32)?)
}
