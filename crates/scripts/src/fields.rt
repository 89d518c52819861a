// The fields of a line, with one space between two of them.
ghost use Rattle.std.specs.Prelude.{◌≡◌, ◌+◌, ◌≤◌, ◌<◌, ◌&&◌, Some, None, ltb, eqb, length, take, drop, is_some, MatchOption, IfSome, OnSome};
ghost use Rattle.rules.specs.Answers.{flag_value};
ghost use Rattle.text.specs.Fields.{has_word, place_of, NextField};
ghost use Rattle.text.specs.Filled.{Filling};
ghost use Rattle.text.specs.Numbers.{decimal_of, hex16_of};
ghost use Rattle.text.specs.Taken.{after};

// A line, and the index where the last field ends that was read: that of a space, or the line's length. Each method but end reads the next field,
// and gives None where that is wrong or missing.
#[derive(Drop)]
pub struct Fields<'a> {
    line: &'a [u8],
    end: usize,
}

impl<'a> Fields<'a> {
    // The line's first field, and those after it.
    pub fn split(line: &'a [u8]) -> (&'a [u8], Self)
        ensures first { result.0.now ≡ take result.1.end line.now }
        ensures line { result.1.line.now ≡ line.now }
        ensures place { result.1.end ≡ place_of 32 line.now 0 }
    {
        let end = text::find(line, 0, b' ');
        (text::front(line, end), Fields { line, end })
    }

    // The next field is this word.
    pub fn word(&mut self, word: &[u8]) -> Option<()>
        ensures read { is_some result ≡ (ltb self.old.end (length self.old.line.now) && has_word (drop (self.old.end + 1) self.old.line.now) word.now) }
        ensures place { OnSome result (self.new.end ≡ place_of 32 self.old.line.now (self.old.end + 1)) }
        ensures line { self.new.line ≡ self.old.line }
    {
        if self.line.len() <= self.end {
            return None;
        }
        let at = self.end + 1;
        if !text::has_word(&self.line[at..], word) {
            return None;
        }
        self.end = text::find(self.line, at, b' ');
        Some(())
    }

    // The next field, right or wrong: it is the last one read from now on.
    fn next_field(&mut self) -> Option<&'a [u8]>
        ensures field { MatchOption result (length self.old.line.now ≤ self.old.end) (λ f. NextField self.old.line.now self.old.end f.now self.new.end) }
        ensures line { self.new.line ≡ self.old.line }
    {
        let (field, end) = text::next_field(self.line, self.end)?;
        self.end = end;
        Some(field)
    }

    pub fn decimal(&mut self) -> Option<u64>
        ensures read { MatchOption result (None ≡ after decimal_of self.old.line.now self.old.end) (λ n. Some (n, self.new.end) ≡ after decimal_of self.old.line.now self.old.end) }
        ensures line { self.new.line ≡ self.old.line }
    {
        text::decimal(self.next_field()?)
    }

    pub fn hex16(&mut self) -> Option<u64>
        ensures read { MatchOption result (None ≡ after hex16_of self.old.line.now self.old.end) (λ n. Some (n, self.new.end) ≡ after hex16_of self.old.line.now self.old.end) }
        ensures line { self.new.line ≡ self.old.line }
    {
        text::hex16(self.next_field()?)
    }

    // Reads bytes in hex into the front of out, and returns how many.
    pub fn hex(&mut self, out: &mut [u8]) -> Option<usize>
        ensures read { MatchOption result (Filling self.old.line.now self.old.end out.old None out.new) (λ n. Filling self.old.line.now self.old.end out.old (Some (n, self.new.end)) out.new) }
        ensures line { self.new.line ≡ self.old.line }
    {
        text::hex(self.next_field()?, out)
    }

    // 0 or 1.
    pub fn flag(&mut self) -> Option<bool>
        ensures read { MatchOption result (IfSome (after decimal_of self.old.line.now self.old.end) (λ f. 1 < f.0)) (λ b. Some (flag_value b, self.new.end) ≡ after decimal_of self.old.line.now self.old.end) }
        ensures line { self.new.line ≡ self.old.line }
    {
        match self.decimal()? {
            0 => Some(false),
            1 => Some(true),
            _ => None,
        }
    }

    // No field is left.
    pub fn end(&self) -> Option<()>
        ensures { is_some result ≡ eqb self.now.end (length self.now.line.now) }
    {
        (self.end == self.line.len()).then_some(())
    }
}
