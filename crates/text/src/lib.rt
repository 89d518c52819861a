// Text: the fields of a line, the numbers and bytes in them, a line that is gathered from parts of the input, and text put into a lent buffer.
#![tactic(auto)]

ghost use Rattle.std.specs.Prelude.{◌≡◌, true, [], ◌∷◌, ◌+◌, ◌*◌, ◌≤◌, ◌<◌, length, take, MatchOption};
ghost use Rattle.rules.specs.Lists.{all};
ghost use Rattle.stores.specs.Placed.{placed};
ghost use Rattle.text.specs.Fields.{Found, between, has_word, NextField, Grown, Gathered};
ghost use Rattle.text.specs.Hex.{pairs, is_dash, is_pairs, Decoded};
ghost use Rattle.text.specs.Numbers.{digit_of, is_digit_byte, onward, number_of, decimal_of, hex16_of};
ghost use Rattle.text.specs.Output.{glyph_of, hex_byte, Put};

// A line so far: its size, or one more than its buffer's where it is too long; and the index where the chunk goes on after the line's end, where the
// chunk has it.
#[derive(Clone, Copy)]
pub struct Piece {
    pub size: usize,
    pub next: Option<usize>,
}

// What b stands for as a hex digit. 16 stands for none, and no Option, since one comparison with a base up to 16 then tests for its digits.
pub fn digit(b: u8) -> u8
    ensures { result ≡ digit_of b }
{
    match b {
        b'0'..=b'9' => b - b'0',
        b'a'..=b'f' => b - b'a' + 10,
        _ => 16,
    }
}

// The number that the digits of n and the digit b stand for. The test comes before the product, which can pass 2^64.
fn add_digit(n: u64, base: u64, b: u8) -> Option<u64>
    requires { 0 < base }
    ensures { result ≡ onward base n (b ∷ []) }
{
    let d = u64::from(digit(b));
    if base <= d || (u64::MAX - d) / base < n {
        return None;
    }
    Some(n * base + d)
}

fn read_number(s: &[u8], base: u64) -> Option<u64>
    requires { 0 < base }
    ensures { result ≡ number_of base s.now }
{
    if s.is_empty() {
        return None;
    }
    let mut n = 0;
    for &b in s {
        n = add_digit(n, base, b)?;
    }
    Some(n)
}

pub fn decimal(s: &[u8]) -> Option<u64>
    ensures { result ≡ decimal_of s.now }
{
    read_number(s, 10)
}

// 16 hex digits, as the bits of an f64.
pub fn hex16(s: &[u8]) -> Option<u64>
    ensures { result ≡ hex16_of s.now }
{
    if s.len() != 16 {
        return None;
    }
    read_number(s, 16)
}

// A loop with its own exit, and no chain: with `all` LLVM makes a branch of digit or letter, and a script of long mixed bodies took twice as long and more.
fn is_hex(s: &[u8]) -> bool
    ensures { result ≡ all (is_digit_byte 16) s.now }
{
    for &b in s {
        if 16 <= digit(b) {
            return false;
        }
    }
    true
}

// The byte of two hex digits.
fn pair(a: u8, b: u8) -> u8
    requires { (digit_of a < 16) × (digit_of b < 16) }
    ensures { result ≡ digit_of a * 16 + digit_of b }
{
    digit(a) * 16 + digit(b)
}

// Writes the bytes of n pairs of hex digits to the front of out.
fn write_pairs(s: &[u8], n: usize, out: &mut [u8])
    requires { (n + n ≡ length s.now) × (n ≤ length out.old) × (all (is_digit_byte 16) s.now ≡ true) }
    ensures { out.new ≡ placed out.old 0 (pairs s.now) }
{
    for i in 0..n {
        out[i] = pair(s[i + i], s[i + i + 1]);
    }
}

fn is_pairs(s: &[u8]) -> bool
    ensures { result ≡ is_pairs s.now }
{
    !s.is_empty() && s.len() % 2 == 0 && is_hex(s)
}

fn is_dash(s: &[u8]) -> bool
    ensures { result ≡ is_dash s.now }
{
    stores::same_bytes(s, b"-")
}

// Reads bytes in hex into the front of out. Where s is wrong or longer than out, out stays as it is.
pub fn hex(s: &[u8], out: &mut [u8]) -> Option<usize>
    ensures { Decoded s.now out.old result out.new }
{
    if is_dash(s) {
        return Some(0);
    }
    if !is_pairs(s) {
        return None;
    }
    let n = s.len() / 2;
    if out.len() < n {
        return None;
    }
    write_pairs(s, n, out);
    Some(n)
}

// The index of the first b in s from index at on, or the length of s where there is none. No Option: what no b ends goes on to the end of s, so each
// caller takes the index as an end, and with an Option all five would say `unwrap_or(s.len())`; gather_line alone asks which it is.
pub fn find(s: &[u8], at: usize, b: u8) -> usize
    requires { at ≤ length s.now }
    ensures { Found b s.now at result }
{
    match s[at..].iter().position(|&x| x == b) {
        Some(i) => at + i,
        None => s.len(),
    }
}

// The first n elements of s, or all where it has fewer.
pub fn front<T>(s: &[T], n: usize) -> &[T]
    ensures { result.now ≡ take n s.now }
{
    &s[..n.min(s.len())]
}

// The elements from index from up to index to, none where s ends before to.
pub fn between<T>(s: &[T], from: usize, to: usize) -> &[T]
    ensures { result.now ≡ between s.now from to }
{
    s.get(from..to).unwrap_or(&[])
}

// Whether the first field is the word w, which then ends at index w.len().
pub fn has_word(s: &[u8], w: &[u8]) -> bool
    ensures { result ≡ has_word s.now w.now }
{
    let e = find(s, 0, b' ');
    stores::same_bytes(&s[..e], w)
}

// The field after the one that ends at index end, and the index where it ends itself: that of a space, or the line's length. There is none after the
// line's last field.
pub fn next_field(s: &[u8], end: usize) -> Option<(&[u8], usize)>
    ensures { MatchOption result (length s.now ≤ end) (λ f. NextField s.now end f.0.now f.1) }
{
    if s.len() <= end {
        return None;
    }
    let at = end + 1;
    let e = find(s, at, b' ');
    Some((&s[at..e], e))
}

// Puts part after the n bytes of a line. A line that line does not hold stays out, and has the size line.len() + 1: a number, since the size comes in
// again with the line's next part, and a line too long stays too long. Buffer and size are no struct: the one caller of gather_line,
// `lines::Input::read_line`, is lent the buffer and starts the size at 0 for each line, and the promise says of each what it becomes.
pub fn gather(line: &mut [u8], n: usize, part: &[u8]) -> usize
    requires { length line.old < 18446744073709551615 }
    ensures { Grown line.old n part.now result line.new }
{
    if line.len() < n || line.len() - n < part.len() {
        return line.len() + 1;
    }
    stores::copy_in(line, n, part);
    n + part.len()
}

// Puts the bytes of chunk from index at on, up to a line end, after the n bytes of a line. By find: `position` would need an `unwrap_or` for the end,
// and a `map` with one more closure in place of the test.
pub fn gather_line(chunk: &[u8], at: usize, line: &mut [u8], n: usize) -> Piece
    requires { (at ≤ length chunk.now) × (length line.old < 18446744073709551615) }
    ensures { Gathered chunk.now at line.old n result line.new }
{
    let e = find(chunk, at, b'\n');
    let size = gather(line, n, &chunk[at..e]);
    let next = if e < chunk.len() { Some(e + 1) } else { None };
    Piece { size, next }
}

// The functions put_.. write at index n of out, and return the index after what they wrote. They are no methods of `lines::Output`, whose methods promise
// no text: these promise what they write. Nor would they then write into any buffer but Output's own, of 65,536 bytes.
pub fn put_byte(out: &mut [u8], n: usize, b: u8) -> usize
    requires { n < length out.old }
    ensures { Put out.old n (b ∷ []) result out.new }
{
    out[n] = b;
    n + 1
}

pub fn put_bytes(out: &mut [u8], n: usize, b: &[u8]) -> usize
    requires { n + length b.now ≤ length out.old }
    ensures { Put out.old n b.now result out.new }
{
    stores::copy_in(out, n, b);
    n + b.len()
}

fn glyph(d: u8) -> u8
    requires { d < 16 }
    ensures { result ≡ glyph_of d }
{
    if d < 10 { b'0' + d } else { b'a' + (d - 10) }
}

// The two hex digits of b.
pub fn put_hex_byte(out: &mut [u8], n: usize, b: u8) -> usize
    requires { n + 2 ≤ length out.old }
    ensures { Put out.old n (hex_byte b) result out.new }
{
    let m = put_byte(out, n, glyph(b / 16));
    put_byte(out, m, glyph(b % 16))
}
