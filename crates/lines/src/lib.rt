// Standard input by lines, and standard output through a buffer of 65,536 bytes that is written when it is full.
#![tactic(auto)]

ghost use Rattle.std.specs.Prelude.{◌≡◌, ◌+◌, ◌≤◌, length};
ghost use Rattle.text.specs.Output.{Put};
ghost use Rattle.lines.specs.Numerals.{Decimals, hex16_text};

use std::io::{Read, Stdin, Stdout, Write};

// The digits of v, at most 20. Output's methods promise no text; as text::put_bytes, put_decimal and put_hex16 promise what they write, and write into
// any buffer, so they take buffer and count.
pub fn put_decimal(out: &mut [u8], n: usize, v: u64) -> usize
    requires { n + 20 ≤ length out.old }
    ensures { Decimals out.old n v result out.new }
{
    let mut text = [0u8; 20];
    let k = io::decimal(v, &mut text);
    text::put_bytes(out, n, &text[..k])
}

// The 16 hex digits of v.
pub fn put_hex16(out: &mut [u8], n: usize, v: u64) -> usize
    requires { n + 16 ≤ length out.old }
    ensures { Put out.old n (hex16_text v) result out.new }
{
    let mut text = [0u8; 16];
    let k = io::hex(v, 16, &mut text);
    text::put_bytes(out, n, &text[..k])
}

// Reads some of the input, and returns how many bytes: 0 at its end, or where it cannot be read.
pub fn read_some(stdin: Stdin, chunk: &mut [u8; 65536]) -> usize
    ensures { result ≤ 65536 }
{
    let mut input = stdin;
    input.read(chunk).unwrap_or(0)
}

// Says of a line that its buffer does not hold it.
#[derive(Clone, Copy)]
pub struct TooLong;

// Standard input: the last chunk that was read, how much of it is filled, and the index where it goes on. Lines are gathered by text::gather_line, whose
// contract says what they are; std's BufRead would take a line that is too long whole, onto the heap.
#[derive(Clone, Copy)]
pub struct Input {
    stdin: Stdin,
    chunk: [u8; 65536],
    filled: usize,
    at: usize,
    ghost on: { at ≤ filled },
    ghost within: { filled ≤ 65536 },
}

impl Input {
    pub fn new(stdin: Stdin) -> Self {
        Input {
            stdin,
            chunk: [0; 65536],
            filled: 0,
            at: 0,
        }
    }

    // Reads a line into its buffer, and returns its size, which is one more than the buffer's where it is too long.
    fn read_line(&mut self, line: &mut [u8]) -> Option<usize> {
        let mut size = 0;
        for _ in 0..u64::MAX {
            let chunk = text::front(&self.chunk, self.filled);
            let piece = text::gather_line(chunk, self.at, line, size);
            size = piece.size;
            if let Some(next) = piece.next {
                self.at = next;
                return Some(size);
            }
            self.at = 0;
            self.filled = read_some(self.stdin, &mut self.chunk);
            if self.filled == 0 {
                return if size == 0 { None } else { Some(size) };
            }
        }
        None
    }

    // The next line, which lies in line. A last line that has no end counts.
    pub fn next_line<'a>(&mut self, line: &'a mut [u8]) -> Option<Result<&'a [u8], TooLong>> {
        let size = self.read_line(line)?;
        if line.len() < size {
            return Some(Err(TooLong));
        }
        Some(Ok(&line[..size]))
    }
}

// Standard output, and the bytes for it that are not yet written. It is not Drop, so that the caller has to end with finish. Numbers are put there by
// put_decimal and put_hex16, whose contracts say the digits, and not by `write!`, which would give each function that prints a Result for an error that
// no one reads.
pub struct Output {
    pub stdout: Stdout,
    pub bytes: [u8; 65536],
    pub used: usize,
    ghost within: { used ≤ 65536 },
}

impl Output {
    pub fn new(stdout: Stdout) -> Self {
        Output {
            stdout,
            bytes: [0; 65536],
            used: 0,
        }
    }

    // Writes what is there. An error is ignored.
    pub fn flush(&mut self)
        ensures { self.new.used ≡ 0 }
    {
        let _ = self.stdout.write_all(&self.bytes[..self.used]);
        self.used = 0;
    }

    // Writes what is left, and ends.
    pub fn finish(mut self) {
        self.flush();
        let Output {
            stdout: _stdout,
            bytes: _bytes,
            used,
        } = self;
        prove!(used == 0);
    }

    // Makes room for n bytes. What print_byte, print_decimal, print_hex16 and print_hex_byte do with it differs in n and in who writes there: two lines
    // each, and a function that takes both as parameters is no plainer.
    fn make_room(&mut self, n: usize)
        requires { n ≤ 65536 }
        ensures { self.new.used + n ≤ 65536 }
    {
        if 65536 - self.used < n {
            self.flush();
        }
    }

    pub fn print_byte(&mut self, b: u8) {
        self.make_room(1);
        self.used = text::put_byte(&mut self.bytes, self.used, b);
    }

    pub fn print_decimal(&mut self, v: u64) {
        self.make_room(20);
        self.used = put_decimal(&mut self.bytes, self.used, v);
    }

    pub fn print_hex16(&mut self, v: u64) {
        self.make_room(16);
        self.used = put_hex16(&mut self.bytes, self.used, v);
    }

    pub fn print_bytes(&mut self, bytes: &[u8]) {
        for &b in bytes {
            self.print_byte(b);
        }
    }

    fn print_hex_byte(&mut self, b: u8) {
        self.make_room(2);
        self.used = text::put_hex_byte(&mut self.bytes, self.used, b);
    }

    // A body in hex, `-` where it is empty.
    pub fn print_hex(&mut self, body: &[u8]) {
        if body.is_empty() {
            self.print_byte(b'-');
        }
        for &b in body {
            self.print_hex_byte(b);
        }
    }
}
