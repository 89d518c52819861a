// Prints what it reads of each line: `d NUMBER`, `x HEX16`, `h HEX`, `p NUMBER HEX`, and for any other line `? ` and its number from 1.
#![tactic(auto)]

use lines::Output;
use scripts::Fields;

// What a line says; a body lies in the buffer for it, and has its length here.
#[derive(Clone, Copy)]
enum Line {
    Decimal(u64),
    Bits(u64),
    Body(usize),
    Pair(u64, usize),
}

fn read_line(s: &[u8], body: &mut [u8]) -> Option<Line> {
    let (word, mut fields) = Fields::split(s);
    let line = match word {
        b"d" => Line::Decimal(fields.decimal()?),
        b"x" => Line::Bits(fields.hex16()?),
        b"h" => Line::Body(fields.hex(body)?),
        b"p" => Line::Pair(fields.decimal()?, fields.hex(body)?),
        _ => return None,
    };
    fields.end()?;
    Some(line)
}

fn print_line(out: &mut Output, line: Line, body: &[u8]) {
    match line {
        Line::Decimal(v) => {
            out.print_bytes(b"d ");
            out.print_decimal(v);
        }
        Line::Bits(v) => {
            out.print_bytes(b"x ");
            out.print_hex16(v);
        }
        Line::Body(n) => {
            out.print_bytes(b"h ");
            out.print_hex(text::front(body, n));
        }
        Line::Pair(v, n) => {
            out.print_bytes(b"p ");
            out.print_decimal(v);
            out.print_byte(b' ');
            out.print_hex(text::front(body, n));
        }
    }
    out.print_byte(b'\n');
}

fn main(rt: HostRuntime) {
    let mut line = [0u8; 1000];
    let mut body = [0u8; 300];
    scripts::run(rt.stdin(), rt.stdout(), &mut line, |s, out| {
        let line = read_line(s, &mut body)?;
        print_line(out, line, &body);
        Some(())
    });
}
