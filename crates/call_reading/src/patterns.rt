// The f64 of a pattern of bits. The language makes one only where it is no NaN.
const INFINITY_PATTERN: u64 = 9218868437227405312;

const SIGN: u64 = 9223372036854775808;

// A pattern above that of infinity, but for its sign, is a NaN's.
pub fn float_of(n: u64) -> f64 {
    if n % SIGN <= INFINITY_PATTERN {
        return f64::from_bits(n);
    }
    0.0 / 0.0
}
