// A meter's reading of a float or of a day.
// Kept: kinds as bare bytes, since a test that shared the reader's names would share its mistakes.
use series::Refusal;
use std::num;

// A kind and the bits of a float, low byte first.
pub fn float(kind: u8, bits: u32) -> [u8; 5] {
    let [first, second, third, fourth] = bits.to_le_bytes();
    [kind, first, second, third, fourth]
}

// The day that a meter's reading of a day is read as; in litres, whose floats have every flow exactly.
pub fn day(day: u32) -> Result<u32, Refusal> {
    if day == series::MISSING {
        return meter::meter(&[3]);
    }
    let bits = num::f32_to_bits_with_nan(num::nearest_u32_to_f32(day));
    meter::meter(&float(2, bits))
}
