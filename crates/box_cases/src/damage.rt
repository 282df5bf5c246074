// Small damage to a box.

// The bits of a byte, the first one first.
const BITS: [u8; 8] = [128, 64, 32, 16, 8, 4, 2, 1];

// Flips one bit of one byte, if there are such a byte and such a bit.
pub(crate) fn flip(input: &mut [u8], place: usize, bit: usize) {
    if let (Some(byte), Some(mask)) = (input.get_mut(place), BITS.get(bit)) {
        *byte ^= *mask;
    }
}

// Writes the length of a box into its size, if it has one.
pub(crate) fn mend(input: &mut [u8]) {
    let Ok(length) = u32::try_from(input.len()) else {
        return;
    };
    if let Some(size) = input.first_chunk_mut::<4>() {
        *size = length.to_be_bytes();
    }
}
