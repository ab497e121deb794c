// Lent memory before a call: entry i holds i mod 251.

// Fills lent numbers or bytes.
pub fn fill<E: From<u8> + Drop>(memory: &mut [E]) {
    for (i, entry) in memory.iter_mut().enumerate() {
        *entry = E::from((i % 251) as u8);
    }
}
