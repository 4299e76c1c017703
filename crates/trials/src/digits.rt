// Hexadecimal digits.
use std::test::Fail;

// The 32 bytes that 64 hexadecimal digits spell.
pub(crate) fn spelled(digits: &str) -> Result<[u8; 32], Fail> {
    let mut bytes = [0; 32];
    hex::decode_to_slice(digits, &mut bytes).map_err(|_| Fail::new("not 64 hexadecimal digits"))?;
    Ok(bytes)
}
